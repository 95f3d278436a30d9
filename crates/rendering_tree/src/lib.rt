//! Trees of what was printed: elements with what they stand for, and the texts, formulas, links and locators in them.
#![tactic(auto)]

mod copies;
mod element;
mod equal;
mod find;
mod normal;
mod remove;
mod simplify;
mod tree_laws;
mod writing;

pub use element::{Elem, ElemChild, ElemChildren, ElemMeta, Formatted};
pub use equal::{are_equal_elements, are_equal_trees};
pub use rendering_output::{BufWriteFormat, TextTarget};
pub use simplify::simplify_children;
pub use tree_laws::{
    normal_trees_are_one, same_elements_are_one, same_trees_are_one, simplified_is_normal,
    simplifying_keeps_tokens, tags_are_nested, tree_of_nested_is_normal,
};
