//! The nodes of a style on a page: which of them are admitted, and what those that are add to the page.
#![tactic(auto)]

mod admission;
mod choice;
mod content;
mod elements;
mod finding;
mod form_admission;
mod inner_settings;
mod leaf_surveys;
mod left_open;
mod left_out;
mod node_laws;
mod people;
mod style_walk;
mod suffix;
mod survey;

pub use left_open::{
    accepted_substitutes_end, admitted_nodes_are_delimited, nodes_have_their_affixes,
    substitutes_alone_take, substitutes_keep_the_form, substitutes_suppress_at_once,
};
pub use node_laws::{
    alike_entries_print_alike, contents_are_nested, unanswered_groups_add_nothing,
};
pub use style_walk::Walk;
pub use suffix::has_suffix;
pub use survey::Survey;
