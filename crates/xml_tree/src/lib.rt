//! Trees of XML 1.0 without document type declarations, with namespaces: elements with expanded names, their attributes, and the texts and
//! elements in them. Comments, processing instructions, quotes and references are read and are not in a tree.
#![tactic(auto)]

mod bindings;
mod building;
mod error;
mod met;
mod names;
mod reading;
mod scope;
mod tree;
mod value;

pub use error::TreeError;
pub use reading::parse;
pub use tree::{Attribute, Element, FullName};
