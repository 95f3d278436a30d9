//! The tokens of XML 1.0 without document type declarations, with the names of Namespaces in XML: tags with their attributes, character data,
//! references and CDATA sections, which borrow the text. Comments and processing instructions are read and say nothing.
#![tactic(auto)]

mod attribute;
mod character;
mod ending;
mod fault;
mod markup;
mod name;
mod prolog;
mod reading;
mod token;
mod value;

pub use fault::{Fault, XmlError};
pub use markup::next_token;
pub use prolog::take_prolog;
pub use reading::{byte_len, skip_space};
pub use token::{Attribute, Name, Piece, Placed, Reference, Tag, Token};
