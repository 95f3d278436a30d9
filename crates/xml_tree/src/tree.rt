//! Trees of XML.

use std::rc::RcStr;
use xml_text::Placed;

/// A name with the namespace that it is in.
#[derive(Drop)]
pub struct FullName<'s> {
    /// The namespace, if it is in one; the names of a tree share it.
    pub space: Option<RcStr>,
    pub local: &'s str,
}

/// An attribute that declares no namespace.
#[derive(Drop)]
pub struct Attribute<'s> {
    pub name: FullName<'s>,
    pub value: String,
}

/// An element. Dropping recurses as deep as elements are nested.
#[derive(Drop)]
pub struct Element<'s> {
    /// How many bytes of the text are left where its start-tag begins.
    pub left: usize,
    pub name: FullName<'s>,
    /// Its attributes in order, each at its place.
    pub attributes: Vec<Placed<Attribute<'s>>>,
    /// The elements in it, each with the text before it, which may be empty.
    pub children: Vec<(String, Element<'s>)>,
    /// The text after them, or all its text where there are none.
    pub text: String,
}
