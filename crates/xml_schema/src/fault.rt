//! What is wrong with a tree.

/// What is wrong with an element.
#[derive(Clone, Copy)]
pub enum Wrong<'s> {
    /// It may not stand in one of the rule of this name.
    Stray(&'static str),
    /// It may have no attribute of this local name.
    Attribute(&'s str),
    /// Its attribute of this local name may not have its value.
    Value(&'s str),
    /// It has none of these attributes.
    Lacking(&'static [&'static str]),
    /// It has more than one of these attributes.
    Crowded(&'static [&'static str]),
    /// It has no element of this name in it.
    Childless(&'static str),
    /// It has more than one element of this name in it.
    Repeated(&'static str),
    /// It has text in it that is more than white space.
    Text,
}

/// A fault of a tree.
#[derive(Clone, Copy)]
pub struct Fault<'s> {
    /// How many bytes of the text are left where the start-tag of the element begins; in a `ValidError` those that are left where the fault stands.
    pub left: usize,
    pub wrong: Wrong<'s>,
}
