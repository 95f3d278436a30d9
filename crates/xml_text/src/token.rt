//! What a text of XML is made of. All of it borrows the text.

/// Something, and the place where it begins.
#[derive(Clone, Copy, Debug, PartialEq, Eq, Drop)]
pub struct Placed<T> {
    pub v: T,
    /// How many bytes of the text are left where it begins.
    pub left: usize,
}

/// A name, with or without a prefix.
#[derive(Clone, Copy, Debug, PartialEq, Eq)]
pub struct Name<'s> {
    /// What stands before the colon, if there is one.
    pub prefix: Option<&'s str>,
    /// What stands after it, or the whole name.
    pub local: &'s str,
}

/// A reference.
#[derive(Clone, Copy, Debug, PartialEq, Eq)]
pub enum Reference<'s> {
    /// The name of an entity.
    Entity(&'s str),
    /// The number of a character in decimal digits.
    Decimal(&'s str),
    /// The same in hexadecimal digits.
    Hexadecimal(&'s str),
}

/// A piece of an attribute's value.
#[derive(Clone, Copy, Debug, PartialEq, Eq)]
pub enum Piece<'s> {
    /// Characters as they are written.
    Literal(&'s str),
    /// A reference.
    Reference(Placed<Reference<'s>>),
}

/// An attribute.
#[derive(Debug, Drop)]
pub struct Attribute<'s> {
    pub name: Name<'s>,
    /// Its value, in order; two literals never follow one another.
    pub value: Vec<Piece<'s>>,
}

/// A start-tag.
#[derive(Debug, Drop)]
pub struct Tag<'s> {
    pub name: Name<'s>,
    /// The attributes in order, each at the place of its name.
    pub attributes: Vec<Placed<Attribute<'s>>>,
    /// Whether it is that of an empty element, which has no end-tag.
    pub empty: bool,
}

/// A token.
#[derive(Debug, Drop)]
pub enum Token<'s> {
    /// A start-tag.
    Start(Tag<'s>),
    /// An end-tag, with the place of its name.
    End(Placed<Name<'s>>),
    /// Character data between markup and references, as it is written.
    Characters(&'s str),
    /// A reference outside tags.
    Reference(Reference<'s>),
    /// The text of a CDATA section, as it is written.
    Section(&'s str),
    /// A comment or a processing instruction.
    Nothing,
}
