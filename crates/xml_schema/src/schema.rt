//! Schemas: which elements, attributes and values a tree may have. They are tables.
//!
//! The type of a field that holds a table is a parameter, which stands for a reference to a constant table where nothing else is said. For a clause
//! can name a constant only where no field of its type is declared as a reference, and definitions name rules.

/// What the value of an attribute may be.
#[derive(Clone, Copy)]
pub enum Values<Groups = &'static [&'static [&'static str]]> {
    /// Any text.
    Any,
    /// Digits of a number, of which 2147483647 is the greatest; zeros may stand before it.
    Number,
    /// The same, or a hyphen and such digits.
    Signed,
    /// A word of one of these groups.
    OneOf(Groups),
    /// Words of these groups, one at least, parted by spaces. Line ends and tabs of a text are spaces in values, but those that references
    /// stand for are not.
    SomeOf(Groups),
}

/// An attribute that an element may have: its local name, and its values.
pub type AttributeRule = (&'static str, Values);

/// Attributes without a namespace that an element must have.
#[derive(Clone, Copy)]
pub enum Need<Names = &'static [&'static str]> {
    /// One of these, or more.
    AtLeastOne(Names),
    /// One of these, and no more.
    ExactlyOne(Names),
}

/// How often an element may stand in another.
#[derive(Clone, Copy)]
pub enum Times {
    /// As often as may be.
    Any,
    /// Once, or not at all.
    AtMostOnce,
    /// Once.
    Once,
}

/// An element that may stand in another: its local name, the name of the rule for it there, and how often it may stand there. Where no name of
/// a rule stands, the element is passed over with all that is in it; where the schema has no rule of the name, the element may not stand there.
pub type ChildRule = (&'static str, Option<&'static str>, Times);

/// What an element may have.
#[derive(Clone, Copy)]
pub struct Rule<
    Name = &'static str,
    Groups = &'static [&'static [AttributeRule]],
    Attributes = &'static [AttributeRule],
    Needs = &'static [Need],
    Children = &'static [ChildRule],
> {
    pub name: Name,
    /// Its attributes without a namespace, in groups.
    pub attributes: Groups,
    /// Its attributes with the prefix `xml`.
    pub xml_attributes: Attributes,
    pub needs: Needs,
    pub children: Children,
    /// Whether it may have text in it that is more than white space.
    pub holds_text: bool,
}

/// Which trees are valid.
#[derive(Clone, Copy)]
pub struct Schema<'r> {
    /// The namespace of its elements. An element without a namespace counts as one of it; those of other namespaces are passed over, but for a
    /// root. Of attributes those without a namespace and those with the prefix `xml` are as the rule says; those of this namespace are always
    /// wrong, and those of other namespaces are passed over.
    pub space: &'static str,
    /// The rule around the root: its children are the roots that there may be.
    pub document: Rule,
    pub rules: &'r [Rule],
}
