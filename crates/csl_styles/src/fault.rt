//! What is wrong with the tree of a style or of a locale.

/// What is wrong with an element.
#[derive(Clone, Copy)]
pub enum Wrong<'s> {
    /// The schema of CSL 1.0.2 does not allow it as it is.
    Schema(xml_schema::Wrong<'s>),
    /// It is a style without a parent, and has no `citation`.
    NoCitation,
    /// It is a macro, and one before it has its name.
    SecondMacro,
    /// It calls a macro that there is not.
    UnknownMacro,
}

/// A fault of a tree.
#[derive(Clone, Copy)]
pub struct Fault<'s> {
    /// How many bytes of the text are left where the start-tag of the element begins; in a `CslError` those that are left where the fault stands.
    pub left: usize,
    pub wrong: Wrong<'s>,
}
