//! What a style asks for and is not there.

/// What an element of a style asks for: a feature that is not carried out, by its name, or a term that no locale has, by its word.
#[derive(Clone, Copy)]
pub struct Feature<'e> {
    /// How many bytes of the text are left where the start-tag of the element begins.
    pub left: usize,
    /// How the feature is called, or the word of the term.
    pub name: &'e str,
}
