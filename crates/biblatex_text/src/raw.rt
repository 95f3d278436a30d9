//! What a text holds before the contents of its fields are read. All of it borrows the source.

ghost use Rattle.std.specs.Prelude.{◌≡◌};

use crate::spanned::Spanned;

/// A piece of a value.
#[derive(Clone, Copy, Debug, PartialEq, Eq)]
pub enum RawChunk<'s> {
    /// The text between braces or quotation marks, as it is written there, or a number.
    Normal(&'s str),
    /// The name of an abbreviation.
    Abbreviation(&'s str),
}

/// A value: its pieces in order.
pub type Field<'s> = Vec<Spanned<RawChunk<'s>>>;

/// A field, or an abbreviation: its name and its value.
#[derive(Debug, Drop)]
pub struct Pair<'s> {
    /// The name.
    pub key: Spanned<&'s str>,
    /// The value, from the mark that opens its first piece to the one that closes its last; a bare piece has none.
    pub value: Spanned<Field<'s>>,
}

/// An entry as written.
#[derive(Debug, Drop)]
pub struct RawEntry<'s> {
    /// Its key.
    pub key: Spanned<&'s str>,
    /// Its kind.
    pub kind: Spanned<&'s str>,
    /// Its fields in order.
    pub fields: Vec<Pair<'s>>,
}

impl<'s> Pair<'s> {
    /// A field or an abbreviation of that name and value.
    pub fn new(key: Spanned<&'s str>, value: Spanned<Field<'s>>) -> Pair<'s>
        ensures key { result.key ≡ key.entry }
        ensures value { result.value ≡ value.entry }
    {
        Pair { key, value }
    }
}

/// All entries and abbreviations of a text.
#[derive(Debug, Drop)]
pub struct RawBibliography<'s> {
    /// The entries in order, each from its at sign to what closes it.
    pub entries: Vec<Spanned<RawEntry<'s>>>,
    /// The abbreviations in order.
    pub abbreviations: Vec<Pair<'s>>,
}

/// What an item gives.
#[derive(Drop)]
pub(crate) enum RawItem<'s> {
    /// A comment or a preamble.
    Nothing,
    /// Abbreviations.
    Definitions(Vec<Pair<'s>>),
    /// An entry.
    Entry(RawEntry<'s>),
}
