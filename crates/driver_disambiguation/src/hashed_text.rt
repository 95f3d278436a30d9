//! Texts, with their hashes.

ghost use Rattle.std.specs.Prelude.{◌≡◌, string_bytes};
ghost use Rattle.hashes.specs.Hashes.{text_hash};

use hashes::hash_of;

/// A text, and its hash, by which most texts are compared.
#[derive(PartialEq, Eq, PartialOrd, Ord, Drop)]
pub(crate) struct HashedText {
    hash: u64,
    text: String,
    ghost hashed: { hash ≡ text_hash (string_bytes text) },
}

impl HashedText {
    /// The text with its hash.
    pub(crate) fn new(text: String) -> HashedText
        ensures { string_bytes result.text ≡ string_bytes text }
    {
        let hash = hash_of(&text.as_str());
        HashedText { hash, text }
    }
}
