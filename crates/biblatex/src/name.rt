//! Names, with the numbers that they begin with.

ghost use Rattle.std.specs.Prelude.{◌≡◌, slice_index, string_bytes};
ghost use Rattle.std.specs.Cmp.Lexicographic.{slice_cmp};
ghost use Rattle.std.specs.Ordering.{nat_cmp};
ghost use Rattle.biblatex.specs.Fronts.{front_of, AreBytes, IsFront};

use std::cmp::Ordering;

/// A name, and the number that its first eight bytes write, by which most names compare.
#[derive(Drop)]
pub(crate) struct Name {
    text: String,
    front: u64,
    ghost begins: { IsFront front (string_bytes text) },
}

/// A name that is looked up, and the number that its first eight bytes write.
#[derive(Clone, Copy)]
pub(crate) struct Sought<'a> {
    text: &'a str,
    front: u64,
    ghost begins: { IsFront front text.now },
}

/// The byte at an index; zero past the end.
fn byte_at(text: &[u8], index: usize) -> u8
    ensures { result ≡ slice_index text.now index }
{
    if index < text.len() { text[index] } else { 0 }
}

/// The number that the first eight bytes of a text write, the first of them highest.
fn front_of(text: &[u8]) -> u64
    ensures number { result ≡ front_of text.now }
    ensures bytes { AreBytes text.now }
{
    u64::from_be_bytes([
        byte_at(text, 0),
        byte_at(text, 1),
        byte_at(text, 2),
        byte_at(text, 3),
        byte_at(text, 4),
        byte_at(text, 5),
        byte_at(text, 6),
        byte_at(text, 7),
    ])
}

impl Name {
    /// The name of this text.
    pub(crate) fn new(text: String) -> Name
        ensures { string_bytes result.text ≡ string_bytes text }
    {
        let front = front_of(text.as_str().as_bytes());
        Name { text, front }
    }

    /// The text of the name.
    pub(crate) fn as_str(&self) -> &str
        ensures { result.now ≡ string_bytes self.now.text }
    {
        self.text.as_str()
    }

    /// The name as one that is looked up.
    pub(crate) fn as_sought(&self) -> Sought<'_>
        ensures { result.text.now ≡ string_bytes self.now.text }
    {
        Sought {
            text: self.text.as_str(),
            front: self.front,
        }
    }

    /// The text of the name, which is given up.
    pub(crate) fn into_text(self) -> String
        ensures { string_bytes result ≡ string_bytes self.text }
    {
        self.text
    }

    /// How the name compares with another, by their bytes. Where their first eight bytes write unequal numbers, these decide.
    pub(crate) fn order(&self, other: &Sought<'_>) -> Ordering
        ensures { result ≡ slice_cmp nat_cmp (string_bytes self.now.text) other.now.text.now }
    {
        let (front, other_front) = (self.front, other.front);
        if front != other_front {
            return front.cmp(&other_front);
        }
        self.text.as_str().cmp(other.text)
    }
}

impl<'a> Sought<'a> {
    /// The name of this text, to be looked up.
    pub(crate) fn new(text: &'a str) -> Sought<'a>
        ensures { result.text.now ≡ text.now }
    {
        let front = front_of(text.as_bytes());
        Sought { text, front }
    }
}
