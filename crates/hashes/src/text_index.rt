//! The numbers of texts.

ghost use Rattle.std.specs.Prelude.{◌≡◌, ℕ, List, None, Some, bytes_eq, if◌then◌else◌, string_bytes, OnErr, OnOk};
ghost use Rattle.std.specs.BTreeMap.{get};
ghost use Rattle.std.specs.Ordering.{nat_cmp};
ghost use Rattle.hashes.specs.Hashes.{text_hash};
ghost use Rattle.hashes.specs.TextIndices.{if_text, is_another, number_of};

use crate::hash_of;
use std::alloc::{AllocError, Global};
use std::collections::BTreeMap;

/// A number for each text. Trees have the first text of each hash under the hash, and the others under themselves: so most texts are compared
/// once, and whoever chooses the texts does not decide what a look-up costs.
#[derive(Drop)]
pub struct TextIndex {
    firsts: BTreeMap<u64, (String, usize)>,
    others: BTreeMap<String, usize>,
}

impl TextIndex {
    /// An index without texts.
    pub fn new(alloc: Global) -> TextIndex
        ensures { (text : List ℕ) → number_of result text ≡ None }
    {
        TextIndex {
            firsts: BTreeMap::new(alloc),
            others: BTreeMap::new(alloc),
        }
    }

    /// The number of a text.
    pub fn get(&self, text: &str) -> Option<usize>
        ensures { result ≡ number_of self.now text.now }
    {
        match self.first(text) {
            Some(number) => Some(number),
            None => self.others.get(text).copied(),
        }
    }

    /// The number of a text that is the first of its hash.
    fn first(&self, text: &str) -> Option<usize>
        ensures { result ≡ if_text text.now (get nat_cmp self.now.firsts (text_hash text.now)) }
    {
        let (first, number) = self.firsts.get(&hash_of(&text))?;
        if text == first.as_str() {
            Some(*number)
        } else {
            None
        }
    }

    /// Gives a text a number, instead of the one that it has.
    ///
    /// # Errors
    /// Out of memory; each text has the number that it had.
    pub fn insert(&mut self, text: String, number: usize) -> Result<(), AllocError>
        ensures ok { OnOk result ((other : List ℕ) → number_of self.new other
            ≡ (if bytes_eq (string_bytes text) other then Some number
            else number_of self.old other)) }
        ensures err { OnErr result ((other : List ℕ)
            → number_of self.new other ≡ number_of self.old other) }
    {
        let hash = hash_of(&text.as_str());
        if self.has_another(hash, text.as_str()) {
            self.others.insert(text, number)?;
        } else {
            self.firsts.insert(hash, (text, number))?;
        }
        Ok(())
    }

    /// Whether the first text of a hash is another than this one.
    fn has_another(&self, hash: u64, text: &str) -> bool
        ensures { result ≡ is_another text.now (get nat_cmp self.now.firsts hash) }
    {
        match self.firsts.get(&hash) {
            Some((first, _)) => text != first.as_str(),
            None => false,
        }
    }

    /// Takes the number of a text away.
    pub fn remove(&mut self, text: &str)
        ensures { (other : List ℕ) → number_of self.new other
            ≡ (if bytes_eq text.now other then None else number_of self.old other) }
    {
        self.others.remove(text);
        let hash = hash_of(&text);
        if !self.has_another(hash, text) {
            self.firsts.remove(&hash);
        }
    }
}
