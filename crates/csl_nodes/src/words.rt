//! The words of terms that no list has.

ghost use Rattle.std.specs.Prelude.{◌≡◌, map, min, string_bytes, OnOk};
ghost use Rattle.csl_nodes.specs.Terms.{last_place};
ghost use Rattle.csl_nodes.specs.Words.{ArePlaces, with_word};

use std::alloc::{AllocError, Global};
use std::collections::BTreeMap;
use texts::owned;

/// Words, each once, in an order. The place of a word among them is looked up.
pub struct Words {
    words: Vec<String>,
    /// The place of each word.
    places: BTreeMap<String, usize>,
    ghost placed: { ArePlaces places (map string_bytes words.items) },
}

impl Drop for Words {
    fn drop(self) {
        let Words {
            words: _,
            places: _,
        } = self;
    }
}

/// Adds a word with its place, unless it is there.
fn add(
    alloc: Global,
    words: &mut Vec<String>,
    places: &mut BTreeMap<String, usize>,
    word: &str,
) -> Result<(), AllocError>
    requires { ArePlaces places.old (map string_bytes words.old.items) }
    ensures words { OnOk result (map string_bytes words.new.items
        ≡ with_word (map string_bytes words.old.items) word.now) }
    ensures places { OnOk result (ArePlaces places.new (map string_bytes words.new.items)) }
{
    if places.contains_key(word) {
        return Ok(());
    }
    places.insert(owned(alloc, word)?, words.len())?;
    words.push(owned(alloc, word)?)?;
    Ok(())
}

/// A place as the number of a word, at most 4294967295.
fn number(place: usize) -> u32
    ensures { result ≡ min place last_place }
{
    u32::try_from(place).unwrap_or(u32::MAX)
}

impl Words {
    ghost use Rattle.std.specs.Prelude.{◌≡◌, map, string_bytes, IfOk};
    ghost use Rattle.laws.specs.Borrowed.{borrowed};
    ghost use Rattle.csl_nodes.specs.Views.{words_view};
    ghost use Rattle.csl_nodes.specs.Terms.{place};
    ghost use Rattle.csl_nodes.specs.Words.{each_once};

    /// Words in the order in which they come first.
    ///
    /// # Errors
    /// Where a request for memory was refused.
    pub fn of(alloc: Global, listed: &[&str]) -> Result<Words, AllocError>
        ensures { IfOk result (λ w. words_view w ≡ each_once (borrowed listed.now)) }
    {
        let mut words = Vec::new(alloc);
        let mut places = BTreeMap::new(alloc);
        for word in listed {
            add(alloc, &mut words, &mut places, *word)?;
        }
        Ok(Words { words, places })
    }

    /// The words in their order.
    pub fn as_slice(&self) -> &[String]
        ensures { map string_bytes result.now ≡ words_view self.now }
    {
        self.words.as_slice()
    }

    /// The place of a word, or how many words there are; at most 4294967295.
    pub(crate) fn place(&self, word: &str) -> u32
        ensures { result ≡ place (words_view self.now) word.now }
    {
        match self.places.get(word) {
            Some(place) => number(*place),
            None => number(self.words.len()),
        }
    }
}
