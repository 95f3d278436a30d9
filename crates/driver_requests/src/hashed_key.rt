//! Entries by their hashes and keys.

ghost use Rattle.std.specs.Prelude.{◌≡◌};
ghost use Rattle.std.specs.Cow.{cow_str_bytes};
ghost use Rattle.hashes.specs.Hashes.{hash_of};

use hashes::hash_of;
use rendering_entries::EntryLike;
use std::alloc::Global;
use std::borrow::CowStr;
use std::hash::Hash;

/// The hash of an entry, by which most entries are compared, and its key.
#[derive(PartialEq, Eq, PartialOrd, Ord, Drop)]
pub(crate) struct HashedKey<'a> {
    hash: u64,
    key: CowStr<'a, Global>,
}

impl<'a> HashedKey<'a> {
    /// The hash and the key of an entry.
    pub(crate) fn new<T: EntryLike + Hash>(entry: &'a T) -> HashedKey<'a>
        ensures hash { result.hash ≡ hash_of (T.hash_input entry.now) }
        ensures key { cow_str_bytes result.key ≡ (T.answers entry.now).key }
    {
        HashedKey {
            hash: hash_of(entry),
            key: entry.key(),
        }
    }
}
