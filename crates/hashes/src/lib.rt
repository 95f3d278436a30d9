//! The hash of a value, and the numbers of texts, which are found by their hashes.
#![tactic(auto)]

ghost use Rattle.std.specs.Prelude.{◌≡◌};
ghost use Rattle.hashes.specs.Hashes.{hash_of};

mod text_index;

use std::hash::{FoldHasher, Hash, Hasher};
pub use text_index::TextIndex;

/// The hash of a value, as the kit's maps hash their keys. Equal values have one hash. The seed is fixed, so that whoever chooses values can
/// choose as many of one hash as they like: a table by it may take no more than the first of each hash.
pub fn hash_of<T: Hash>(value: &T) -> u64
    ensures { result ≡ hash_of (T.hash_input value.now) }
{
    let mut state = FoldHasher::default();
    value.hash(&mut state);
    state.finish()
}
