//! Keys that are the same: the first of them, and how many they are.

ghost use Rattle.std.specs.Prelude.{◌≡◌, ◌+◌, ◌<◌, ◌^◌, List, [], ◌∷◌, ◌++◌, length, map, count_by, if◌then◌else◌, IfOk, OnOk};
ghost use Rattle.std.specs.List.{position_or_len};
ghost use Rattle.driver_names.specs.Keys.{IsIndex, IsTally, counted, tallied};

use std::alloc::{AllocError, Global};
use std::collections::BTreeMap;

/// How many keys are compared with one another, which costs less than a table of them.
const FEW_KEYS: usize = 8;

/// How often each key occurs.
#[derive(Drop)]
pub(crate) enum Tally<K: Ord> {
    /// Few keys.
    Few(Vec<K>),
    /// The number of each of many keys.
    Many(BTreeMap<K, usize>),
}

impl<K: Ord + Copy> Tally<K> {
    /// Counts keys.
    pub(crate) fn new(alloc: Global, keys: &[K]) -> Result<Tally<K>, AllocError>
        ensures { IfOk result (λ t. IsTally K.eq t keys.now) }
    {
        if keys.len() <= FEW_KEYS {
            Ok(Tally::Few(copies(alloc, keys)?))
        } else {
            Ok(Tally::Many(counts_of(alloc, keys)?))
        }
    }

    /// How often a key occurs.
    pub(crate) fn count(&self, key: &K) -> usize
        ensures { result ≡ tallied K.eq self.now key.now }
    {
        match self {
            Tally::Few(keys) => keys.iter().filter(|other| key == *other).count(),
            Tally::Many(counts) => counts.get(key).copied().unwrap_or(0),
        }
    }
}

/// A copy of the keys.
fn copies<K: Copy>(alloc: Global, keys: &[K]) -> Result<Vec<K>, AllocError>
    ensures { IfOk result (λ v. v.items ≡ keys.now) }
{
    let mut copies = Vec::with_capacity(alloc, keys.len())?;
    for key in keys {
        copies.push(*key)?;
    }
    Ok(copies)
}

/// The number of each key.
fn counts_of<K: Ord + Copy>(alloc: Global, keys: &[K]) -> Result<BTreeMap<K, usize>, AllocError>
    ensures { IfOk result (λ m. (q : K) → counted K.eq m q ≡ count_by (K.eq q) keys.now) }
{
    let mut counts = BTreeMap::new(alloc);
    for key in keys {
        count_one(&mut counts, *key)?;
    }
    Ok(counts)
}

fn count_one<K: Ord + Copy>(counts: &mut BTreeMap<K, usize>, key: K) -> Result<(), AllocError>
    requires { counted K.eq counts.old key + 1 < 2 ^ 64 }
    ensures { OnOk result ((q : K)
        → counted K.eq counts.new q ≡ counted K.eq counts.old q + (if K.eq key q then 1 else 0)) }
{
    let count = counts.get(&key).copied().unwrap_or(0);
    counts.insert(key, count + 1)?;
    Ok(())
}

/// For each key the index of the first one that is the same.
pub(crate) fn firsts<K: Ord>(alloc: Global, keys: &[K]) -> Result<Vec<usize>, AllocError>
    ensures { IfOk result (λ v. v.items ≡ map (λ k. position_or_len (K.eq k) keys.now) keys.now) }
{
    if keys.len() <= FEW_KEYS {
        firsts_of_few(alloc, keys)
    } else {
        firsts_of_many(alloc, keys)
    }
}

/// What `firsts` returns, by comparing keys with one another, which is cheaper for few keys.
fn firsts_of_few<K: Eq>(alloc: Global, keys: &[K]) -> Result<Vec<usize>, AllocError>
    ensures { IfOk result (λ v. v.items ≡ map (λ k. position_or_len (K.eq k) keys.now) keys.now) }
{
    let mut firsts = Vec::with_capacity(alloc, keys.len())?;
    for key in keys {
        firsts.push(first_among(keys, key))?;
    }
    Ok(firsts)
}

/// The index of the first of some keys that is the same as a key; without one, how many they are.
fn first_among<K: Eq>(keys: &[K], key: &K) -> usize
    ensures { result ≡ position_or_len (K.eq key.now) keys.now }
{
    for (index, other) in keys.iter().enumerate() {
        if key == other {
            return index;
        }
    }
    keys.len()
}

/// What `firsts` returns, by a table of the keys that came earlier.
fn firsts_of_many<K: Ord>(alloc: Global, keys: &[K]) -> Result<Vec<usize>, AllocError>
    ensures { IfOk result (λ v. v.items ≡ map (λ k. position_or_len (K.eq k) keys.now) keys.now) }
{
    let mut table = BTreeMap::new(alloc);
    let mut firsts = Vec::with_capacity(alloc, keys.len())?;
    for (index, key) in keys.iter().enumerate() {
        firsts.push(first_of(&mut table, index, key)?)?;
    }
    Ok(firsts)
}

/// The index of the first key that is the same. A new key is the first, at its own index.
fn first_of<'k, K: Ord>(
    table: &mut BTreeMap<&'k K, usize>,
    index: usize,
    key: &'k K,
) -> Result<usize, AllocError>
    ensures table { OnOk result ((earlier : List K) → length earlier ≡ index
        → IsIndex K.eq table.old earlier → IsIndex K.eq table.new (earlier ++ key.now ∷ [])) }
    ensures first { IfOk result (λ n. (earlier : List K)
        → length earlier ≡ index → IsIndex K.eq table.old earlier
        → n ≡ position_or_len (K.eq key.now) (earlier ++ key.now ∷ [])) }
{
    if let Some(first) = table.get(&key) {
        return Ok(*first);
    }
    table.insert(key, index)?;
    Ok(index)
}
