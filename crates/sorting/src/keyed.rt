//! Values with keys.

ghost use Rattle.std.specs.Prelude.{◌≡◌, map, IfOk, OnOk};
ghost use Rattle.sorting.specs.Keyed.{by_key, value_of};
ghost use Rattle.sorting.specs.Sorted.{sorted};

use std::alloc::{AllocError, Global};
use std::cmp::Ordering;

/// A value, and the key by which it is sorted.
#[derive(Debug, Drop)]
pub struct Keyed<K, X> {
    pub key: K,
    pub value: X,
}

/// The values, sorted by their keys. Values with equal keys stay in their order.
///
/// # Errors
/// Out of memory.
pub fn sorted_by_keys<K: Ord + Drop, X: Drop>(
    alloc: Global,
    mut items: Vec<Keyed<K, X>>,
) -> Result<Vec<X>, AllocError>
    ensures { IfOk result (λ v. v.items ≡ map value_of (sorted (by_key K.cmp) items.items)) }
{
    sort(&mut items)?;
    values(alloc, items)
}

/// Sorts values by their keys.
fn sort<K: Ord, X>(items: &mut Vec<Keyed<K, X>>) -> Result<(), AllocError>
    ensures { OnOk result (items.new.items ≡ sorted (by_key K.cmp) items.old.items) }
{
    items.sort_by(
        |a: &Keyed<K, X>, b: &Keyed<K, X>| -> Ordering
            ensures { result ≡ K.cmp a.now.key b.now.key }
        { a.key.cmp(&b.key) },
    )?;
    Ok(())
}

/// The values without their keys.
fn values<K: Drop, X: Drop>(alloc: Global, items: Vec<Keyed<K, X>>) -> Result<Vec<X>, AllocError>
    ensures { IfOk result (λ v. v.items ≡ map value_of items.items) }
{
    let mut values = Vec::with_capacity(alloc, items.len())?;
    for item in items {
        let Keyed { key: _, value } = item;
        values.push(value)?;
    }
    Ok(values)
}
