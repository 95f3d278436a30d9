//! The indices of entries in two files, and whether these stand in one order.

ghost use Rattle.std.specs.Prelude.{◌≡◌, ◌↔◌, ◌++◌, ◌∷◌, [], map, IfOk, IsPermutation, IsSorted, IsTrue, OnOk};
ghost use Rattle.std.specs.List.Sorted.{IsNonDecreasingBy};
ghost use Rattle.biblatex.specs.Bibliographies.{listed_view};
ghost use Rattle.cite_uses.specs.Alike.{indices_of, now_of};
ghost use Rattle.cite_uses.specs.AlikePairs.{by_both};

use biblatex::Bibliography;
use std::alloc::{AllocError, Global};

/// The indices of the entries that names mean in both files, sorted.
pub(crate) fn sorted_indices(
    alloc: Global,
    names: &[&str],
    file: &Bibliography,
    other: &Bibliography,
) -> Result<Vec<(usize, usize)>, AllocError>
    ensures same { IfOk result (λ found. IsPermutation
        (indices_of (listed_view file.now) (listed_view other.now) (map now_of names.now))
        found.items) }
    ensures sorted { IfOk result (λ found. IsSorted by_both found.items) }
{
    let mut indices = indices(alloc, names, file, other)?;
    indices.sort()?;
    Ok(indices)
}

/// The indices of the entries that names mean in both files.
fn indices(
    alloc: Global,
    names: &[&str],
    file: &Bibliography,
    other: &Bibliography,
) -> Result<Vec<(usize, usize)>, AllocError>
    ensures { IfOk result (λ found. found.items
        ≡ indices_of (listed_view file.now) (listed_view other.now) (map now_of names.now)) }
{
    let mut found = Vec::new(alloc);
    for name in names {
        push_indices(*name, file, other, &mut found)?;
    }
    Ok(found)
}

/// Adds the indices of the entries that a name means, where it means one in both files.
fn push_indices(
    name: &str,
    file: &Bibliography,
    other: &Bibliography,
    found: &mut Vec<(usize, usize)>,
) -> Result<(), AllocError>
    ensures { OnOk result (found.new.items ≡ found.old.items
        ++ indices_of (listed_view file.now) (listed_view other.now) (name.now ∷ [])) }
{
    if let Some(index) = file.index(name) {
        if let Some(other_index) = other.index(name) {
            found.push((index, other_index))?;
        }
    }
    Ok(())
}

/// Whether no second index is less than the one before it.
pub(crate) fn rise(indices: &[(usize, usize)]) -> bool
    ensures { IsTrue result ↔ IsNonDecreasingBy (λ p. p.1) indices.now }
{
    let mut last = 0;
    for pair in indices {
        if pair.1 < last {
            return false;
        }
        last = pair.1;
    }
    true
}
