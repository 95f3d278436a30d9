//! The numbers of cited entries.

ghost use Rattle.std.specs.Prelude.{◌≡◌, ◌<◌, All, get_or, length, map, IfOk};
ghost use Rattle.std.specs.List.{range_with_len};
ghost use Rattle.laws.specs.Borrowed.{borrowed};
ghost use Rattle.driver_requests.specs.EntryKeys.{IsIndex, has_key};
ghost use Rattle.driver_requests.specs.Order.{number_in};
ghost use Rattle.driver_order.specs.Keyed.{number_by};

use driver_requests::Cited;
use rendering_entries::EntryLike;
use std::alloc::{AllocError, Global};
use std::hash::Hash;

/// The positions of indices in their order, each at its index.
pub(crate) fn positions(alloc: Global, order: &[usize]) -> Result<Vec<usize>, AllocError>
    requires { All (λ p. p < length order.now) order.now }
    ensures { IfOk result (λ v. v.items
        ≡ map (number_in 0 order.now) (range_with_len 0 (length order.now))) }
{
    let mut positions = vec![in alloc; order.len(); order.len()]?;
    for position in (0..order.len()).rev() {
        positions[order[position]] = position;
    }
    Ok(positions)
}

/// Cited entries, and the number of each.
#[derive(Drop)]
pub(crate) struct Numbers<'n, 'a, T: EntryLike + Hash> {
    pub(crate) cited: &'n Cited<'a, T>,
    pub(crate) numbers: &'n [usize],
}

impl<'n, 'a, T: EntryLike + Hash> Numbers<'n, 'a, T> {
    /// The number of an entry; of one that is not cited, how many are.
    pub(crate) fn number(&self, entry: &'a T) -> usize
        requires { IsIndex (has_key T.hash_input T.answers) self.now.cited.now.table
            (borrowed self.now.cited.now.entries.items) }
        ensures { result ≡ number_by T.eq (borrowed self.now.cited.now.entries.items)
            self.now.numbers.now entry.now }
    {
        match self.cited.index(entry) {
            Some(index) => number_at(self.numbers, index),
            None => self.numbers.len(),
        }
    }
}

/// The number at an index, or how many there are.
fn number_at(numbers: &[usize], index: usize) -> usize
    ensures { result ≡ get_or numbers.now index (length numbers.now) }
{
    match numbers.get(index) {
        Some(number) => *number,
        None => numbers.len(),
    }
}
