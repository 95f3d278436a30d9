//! The order of cited entries, and their numbers.

ghost use Rattle.std.specs.Prelude.{◌≡◌, ◌+◌, ◌++◌, ◌^◌, ◌<◌, All, Ok, Err, filter, fold, map, nat_eq, length, if◌then◌else◌, IfOk, OnOk};
ghost use Rattle.std.specs.List.{range_with_len};
ghost use Rattle.laws.specs.Results.{Gives};
ghost use Rattle.rendering_style.specs.StyleViews.{style_view};
ghost use Rattle.driver_requests.specs.CitedEntries.{once};
ghost use Rattle.driver_requests.specs.Errors.{overflow, overflow_of};
ghost use Rattle.driver_requests.specs.Order.{is_index_in, number_in, numbers_overflow, ordered};
ghost use Rattle.driver_requests.specs.Indices.{AreMarked, put_last};

use crate::error::DriverError;
use rendering_style::Style;
use std::alloc::{AllocError, Global};

/// The greatest number that is printed.
const GREATEST_NUMBER: usize = 2_147_483_647;

/// The order of so many cited entries, by their indices: in a style with a bibliography the wanted ones come first.
///
/// # Errors
/// Out of memory.
pub fn ordered(
    alloc: Global,
    style: &Style,
    wanted: &[usize],
    count: usize,
) -> Result<Vec<usize>, AllocError>
    ensures order { IfOk result (λ v. v.items
        ≡ ordered (style_view style.now).bibliography wanted.now (range_with_len 0 count)) }
    ensures length { IfOk result (λ v. length v.items ≡ count) }
    ensures within { IfOk result (λ v. All (λ p. p < count) v.items) }
{
    match &style.parts().bibliography {
        Some(_) => wanted_first(alloc, wanted, count),
        None => all_indices(alloc, count),
    }
}

/// The numbers of entries, from zero, by their indices. They follow the order after an offset.
///
/// # Errors
/// `Overflow` where the last number, as it is printed, is too large; `Memory` where a request for memory was refused.
pub fn numbers(alloc: Global, offset: usize, order: &[usize]) -> Result<Vec<usize>, DriverError>
    requires { All (λ p. p < length order.now) order.now }
    ensures { Gives overflow_of (λ v. v.items) result (if numbers_overflow offset order.now
        then Err overflow
        else Ok (map (number_in offset order.now) (range_with_len 0 (length order.now)))) }
{
    let count = order.len();
    if count > GREATEST_NUMBER || offset > GREATEST_NUMBER - count {
        return Err(DriverError::Overflow);
    }
    Ok(numbered(alloc, offset, order)?)
}

/// The numbers of entries, where they are not too large.
fn numbered(alloc: Global, offset: usize, order: &[usize]) -> Result<Vec<usize>, AllocError>
    requires small { offset + length order.now < 2 ^ 31 }
    requires indices { All (λ p. p < length order.now) order.now }
    ensures { IfOk result (λ v. v.items
        ≡ map (number_in offset order.now) (range_with_len 0 (length order.now))) }
{
    let mut numbers = vec![in alloc; offset + order.len(); order.len()]?;
    for i in (0..order.len()).rev() {
        numbers[order[i]] = offset + i;
    }
    Ok(numbers)
}

/// The indices below the count, in order.
fn all_indices(alloc: Global, count: usize) -> Result<Vec<usize>, AllocError>
    ensures { IfOk result (λ v. v.items ≡ range_with_len 0 count) }
{
    let mut indices = Vec::with_capacity(alloc, count)?;
    for index in 0..count {
        indices.push(index)?;
    }
    Ok(indices)
}

/// The wanted ones of so many indices, then the others, each once.
fn wanted_first(alloc: Global, wanted: &[usize], count: usize) -> Result<Vec<usize>, AllocError>
    ensures { IfOk result (λ v. v.items ≡ once nat_eq
        (filter (is_index_in (range_with_len 0 count)) wanted.now ++ range_with_len 0 count)) }
{
    let mut stands = vec![in alloc; false; count]?;
    let mut order = Vec::with_capacity(alloc, count)?;
    put_each(&mut order, &mut stands, wanted)?;
    put_rest(&mut order, &mut stands)?;
    Ok(order)
}

/// Appends those of the indices that are below the count, each once.
fn put_each(
    order: &mut Vec<usize>,
    stands: &mut [bool],
    indices: &[usize],
) -> Result<(), AllocError>
    requires { AreMarked stands.old order.old.items }
    ensures stands { OnOk result (AreMarked stands.new order.new.items) }
    ensures order { OnOk result (order.new.items
        ≡ fold (put_last (length stands.old)) order.old.items indices.now) }
{
    for index in indices {
        put_last(order, stands, *index)?;
    }
    Ok(())
}

/// Appends the indices below the count that are not there yet.
fn put_rest(order: &mut Vec<usize>, stands: &mut [bool]) -> Result<(), AllocError>
    requires { AreMarked stands.old order.old.items }
    ensures { OnOk result (order.new.items ≡ fold (put_last (length stands.old)) order.old.items
        (range_with_len 0 (length stands.old))) }
{
    for index in 0..stands.len() {
        put_last(order, stands, index)?;
    }
    Ok(())
}

/// Appends an index that is below the count, unless it is there already.
fn put_last(order: &mut Vec<usize>, stands: &mut [bool], index: usize) -> Result<(), AllocError>
    requires { AreMarked stands.old order.old.items }
    ensures stands { OnOk result (AreMarked stands.new order.new.items) }
    ensures order { OnOk result (order.new.items
        ≡ put_last (length stands.old) order.old.items index) }
    ensures len { length stands.new ≡ length stands.old }
{
    if index < stands.len() && !stands[index] {
        stands[index] = true;
        order.push(index)?;
    }
    Ok(())
}
