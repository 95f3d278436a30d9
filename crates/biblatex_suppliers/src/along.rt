//! What entries inherit, found for each after those that it refers to.

ghost use Rattle.std.specs.Prelude.{◌≡◌, ◌<◌, ℕ, length, slice_get, None, IfOk, IfErr, MatchOption};
ghost use Rattle.reference_graph.specs.References.{lists, references_of};
ghost use Rattle.reference_graph.specs.Order.{IsOrder};
ghost use Rattle.biblatex_inheritance.specs.Resolved.{Table, offers};
ghost use Rattle.biblatex_inheritance.specs.Solution.{Solves, IsFirst, NoneIsCircular, fault_at};
ghost use Rattle.biblatex_suppliers.specs.Suppliers.{seen, fault_of};
ghost use Rattle.biblatex_suppliers.specs.Seen.{AreSupplied, AreSuppliedAt, AreAllSupplied, IsSeen, IsRefusedBySolutions};
ghost use Rattle.biblatex_suppliers.specs.Written.{written_view};

use crate::dates::dates_for;
use crate::passing::suppliers_for;
use crate::shared::Written;
use crate::supplier::Supplies;
use crate::written::role_at;
use biblatex_entries::Role;
use biblatex_inheritance::{DateFault, Dated, ResolveError};
use reference_graph::reference_order;
use std::alloc::{AllocError, Global};

/// What each entry inherits. `references[i]` are the numbers of the entries that the entry `i` refers to, in their order; a number that is
/// no entry's is passed over. No value is copied, and for each entry at most 42 fields are noted.
///
/// # Errors
/// Those of `biblatex_inheritance::resolve`.
pub fn all_supplies(
    alloc: Global,
    entries: &Written,
    references: &[Vec<usize>],
) -> Result<Vec<Supplies>, ResolveError>
    requires { length references.now ≡ length (written_view entries.now) }
    // What is seen of each entry is what it resolves to, where others ask for it.
    ensures seen { IfOk result (λ v. (see : ℕ → Table)
        → Solves (written_view entries.now) (lists references.now) see
        → IsSeen (written_view entries.now) see v.items) }
    // No entry that needs a date has a reference whose date cannot be read.
    ensures readable { IfOk result (λ v. (see : ℕ → Table)
        → Solves (written_view entries.now) (lists references.now) see → (i : ℕ)
        → i < length (written_view entries.now)
        → fault_at (written_view entries.now) (lists references.now) see i ≡ None) }
    // No entry reaches itself.
    ensures acyclic { IfOk result (λ v. NoneIsCircular (lists references.now)) }
    // What is refused, and why.
    ensures refused { IfErr result
        (IsRefusedBySolutions (written_view entries.now) (lists references.now)) }
{
    let order = reference_order(alloc, references)?;
    if let Some(number) = order.first_circular() {
        return Err(ResolveError::ReferenceCycle(number));
    }
    let supplies = supplies_along(alloc, entries, references, order.order())?;
    match first_unreadable(&supplies) {
        Some(fault) => Err(ResolveError::UnreadableDate(fault)),
        None => Ok(supplies),
    }
}

/// The fault of the first entry that has one.
fn first_unreadable(supplies: &[Supplies]) -> Option<DateFault>
    ensures { MatchOption result ((i : ℕ) → i < length supplies.now
        → fault_of (slice_get supplies.now i) ≡ None)
        (IsFirst (λ i. fault_of (slice_get supplies.now i))) }
{
    for known in supplies {
        if known.dated.fault.is_some() {
            return known.dated.fault;
        }
    }
    None
}

/// What each entry inherits, found in an order in which each stands after all that it refers to.
fn supplies_along(
    alloc: Global,
    entries: &Written,
    references: &[Vec<usize>],
    order: &[usize],
) -> Result<Vec<Supplies>, AllocError>
    requires same { length references.now ≡ length (written_view entries.now) }
    requires order { IsOrder (lists references.now) order.now }
    requires none { NoneIsCircular (lists references.now) }
    ensures { IfOk result (λ v.
        AreAllSupplied (written_view entries.now) (lists references.now) v.items) }
{
    let mut supplies = nothing_supplied(alloc, entries.len())?;
    for &number in order {
        supplies[number] = supplies_at(alloc, entries, &supplies, references, number)?;
    }
    Ok(supplies)
}

/// So many entries that inherit nothing.
fn nothing_supplied(alloc: Global, count: usize) -> Result<Vec<Supplies>, AllocError>
    ensures { IfOk result (λ v. length v.items ≡ count) }
{
    let mut supplies = Vec::with_capacity(alloc, count)?;
    for _ in 0..count {
        supplies.push(nothing(alloc))?;
    }
    Ok(supplies)
}

/// What an entry inherits that inherits nothing.
fn nothing(alloc: Global) -> Supplies {
    Supplies {
        suppliers: Vec::new(alloc),
        dated: Dated {
            date: None,
            fault: None,
        },
    }
}

/// What the entry of a number inherits, if there is one, by what those inherit that it refers to.
fn supplies_at(
    alloc: Global,
    entries: &Written,
    supplies: &[Supplies],
    references: &[Vec<usize>],
    number: usize,
) -> Result<Supplies, AllocError>
    requires { number < length references.now }
    ensures { IfOk result (AreSuppliedAt (written_view entries.now)
        (offers (written_view entries.now) (seen (written_view entries.now) supplies.now)
        (references_of (lists references.now) number))
        (slice_get (written_view entries.now) number)) }
{
    match role_at(entries, number) {
        Some(role) => supplies_for(
            alloc,
            role,
            entries,
            supplies,
            references[number].as_slice(),
        ),
        None => Ok(nothing(alloc)),
    }
}

/// What an entry of the role inherits from these references.
fn supplies_for(
    alloc: Global,
    role: Role,
    entries: &Written,
    supplies: &[Supplies],
    references: &[usize],
) -> Result<Supplies, AllocError>
    ensures { IfOk result (AreSupplied (written_view entries.now) role
        (offers (written_view entries.now) (seen (written_view entries.now) supplies.now)
        references.now)) }
{
    let dated = dates_for(alloc, role, entries, supplies, references)?;
    let suppliers = suppliers_for(alloc, role, entries, supplies, references)?;
    Ok(Supplies { suppliers, dated })
}
