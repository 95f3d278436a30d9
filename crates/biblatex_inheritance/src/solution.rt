//! Resolving entries, each after those that it refers to.

ghost use Rattle.std.specs.Prelude.{◌≡◌, ◌<◌, ℕ, List, length, slice_get, Contains, Some, None, IfOk, IfErr, MatchOption};
ghost use Rattle.reference_graph.specs.References.{lists};
ghost use Rattle.reference_graph.specs.Order.{IsOrder};
ghost use Rattle.biblatex_entries.specs.Entries.{sources_view, HaveJoinedFields};
ghost use Rattle.biblatex_inheritance.specs.Views.{offers_in};
ghost use Rattle.biblatex_inheritance.specs.Solution.{Solves, tables_view, fault_at, HaveSameHeads, AreOrdered, AreResolved, IsFirstFault, IsOnly, IsRefusedAs, IsResolvedAt, NoneIsCircular};

use crate::error::{DateFault, ResolveError};
use crate::inherit::inherit;
use biblatex_entries::Entry;
use biblatex_fields::Fields;
use reference_graph::reference_order;
use std::alloc::{AllocError, Global};
use std::mem;

/// Entries with their references resolved.
#[derive(Drop)]
pub struct Resolution {
    /// The entries, each at its index.
    pub entries: Vec<Entry>,
    /// How many times an entry was made from its fields and its references.
    pub count: usize,
}

/// The fault of each entry, and how many entries were made.
#[derive(Drop)]
struct Faults {
    faults: Vec<Option<DateFault>>,
    count: usize,
}

/// Resolves entries where they stand. `references[i]` are the numbers of the entries that the entry `i` refers to, in their order; a
/// number that is no entry's is passed over.
///
/// # Errors
/// `ReferenceCycle` with the first entry that reaches itself, else `UnreadableDate` with the first reference whose date cannot be
/// read of the first entry that needs a date and has one; `Memory` where a request for memory was refused.
pub fn resolve(
    alloc: Global,
    entries: Vec<Entry>,
    references: &[Vec<usize>],
) -> Result<Resolution, ResolveError>
    requires { length references.now ≡ length entries.items }
    // Each entry keeps its index, its key and its type.
    ensures heads { IfOk result (λ r. HaveSameHeads entries.items r.entries.items) }
    // The fields of each entry are what it resolves to, with its references as they are resolved.
    ensures equation { IfOk result (λ r.
        Solves (sources_view entries.items) (lists references.now) (tables_view r.entries.items)) }
    // Nothing else is a solution of this equation.
    ensures only { IfOk result (λ r.
        IsOnly (sources_view entries.items) (lists references.now) (tables_view r.entries.items)) }
    // No entry that needs a date has a reference whose date cannot be read.
    ensures readable { IfOk result (λ r. (i : ℕ) → i < length entries.items
        → fault_at (sources_view entries.items) (lists references.now)
        (tables_view r.entries.items) i ≡ None) }
    // The fields of each entry stand in the order of their names.
    ensures ordered { IfOk result (λ r. AreOrdered r.entries.items) }
    // Where the chunks of all fields are joined, they still are.
    ensures joined { IfOk result (λ r. HaveJoinedFields (sources_view entries.items)
        → HaveJoinedFields (sources_view r.entries.items)) }
    // No entry reaches itself.
    ensures acyclic { IfOk result (λ r. NoneIsCircular (lists references.now)) }
    // Each entry was made once.
    ensures count { IfOk result (λ r. r.count ≡ length entries.items) }
    // What is refused, and why.
    ensures refused { IfErr result
        (IsRefusedAs (sources_view entries.items) (lists references.now)) }
{
    let order = reference_order(alloc, references)?;
    if let Some(number) = order.first_circular() {
        return Err(ResolveError::ReferenceCycle(number));
    }
    let mut entries = entries;
    let Faults { faults, count } = resolve_all(alloc, &mut entries, references, order.order())?;
    match first_fault(&faults) {
        Some(fault) => Err(ResolveError::UnreadableDate(fault)),
        None => Ok(Resolution { entries, count }),
    }
}

/// The fault of the first entry that has one.
fn first_fault(faults: &[Option<DateFault>]) -> Option<DateFault>
    ensures { MatchOption result ((i : ℕ) → i < length faults.now
        → slice_get faults.now i ≡ Some None) (λ f. IsFirstFault faults.now f) }
{
    for &fault in faults {
        if fault.is_some() {
            return fault;
        }
    }
    None
}

/// Resolves all entries in an order in which each stands after all that it refers to. Returns the fault of each entry.
fn resolve_all(
    alloc: Global,
    entries: &mut Vec<Entry>,
    references: &[Vec<usize>],
    order: &[usize],
) -> Result<Faults, AllocError>
    requires same { length references.now ≡ length entries.old.items }
    requires order { IsOrder (lists references.now) order.now }
    requires none { NoneIsCircular (lists references.now) }
    ensures resolved { IfOk result (λ f.
        AreResolved entries.old.items entries.new.items (lists references.now) f.faults.items) }
    ensures count { IfOk result (λ f. f.count ≡ length order.now) }
{
    let mut faults = no_faults(alloc, references.len())?;
    let mut count = 0;
    for &number in order {
        faults[number] = resolve_one(alloc, entries, number, references[number].as_slice())?;
        count += 1;
    }
    Ok(Faults { faults, count })
}

/// A list of `count` entries that have no fault.
fn no_faults(alloc: Global, count: usize) -> Result<Vec<Option<DateFault>>, AllocError>
    ensures { IfOk result (λ v. length v.items ≡ count) }
{
    let mut faults = Vec::new(alloc);
    faults.resize(count, None)?;
    Ok(faults)
}

/// Resolves the entry of that number, whose references are resolved. Returns the fault of its first reference whose date
/// cannot be read, where it needs one.
pub(crate) fn resolve_one(
    alloc: Global,
    entries: &mut Vec<Entry>,
    number: usize,
    references: &[usize],
) -> Result<Option<DateFault>, AllocError>
    requires there { number < length entries.old.items }
    requires other { Contains references.now number → ⊥ }
    ensures { IfOk result (λ fault. IsResolvedAt entries.old.items entries.new.items number
        (offers_in entries.old.items references.now) fault) }
{
    let role = entries[number].entry_type.role();
    let mut fields = mem::replace(&mut entries[number].fields, Fields::new(alloc));
    let fault = inherit(alloc, role, &mut fields, references, entries)?;
    entries[number].fields = fields;
    Ok(fault)
}
