//! Sets of entries, by their indices.

ghost use Rattle.std.specs.Prelude.{◌≡◌, ℕ, true, ◌==◌, not, if◌then◌else◌, IfOk, OnOk};
ghost use Rattle.std.specs.BTreeSet.{contains};
ghost use Rattle.std.specs.Ordering.{nat_cmp};

use std::alloc::AllocError;
use std::collections::BTreeSet;

/// Adds an entry, and says whether it is new.
pub(crate) fn insert_entry(entries: &mut BTreeSet<usize>, entry: usize) -> Result<bool, AllocError>
    ensures added { IfOk result (λ added. added ≡ not (contains nat_cmp entries.old entry)) }
    ensures entries { OnOk result ((e : ℕ) → contains nat_cmp entries.new e
        ≡ (if entry == e then true else contains nat_cmp entries.old e)) }
{
    let added = entries.insert(entry)?;
    Ok(added)
}
