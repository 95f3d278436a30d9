//! The dates of a file that cannot be read.

ghost use Rattle.std.specs.Prelude.{◌≡◌, ◌++◌, ◌∷◌, [], List, map, IfOk, OnOk, string_bytes};
ghost use Rattle.biblatex_entries.specs.Entries.{Source, source_view, sources_view};
ghost use Rattle.interop_values.specs.Values.{values};
ghost use Rattle.interop.specs.Bridge.{faults_of};
ghost use Rattle.interop.specs.Library.{all_faults, all_works, put_after, library_of};
ghost use Rattle.interop.specs.Views.{fault_view, refusal_of};
ghost use Rattle.laws.specs.Results.{Gives};

use crate::bridge::{is_xdata, push_all};
use crate::dates::read_dates;
use crate::error::{BridgeError, FieldFault};
use biblatex::Bibliography;
use biblatex_entries::Entry as SourceEntry;
use std::alloc::{AllocError, Global};

/// Reads the dates of a file, and nothing else of it: what `from_biblatex` refuses is refused, with the same faults.
///
/// # Errors
/// Those of `from_biblatex`.
pub fn check_dates(alloc: Global, bibliography: &Bibliography) -> Result<(), BridgeError>
    ensures { Gives refusal_of (λ _. put_after [] (all_works bibliography.now.entries)) result
        (library_of bibliography.now.entries) }
{
    let faults = date_faults(alloc, bibliography.entries())?;
    if faults.is_empty() {
        return Ok(());
    }
    Err(BridgeError::Fields(faults))
}

/// The faults of the dates of works, in order.
fn date_faults(alloc: Global, entries: &[SourceEntry]) -> Result<Vec<FieldFault>, AllocError>
    ensures { IfOk result (λ v. map fault_view v.items ≡ all_faults (sources_view entries.now)) }
{
    let mut faults = Vec::new(alloc);
    for read in entries {
        push_work_faults(alloc, &mut faults, read)?;
    }
    Ok(faults)
}

/// Appends the faults of an entry's dates, unless the entry only lends its fields.
pub fn push_work_faults(
    alloc: Global,
    faults: &mut Vec<FieldFault>,
    read: &SourceEntry,
) -> Result<(), AllocError>
    // The faults of the entries after it stand after its own.
    ensures { OnOk result ((rest : List Source) → map fault_view faults.new.items ++ all_faults rest
        ≡ map fault_view faults.old.items ++ all_faults (source_view read.now ∷ rest)) }
{
    if is_xdata(&read.entry_type) {
        return Ok(());
    }
    push_date_faults(alloc, faults, read)
}

/// Appends the faults of an entry's dates.
fn push_date_faults(
    alloc: Global,
    faults: &mut Vec<FieldFault>,
    read: &SourceEntry,
) -> Result<(), AllocError>
    ensures { OnOk result (map fault_view faults.new.items ≡ map fault_view faults.old.items
        ++ faults_of (string_bytes read.now.key) (values read.now.fields)) }
{
    match read_dates(alloc, read.key.as_str(), &read.fields) {
        Ok(_) => Ok(()),
        Err(BridgeError::Fields(found)) => push_all(faults, found),
        Err(BridgeError::Memory) => Err(AllocError),
    }
}
