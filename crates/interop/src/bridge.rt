//! Entries of a file as entries of a library.

ghost use Rattle.std.specs.Prelude.{◌≡◌, ◌++◌, ◌∷◌, [], List, map, IfOk, OnOk, string_bytes, codes};
ghost use Rattle.std.specs.Option.{option_map};
ghost use Rattle.biblatex_entries.specs.Entries.{Source, source_view, sources_view};
ghost use Rattle.biblatex_entries.specs.TypeNames.{type_name, written_type};
ghost use Rattle.biblatex_content.specs.Views.{styled};
ghost use Rattle.literature.specs.Keys.{AreDistinct};
ghost use Rattle.literature_entries.specs.Views as views;
ghost use Rattle.interop_values.specs.Values.{values};
ghost use Rattle.interop.specs.Kinds.{row_of};
ghost use Rattle.literature_values.specs.declared.entry_type.EntryType.TheVariants as works;
ghost use Rattle.literature_entries.specs.EntriesData.{Holding, wholes, entry_view};
ghost use Rattle.interop.specs.Fields.{container_fields};
ghost use Rattle.interop.specs.Bridge.{bridged, unless_faulty, work_of, container_of, further, titled_under};
ghost use Rattle.interop.specs.Library.{is_xdata, all_faults, all_works, put_after, library_of, IsPut, AreAlike};
ghost use Rattle.interop.specs.Views.{container_view, dates_of, library_view, fault_view, row_view, IsBare, lent_sources_view, refusal_of};
ghost use Rattle.laws.specs.Results.{Gives};

use crate::dates::{Dates, read_dates};
use crate::error::{BridgeError, FieldFault};
use crate::fields::{own_entry, set_container_fields};
use crate::kinds::{Container, row_of};
use crate::parents::{container_entry, push_further};
use biblatex::Bibliography;
use biblatex_content::{Chunk, Spanned};
use biblatex_entries::{Entry as SourceEntry, EntryType as SourceType};
use biblatex_fields::Fields;
use interop_values::value;
use literature::Library;
use literature_entries::Entry;
use literature_values::EntryType;
use std::alloc::{AllocError, Global};
use texts::owned;

/// What an entry of a file is in a library: its type, its fields and the works that it is part of, by the names under which its
/// type and its fields are written.
///
/// # Errors
/// `Fields` with all dates that cannot be read, in the order `date`, `eventdate`, `origdate`, `urldate`; `Memory` where a
/// request for memory was refused.
pub fn entry(alloc: Global, read: &SourceEntry) -> Result<Entry, BridgeError>
    ensures { Gives refusal_of entry_view result (bridged (source_view read.now)) }
{
    let dates = read_dates(alloc, read.key.as_str(), &read.fields)?;
    Ok(work(alloc, read, dates)?)
}

/// The entry of a library, whose dates have been read.
fn work(alloc: Global, read: &SourceEntry, dates: Dates) -> Result<Entry, AllocError>
    requires { dates ≡ dates_of (values read.now.fields) }
    ensures { IfOk result (λ e. entry_view e ≡ work_of (string_bytes read.now.key)
        (written_type (type_name read.now.entry_type)) (values read.now.fields)) }
{
    let fields = &read.fields;
    let row = row_of(&read.entry_type);
    let key = owned(alloc, read.key.as_str())?;
    let mut entry = own_entry(alloc, key, row.entry_type, fields, dates)?;
    match container_of(row.container, fields) {
        Some((entry_type, title)) => {
            let outer = container_entry(alloc, fields, entry_type, title)?;
            set_within(alloc, &mut entry, outer, fields, dates)?;
            Ok(entry)
        }
        None => {
            set_by_itself(alloc, &mut entry, fields, dates)?;
            Ok(entry)
        }
    }
}

/// Makes an entry one of the work that holds it.
fn set_within(
    alloc: Global,
    entry: &mut Entry,
    outer: Entry,
    fields: &Fields,
    dates: Dates,
) -> Result<(), AllocError>
    requires { dates ≡ dates_of (values fields.now) }
    ensures { OnOk result (entry_view entry.new ≡ Holding (views.key_view entry.old)
        (views.fields_view entry.old)
        (wholes (entry_view outer ∷ further [] (values fields.now)))) }
{
    let mut parents = Vec::new(alloc);
    parents.push(outer)?;
    push_further(alloc, &mut parents, fields, None, dates)?;
    entry.set_parents(parents);
    Ok(())
}

/// Makes an entry one that no other work holds.
fn set_by_itself(
    alloc: Global,
    entry: &mut Entry,
    fields: &Fields,
    dates: Dates,
) -> Result<(), AllocError>
    requires bare { IsBare (views.fields_view entry.old) }
    requires dates { dates ≡ dates_of (values fields.now) }
    ensures { OnOk result (entry_view entry.new ≡ Holding (views.key_view entry.old)
        (container_fields (values fields.now) (views.fields_view entry.old)) (wholes (further
        (titled_under works.Anthology (codes "series") (values fields.now)) (values fields.now)))) }
{
    set_container_fields(alloc, entry, fields)?;
    let parents = series_and_further(alloc, fields, dates)?;
    entry.set_parents(parents);
    Ok(())
}

/// What an entry is part of that no other work holds.
fn series_and_further(
    alloc: Global,
    fields: &Fields,
    dates: Dates,
) -> Result<Vec<Entry>, AllocError>
    requires { dates ≡ dates_of (values fields.now) }
    ensures { IfOk result (λ es. map entry_view es.items ≡ further
        (titled_under works.Anthology (codes "series") (values fields.now)) (values fields.now)) }
{
    let mut parents = Vec::new(alloc);
    push_further(alloc, &mut parents, fields, value(fields, "series"), dates)?;
    Ok(parents)
}

/// The type of the container and its title, where the title is there.
fn container_of<'f>(
    wanted: Option<Container>,
    fields: &'f Fields,
) -> Option<(EntryType, &'f [Spanned<Chunk>])>
    ensures { option_map (λ c. (c.0, styled c.1.now)) result
        ≡ container_of (option_map container_view wanted) (values fields.now) }
{
    let container = wanted?;
    let title = value(fields, container.title)?;
    Some((container.entry_type, title))
}

/// The library of a file: its entries in order; of entries with equal keys the last stands where the first did. Entries
/// of type `xdata`, which only lend their fields, are passed over with their faults.
///
/// # Errors
/// `Fields` with all dates that cannot be read, in the order of the file; `Memory` where a request for memory was
/// refused.
pub fn from_biblatex(alloc: Global, bibliography: &Bibliography) -> Result<Library, BridgeError>
    // The library of the entries, or all faults of works.
    ensures library { Gives refusal_of library_view result (library_of bibliography.now.entries) }
    // All entries with the same keys, written types and contents under written names have the same library or faults.
    ensures alike { (es : List Source) → AreAlike es bibliography.now.entries
        → Gives refusal_of library_view result (library_of es) }
{
    let mut library = Library::with_capacity(alloc, bibliography.len())?;
    let mut faults = Vec::new(alloc);
    put_all(alloc, &mut library, &mut faults, bibliography.entries())?;
    finished(library, faults)
}

/// The library of some entries of a file, as `from_biblatex` makes it of all.
///
/// # Errors
/// Those of `from_biblatex`, of these entries.
pub fn from_entries(alloc: Global, entries: &[&SourceEntry]) -> Result<Library, BridgeError>
    ensures { Gives refusal_of library_view result (library_of (lent_sources_view entries.now)) }
{
    let mut library = Library::with_capacity(alloc, entries.len())?;
    let mut faults = Vec::new(alloc);
    put_each(alloc, &mut library, &mut faults, entries)?;
    finished(library, faults)
}

/// The library, unless there are faults.
pub fn finished(library: Library, faults: Vec<FieldFault>) -> Result<Library, BridgeError>
    ensures { Gives refusal_of library_view result
        (unless_faulty (map fault_view faults.items) (library_view library)) }
{
    if faults.is_empty() {
        return Ok(library);
    }
    Err(BridgeError::Fields(faults))
}

/// Puts works into the library, or their faults after the others.
fn put_all(
    alloc: Global,
    library: &mut Library,
    faults: &mut Vec<FieldFault>,
    entries: &[SourceEntry],
) -> Result<(), AllocError>
    ensures { OnOk result
        (unless_faulty (map fault_view faults.new.items) (library_view library.new)
        ≡ unless_faulty (map fault_view faults.old.items ++ all_faults (sources_view entries.now))
        (put_after (library_view library.old) (all_works (sources_view entries.now)))) }
{
    for read in entries {
        put_work(alloc, library, faults, read)?;
    }
    Ok(())
}

/// Puts works that are borrowed one by one into the library, or their faults after the others.
fn put_each(
    alloc: Global,
    library: &mut Library,
    faults: &mut Vec<FieldFault>,
    entries: &[&SourceEntry],
) -> Result<(), AllocError>
    ensures { OnOk result
        (unless_faulty (map fault_view faults.new.items) (library_view library.new) ≡ unless_faulty
        (map fault_view faults.old.items ++ all_faults (lent_sources_view entries.now))
        (put_after (library_view library.old) (all_works (lent_sources_view entries.now)))) }
{
    for read in entries {
        put_work(alloc, library, faults, read)?;
    }
    Ok(())
}

/// Puts the work that an entry is into the library, or its faults after the others; nothing where the entry only lends
/// its fields.
pub fn put_work(
    alloc: Global,
    library: &mut Library,
    faults: &mut Vec<FieldFault>,
    read: &SourceEntry,
) -> Result<(), AllocError>
    // The entries after it make of the library and the faults what it makes of them with those after it.
    ensures { OnOk result ((rest : List Source)
        → unless_faulty (map fault_view faults.new.items ++ all_faults rest)
        (put_after (library_view library.new) (all_works rest)) ≡ unless_faulty
        (map fault_view faults.old.items ++ all_faults (source_view read.now ∷ rest))
        (put_after (library_view library.old) (all_works (source_view read.now ∷ rest)))) }
{
    if is_xdata(&read.entry_type) {
        return Ok(());
    }
    put(alloc, library, faults, read)
}

/// Whether entries of the type only lend their fields.
pub fn is_xdata(entry_type: &SourceType) -> bool
    ensures { result ≡ is_xdata (written_type (type_name entry_type.now)) }
{
    matches!(entry_type, SourceType::XData)
}

/// Puts the work that an entry is into the library, or its faults after the others.
fn put(
    alloc: Global,
    library: &mut Library,
    faults: &mut Vec<FieldFault>,
    read: &SourceEntry,
) -> Result<(), AllocError>
    ensures { OnOk result (IsPut (library_view library.old) (map fault_view faults.old.items)
        (source_view read.now) (library_view library.new) (map fault_view faults.new.items)) }
{
    match entry(alloc, read) {
        Ok(work) => library.push(work),
        Err(BridgeError::Fields(found)) => push_all(faults, found),
        Err(BridgeError::Memory) => Err(AllocError),
    }
}

/// Appends faults after others.
pub(crate) fn push_all(
    faults: &mut Vec<FieldFault>,
    found: Vec<FieldFault>,
) -> Result<(), AllocError>
    ensures { OnOk result (map fault_view faults.new.items
        ≡ map fault_view faults.old.items ++ map fault_view found.items) }
{
    for fault in found {
        faults.push(fault)?;
    }
    Ok(())
}
