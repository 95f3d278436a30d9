//! From the entries of a catalog to works. An entry that inherits something is made for the time of one step alone.

ghost use Rattle.std.specs.Prelude.{◌≡◌, ◌++◌, ◌<◌, [], List, map, length, slice_get, option_to_list, false, IfOk, OnOk};
ghost use Rattle.std.specs.Option.{unwrap_or};
ghost use Rattle.laws.specs.Results.{Gives};
ghost use Rattle.biblatex.specs.Entries.{Source};
ghost use Rattle.biblatex.specs.FieldNames.{field_name};
ghost use Rattle.interop.specs.Library.{all_faults, all_works, put_after, library_of};
ghost use Rattle.interop.specs.Views.{fault_view, library_view, refusal_of};
ghost use Rattle.cite_requests.specs.Cited.{come_to, marked_entries, marked_here, read_as_dates};

use biblatex::{Catalog, FieldName};
use interop::{BridgeError, FieldFault, finished, push_work_faults, put_work};
use literature::Library;
use std::alloc::{AllocError, Global};

/// The fields that are read as dates, and those that a date is made of.
fn read_as_dates() -> &'static [FieldName]
    ensures { map field_name result.now ≡ read_as_dates }
{
    &[
        FieldName::Date,
        FieldName::Year,
        FieldName::Month,
        FieldName::Day,
        FieldName::EventDate,
        FieldName::OrigDate,
        FieldName::UrlDate,
    ]
}

/// Reads the dates of a catalog, and nothing else of it.
///
/// # Errors
/// `Fields` with all dates that cannot be read, in the order of the file; `Memory`.
pub(crate) fn check_catalog(alloc: Global, file: &Catalog) -> Result<(), BridgeError>
    ensures { Gives refusal_of (λ _. put_after [] (all_works file.now.entries)) result
        (library_of file.now.entries) }
{
    let faults = date_faults(alloc, file)?;
    if faults.is_empty() {
        return Ok(());
    }
    Err(BridgeError::Fields(faults))
}

/// The faults of the dates of works, in order.
fn date_faults(alloc: Global, file: &Catalog) -> Result<Vec<FieldFault>, AllocError>
    ensures { IfOk result (λ v. map fault_view v.items ≡ all_faults file.now.entries) }
{
    let mut faults = Vec::new(alloc);
    for index in 0..file.len() {
        push_faults_at(alloc, file, index, &mut faults)?;
    }
    Ok(faults)
}

/// Appends the faults of the dates of the entry at an index.
fn push_faults_at(
    alloc: Global,
    file: &Catalog,
    index: usize,
    faults: &mut Vec<FieldFault>,
) -> Result<(), AllocError>
    requires { index < length file.now.entries }
    // The faults of the entries after it stand after its own.
    ensures { OnOk result ((rest : List Source) → map fault_view faults.new.items ++ all_faults rest
        ≡ map fault_view faults.old.items
        ++ all_faults (option_to_list (slice_get file.now.entries index) ++ rest)) }
{
    match file.whole(index) {
        Some(read) => push_work_faults(alloc, faults, read),
        None => push_made_faults(alloc, faults, file, index),
    }
}

/// The same of an entry that is made with the fields alone that are read as dates.
fn push_made_faults(
    alloc: Global,
    faults: &mut Vec<FieldFault>,
    file: &Catalog,
    index: usize,
) -> Result<(), AllocError>
    requires { index < length file.now.entries }
    ensures { OnOk result ((rest : List Source) → map fault_view faults.new.items ++ all_faults rest
        ≡ map fault_view faults.old.items
        ++ all_faults (option_to_list (slice_get file.now.entries index) ++ rest)) }
{
    let read = file.named(alloc, index, read_as_dates())?;
    push_work_faults(alloc, faults, &read)
}

/// How many marks are set.
fn marked_count(marks: &[bool]) -> usize {
    let mut count: usize = 0;
    for &is_set in marks {
        if is_set {
            count = count.saturating_add(1);
        }
    }
    count
}

/// The library of the entries of a catalog that have a mark.
///
/// # Errors
/// `Fields` with all dates of them that cannot be read; `Memory`.
pub(crate) fn marked_library(
    alloc: Global,
    file: &Catalog,
    marks: &[bool],
) -> Result<Library, BridgeError>
    ensures { Gives refusal_of library_view result
        (library_of (marked_entries marks.now file.now.entries)) }
{
    let mut library = Library::with_capacity(alloc, marked_count(marks))?;
    let mut faults = Vec::new(alloc);
    put_marked(alloc, file, marks, &mut library, &mut faults)?;
    finished(library, faults)
}

/// Puts the works that have a mark into the library, or their faults after the others.
fn put_marked(
    alloc: Global,
    file: &Catalog,
    marks: &[bool],
    library: &mut Library,
    faults: &mut Vec<FieldFault>,
) -> Result<(), AllocError>
    ensures { OnOk result (come_to (map fault_view faults.new.items) (library_view library.new) []
        ≡ come_to (map fault_view faults.old.items) (library_view library.old)
        (marked_entries marks.now file.now.entries)) }
{
    for index in 0..file.len() {
        put_if_marked(alloc, file, index, marks, library, faults)?;
    }
    Ok(())
}

/// Puts the work at an index into the library, if it has a mark, or its faults after the others.
fn put_if_marked(
    alloc: Global,
    file: &Catalog,
    index: usize,
    marks: &[bool],
    library: &mut Library,
    faults: &mut Vec<FieldFault>,
) -> Result<(), AllocError>
    requires { index < length file.now.entries }
    ensures { OnOk result ((rest : List Source)
        → come_to (map fault_view faults.new.items) (library_view library.new) rest
        ≡ come_to (map fault_view faults.old.items) (library_view library.old)
        (marked_here (slice_get marks.now index) (slice_get file.now.entries index) ++ rest)) }
{
    if is_marked(marks, index) {
        put_at(alloc, file, index, library, faults)
    } else {
        Ok(())
    }
}

/// Whether there is a mark at an index.
fn is_marked(marks: &[bool], index: usize) -> bool
    ensures { result ≡ unwrap_or (slice_get marks.now index) false }
{
    match marks.get(index) {
        Some(mark) => *mark,
        None => false,
    }
}

/// Puts the work at an index into the library, or its faults after the others.
fn put_at(
    alloc: Global,
    file: &Catalog,
    index: usize,
    library: &mut Library,
    faults: &mut Vec<FieldFault>,
) -> Result<(), AllocError>
    requires { index < length file.now.entries }
    ensures { OnOk result ((rest : List Source)
        → come_to (map fault_view faults.new.items) (library_view library.new) rest
        ≡ come_to (map fault_view faults.old.items) (library_view library.old)
        (option_to_list (slice_get file.now.entries index) ++ rest)) }
{
    match file.whole(index) {
        Some(read) => put_work(alloc, library, faults, read),
        None => put_made(alloc, library, faults, file, index),
    }
}

/// The same of an entry that is made.
fn put_made(
    alloc: Global,
    library: &mut Library,
    faults: &mut Vec<FieldFault>,
    file: &Catalog,
    index: usize,
) -> Result<(), AllocError>
    requires { index < length file.now.entries }
    ensures { OnOk result ((rest : List Source)
        → come_to (map fault_view faults.new.items) (library_view library.new) rest
        ≡ come_to (map fault_view faults.old.items) (library_view library.old)
        (option_to_list (slice_get file.now.entries index) ++ rest)) }
{
    let read = file.made(alloc, index)?;
    put_work(alloc, library, faults, &read)
}
