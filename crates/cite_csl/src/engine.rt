//! Citations and bibliography of a document in a style of CSL.

ghost use Rattle.std.specs.Prelude.{◌≡◌, ◌++◌, ◌∷◌, [], Result, Ok, Err, filter, map, IfOk, OnOk, string_bytes};
ghost use Rattle.laws.specs.Text.{spelled};
ghost use Rattle.biblatex.specs.Bibliographies.{listed_view};
ghost use Rattle.interop.specs.Library.{library_of};
ghost use Rattle.interop.specs.Views.{library_view, lent_sources_view};
ghost use Rattle.biblatex.specs.Entries.{source_view as entry_of, sources_view};
ghost use Rattle.driver.specs.Finish as driven;
ghost use Rattle.driver.specs.RenderedViews.{rendered_view};
ghost use Rattle.cite_order.specs.Order.{rendered_in_order};
ghost use Rattle.cite_order.specs.Views.{setting_view};
ghost use Rattle.cite_markers.specs.Views.{document_view};
ghost use Rattle.cite_requests.specs.Answers as refusals;
ghost use Rattle.cite_requests.specs.Cited.{entries_with, keys_cited, library_from, library_needed};
ghost use Rattle.cite_requests.specs.Stages.{Refusal, fields_refused, refused_as};
ghost use Rattle.cite_csl_styles.specs.Answers.{Returns};
ghost use Rattle.cite_csl.specs.Names.{rendered_lines};
ghost use Rattle.cite_csl.specs.Views.{cited_view, has_key, works_view};
ghost use Rattle.cite_csl_styles.specs.Views.{source_view};
ghost use Rattle.cite_csl.specs.Works.{said_by};

use crate::document::ReadDocument;
use crate::entries::Entries;
use crate::named::{Works, unknown_lines};
use crate::requests::marker_requests;
use biblatex::{Bibliography, Entry as SourceEntry};
use cite_csl_styles::{Stop, line, refused};
use cite_markers::Document;
use cite_order::{SortedSetting, rendered_in_order};
use cite_requests::{CiteError, cited_keys, selectors};
use driver::Rendered;
use interop::{from_biblatex, from_entries};
use literature::Library;
use std::alloc::{AllocError, Global};
use std::collections::BTreeSet;
use std::mem;

/// Those of these entries that have one of the keys.
fn entries_with<'f>(
    alloc: Global,
    entries: &'f [SourceEntry],
    keys: &BTreeSet<&'f str>,
) -> Result<Vec<&'f SourceEntry>, AllocError>
    ensures { IfOk result (λ v. lent_sources_view v.items
        ≡ filter (λ e. has_key keys.now e.key) (sources_view entries.entry.now)) }
{
    let mut found = Vec::new(alloc);
    for entry in entries {
        push_known(keys, entry, &mut found)?;
    }
    Ok(found)
}

/// Appends an entry that has one of the keys.
fn push_known<'f>(
    keys: &BTreeSet<&'f str>,
    entry: &'f SourceEntry,
    found: &mut Vec<&'f SourceEntry>,
) -> Result<(), AllocError>
    ensures { OnOk result (lent_sources_view found.new.items ≡ lent_sources_view found.old.items
        ++ filter (λ e. has_key keys.now e.key) (entry_of entry.now ∷ [])) }
{
    if !keys.contains(entry.key.as_str()) {
        return Ok(());
    }
    Ok(found.push(entry)?)
}

/// The library of entries, all of whose dates can be read.
fn library_of(alloc: Global, entries: &[&SourceEntry]) -> Result<Library, CiteError>
    ensures { refusals.Gives library_view result
        (refused_as fields_refused (library_of (lent_sources_view entries.now))) }
{
    Ok(from_entries(alloc, entries)?)
}

/// The library of all entries.
fn whole_library(alloc: Global, file: &Bibliography) -> Result<Library, CiteError>
    ensures { refusals.Gives library_view result
        (refused_as fields_refused (library_of (listed_view file.now).entries)) }
{
    Ok(from_biblatex(alloc, file)?)
}

/// The library of the entries that a document cites.
fn cited_library(
    alloc: Global,
    entries: &Entries,
    document: &Document<'_>,
) -> Result<Library, CiteError>
    ensures { refusals.Gives library_view result (Ok (library_from
        (entries_with (keys_cited (works_view entries.now).file (document_view document.now))
        (works_view entries.now).file.entries))) }
{
    let keys = cited_keys(alloc, &entries.file, document)?;
    let cited = entries_with(alloc, entries.file.entries(), &keys)?;
    library_of(alloc, &cited)
}

/// The library of the entries that a document cites, or of all entries where there are sections, which may choose any.
fn library_for(
    alloc: Global,
    entries: &Entries,
    document: &Document<'_>,
    sections: &[&str],
) -> Result<Library, CiteError>
    ensures { refusals.Gives library_view result (Ok (library_needed (works_view entries.now).file
        (map spelled sections.now) (document_view document.now))) }
{
    if sections.is_empty() {
        return cited_library(alloc, entries, document);
    }
    whole_library(alloc, &entries.file)
}

/// Citations and bibliography of a document by the library of the entries that are needed.
fn render_by(
    alloc: Global,
    works: Works<'_>,
    setting: SortedSetting<'_>,
    document: &Document<'_>,
    sections: &[&str],
) -> Result<Rendered, CiteError>
    requires { library_view works.library.now ≡ library_needed
        (works_view works.entries.now).file (map spelled sections.now)
        (document_view document.now) }
    ensures { refusals.Gives rendered_view result
        (rendered_in_order (works_view works.entry.entries.now) (setting_view setting.entry)
        (map spelled sections.now) (document_view document.now)) }
{
    let requests = marker_requests(alloc, works, setting, document)?;
    let selectors = selectors(alloc, sections)?;
    rendered_in_order(alloc, requests, setting, &selectors, works.library)
}

/// The lines for citations and bibliography that are refused.
fn lines_for(
    alloc: Global,
    works: Works<'_>,
    document: &ReadDocument<'_>,
    error: &CiteError,
) -> Result<String, AllocError>
    ensures { (stage : Result driven.Rendered Refusal)
        → refusals.IsRefusal error.now (λ a. stage ≡ a)
        → IfOk result (λ s. said_by (rendered_lines (source_view document.now.file)
        (cited_view works.entry) (document_view document.now.document)) stage
        ≡ Err (string_bytes s)) }
{
    match error {
        CiteError::Memory => Err(AllocError),
        CiteError::Name(_) => unknown_lines(alloc, works, document),
        _ => {
            let why = error.to_string(alloc)?;
            line(alloc, why.as_str(), "")
        }
    }
}

/// Citations and bibliography of a document. The library is left to the system, which takes it back when the process ends.
pub(crate) fn render(
    alloc: Global,
    entries: &Entries,
    setting: SortedSetting<'_>,
    document: &ReadDocument<'_>,
    sections: &[&str],
) -> Result<Rendered, Stop>
    ensures { Returns rendered_view result (said_by (rendered_lines
        (source_view document.now.file) (works_view entries.now)
        (document_view document.now.document)) (rendered_in_order (works_view entries.now)
        (setting_view setting.entry) (map spelled sections.now)
        (document_view document.now.document))) }
{
    let library = match library_for(alloc, entries, &document.document, sections) {
        Ok(library) => library,
        Err(_) => return Err(Stop::Memory),
    };
    let works = Works {
        entries,
        library: &library,
    };
    let rendered = rendered_or_lines(alloc, works, setting, document, sections);
    mem::forget(library);
    rendered
}

/// Citations and bibliography of a document by the library of the entries that are needed, or the lines why not.
fn rendered_or_lines(
    alloc: Global,
    works: Works<'_>,
    setting: SortedSetting<'_>,
    document: &ReadDocument<'_>,
    sections: &[&str],
) -> Result<Rendered, Stop>
    requires { library_view works.library.now ≡ library_needed
        (works_view works.entries.now).file (map spelled sections.now)
        (document_view document.now.document) }
    ensures { Returns rendered_view result (said_by (rendered_lines
        (source_view document.now.file) (works_view works.entry.entries.now)
        (document_view document.now.document)) (rendered_in_order
        (works_view works.entry.entries.now) (setting_view setting.entry)
        (map spelled sections.now) (document_view document.now.document))) }
{
    match render_by(alloc, works, setting, &document.document, sections) {
        Ok(rendered) => Ok(rendered),
        Err(error) => Err(refused(lines_for(alloc, works, document, &error))),
    }
}
