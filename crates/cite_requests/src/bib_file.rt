//! The works of a bib text, and what names mean.

ghost use Rattle.std.specs.Prelude.{◌≡◌, [], true, option_and_then, slice_get};
ghost use Rattle.std.specs.Option.{option_map};
ghost use Rattle.biblatex.specs.Bibliographies.{listed_view};
ghost use Rattle.biblatex.specs.Entries.{source_view};
ghost use Rattle.biblatex_writing.specs.Settled.{have_distinct_keys};
ghost use Rattle.literature_entries.specs.EntriesData.{entry_view};
ghost use Rattle.interop.specs.Library.{all_faults, library_of};
ghost use Rattle.interop.specs.Views.{library_view};
ghost use Rattle.cite_requests.specs.Cited.{marked_entries};
ghost use Rattle.cite_requests.specs.Works.{work_of};
ghost use Rattle.cite_requests.specs.Stages.{IsRead, fields_refused, refused_as};
ghost use Rattle.cite_requests.specs.Answers.{Answers, Gives};

use crate::bridging::{check_catalog, marked_library};
use crate::bytes::utf8_text;
use crate::error::{BibTextError, CiteError};
use crate::marks::cited_marks;
use biblatex::{Catalog, Entry as SourceEntry, ParseError};
use cite_markers::Document;
use interop::is_xdata;
use literature::Library;
use literature_entries::Entry;
use std::alloc::Global;

/// The entries of a bib text, whose keys are distinct and all of whose dates can be read. A library is made only of those that are
/// needed, and an entry that inherits something only for as long as its work is made.
#[derive(Drop)]
pub struct BibFile {
    file: Catalog,
    ghost readable: { all_faults (listed_view file).entries ≡ [] },
    ghost distinct: { have_distinct_keys (listed_view file).entries ≡ true },
}

impl BibFile {
    ghost use Rattle.std.specs.Prelude.{◌≡◌, true, map, Ok};
    ghost use Rattle.std.specs.Option.{option_map};
    ghost use Rattle.laws.specs.Text.{spelled};
    ghost use Rattle.biblatex.specs.Bibliographies.{listed_view};
    ghost use Rattle.biblatex_writing.specs.Settled.{have_distinct_keys};
    ghost use Rattle.literature_entries.specs.EntriesData.{entry_view};
    ghost use Rattle.interop.specs.Views.{library_view};
    ghost use Rattle.cite_markers.specs.Views.{document_view};
    ghost use Rattle.cite_requests.specs.Answers.{Answers, Gives};
    ghost use Rattle.cite_requests.specs.Cited.{entries_with, keys_cited, library_from, library_needed};
    ghost use Rattle.cite_requests.specs.Stages.{AreWorksOf, library_stage};
    ghost use Rattle.cite_requests.specs.Views.{file_view, file_works_with, file_works};
    ghost use Rattle.cite_requests.specs.Works.{meaning};

    /// The works of a bib text: its entries are read, and then their dates.
    ///
    /// # Errors
    /// `BibText` where the bytes are not UTF-8, or the text is no bibliography; `Fields` with all dates that cannot be read; `Memory`.
    pub fn read(alloc: Global, bib: &[u8]) -> Result<BibFile, CiteError>
        ensures { Answers file_works result (AreWorksOf bib.now) }
    {
        let file = read_file(alloc, bib)?;
        BibFile::checked(alloc, file)
    }

    /// The works of a file, or all fields of it that cannot be read.
    #[tactic(auto, using(interop::proofs::LibraryFaults::none))]
    fn checked(alloc: Global, file: Catalog) -> Result<BibFile, CiteError>
        requires { have_distinct_keys (listed_view file).entries ≡ true }
        ensures { Gives file_works result (library_stage (listed_view file)) }
    {
        check_catalog(alloc, &file)?;
        Ok(BibFile { file })
    }

    /// The library of the entries that the document cites, or of all entries where there are sections, which may choose any.
    ///
    /// # Errors
    /// `Memory`.
    pub fn library(
        &self,
        alloc: Global,
        document: &Document<'_>,
        sections: &[&str],
    ) -> Result<Library, CiteError>
        ensures { Gives library_view result (Ok (library_needed (file_view self.now)
            (map spelled sections.now) (document_view document.now))) }
    {
        if sections.is_empty() {
            return self.cited_library(alloc, document);
        }
        whole_library(alloc, &self.file)
    }

    /// The library of the entries that the document cites.
    fn cited_library(&self, alloc: Global, document: &Document<'_>) -> Result<Library, CiteError>
        ensures { Gives library_view result (Ok (library_from
            (entries_with (keys_cited (file_view self.now) (document_view document.now))
            (file_view self.now).entries))) }
    {
        let marks = cited_marks(alloc, &self.file, document)?;
        library_of(alloc, &self.file, marks.as_slice())
    }

    /// The work of the library that a name means, by its key or an alias. Entries of type `xdata`, which only lend their fields,
    /// are no works.
    pub(crate) fn get<'l>(&self, library: &'l Library, name: &str) -> Option<&'l Entry>
        ensures { option_map (λ e. entry_view e.now) result
            ≡ meaning name.now (file_works_with self.now library.now) }
    {
        match self.file.index(name) {
            Some(index) => work_at(&self.file, library, index),
            None => None,
        }
    }
}

/// The work of the library that the entry at an index is. Entries of type `xdata`, which only lend their fields, are no works.
fn work_at<'l>(file: &Catalog, library: &'l Library, index: usize) -> Option<&'l Entry>
    ensures { option_map (λ e. entry_view e.now) result ≡ option_and_then
        (work_of (library_view library.now)) (slice_get (listed_view file.now).entries index) }
{
    match file.written(index) {
        Some(entry) => work_of(library, entry),
        None => None,
    }
}

/// The library of a file, or all fields of it that cannot be read.
fn whole_library(alloc: Global, file: &Catalog) -> Result<Library, CiteError>
    ensures { Gives library_view result
        (refused_as fields_refused (library_of (listed_view file.now).entries)) }
{
    let marks = vec![in alloc; true; file.len()]?;
    library_of(alloc, file, marks.as_slice())
}

/// The library of the entries that have a mark, or all fields of them that cannot be read.
fn library_of(alloc: Global, file: &Catalog, marks: &[bool]) -> Result<Library, CiteError>
    ensures { Gives library_view result (refused_as fields_refused
        (library_of (marked_entries marks.now (listed_view file.now).entries))) }
{
    Ok(marked_library(alloc, file, marks)?)
}

/// The work that an entry of a file is, in the library of the file. Entries of type `xdata`, which only lend their fields, are no works.
pub fn work_of<'l>(library: &'l Library, entry: &SourceEntry) -> Option<&'l Entry>
    ensures { option_map (λ e. entry_view e.now) result
        ≡ work_of (library_view library.now) (source_view entry.now) }
{
    if is_xdata(&entry.entry_type) {
        return None;
    }
    library.get(entry.key.as_str())
}

/// The entries of a bib text.
fn read_file(alloc: Global, bib: &[u8]) -> Result<Catalog, CiteError>
    ensures { Answers listed_view result (IsRead bib.now) }
{
    let Some(text) = utf8_text(bib) else {
        return Err(CiteError::BibText(BibTextError::Utf8));
    };
    match Catalog::parse(alloc, text) {
        Ok(file) => Ok(file),
        Err(ParseError::Memory) => Err(CiteError::Memory),
        Err(error) => Err(CiteError::BibText(BibTextError::Parse(error))),
    }
}
