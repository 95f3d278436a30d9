//! Entries.

ghost use Rattle.std.specs.Prelude.{◌≡◌, [], string_bytes};
ghost use Rattle.laws.specs.Text.{is_filled};
ghost use Rattle.literature_entries.specs.Fields.{nothing_but};
ghost use Rattle.literature_entries.specs.Names.{has, of_work, of_part, of_address, of_scheme};
ghost use Rattle.literature_entries.specs.Views as views;

use crate::details::Details;
use literature_values::EntryType;

/// An entry of a library: its key, its type and fields, and the works that it is part of. Two entries are equal where all of
/// this is; their hash is that of the key. Comparing, dropping and `Debug` recurse as deep as ancestors go.
#[derive(Debug, PartialEq, Eq)]
#[derive_where(Hash)]
pub struct Entry {
    pub(crate) key: String,
    #[derive_where(skip(Hash))]
    pub(crate) details: Details,
    #[derive_where(skip(Hash))]
    pub(crate) parents: Vec<Entry>,
}

impl Drop for Entry {
    fn drop(self) {
        let Entry {
            key: _,
            details: _,
            parents: _,
        } = self;
    }
}

impl Entry {
    /// An entry of that key and type, without fields and parents.
    pub fn new(key: String, entry_type: EntryType) -> Entry
        ensures key { views.key_view result ≡ string_bytes key }
        ensures fields { views.fields_view result ≡ nothing_but entry_type }
        ensures parents { views.parents result ≡ [] }
    {
        let parents = Vec::new(*key.allocator());
        Entry {
            key,
            details: Details::new(entry_type),
            parents,
        }
    }

    /// The key.
    pub fn key(&self) -> &str
        ensures { result.now ≡ views.key_view self.now }
    {
        self.key.as_str()
    }

    /// What the entry is.
    pub fn entry_type(&self) -> &EntryType
        ensures { result.now ≡ (views.fields_view self.now).entry_type }
    {
        &self.details.entry_type
    }

    /// The works that the entry is part of.
    pub fn parents(&self) -> &[Entry]
        ensures { result.now ≡ views.parents self.now }
    {
        self.parents.as_slice()
    }

    /// Sets the works that the entry is part of.
    pub fn set_parents(&mut self, parents: Vec<Entry>)
        ensures key { views.key_view self.new ≡ views.key_view self.old }
        ensures fields { views.fields_view self.new ≡ views.fields_view self.old }
        ensures parents { views.parents self.new ≡ parents.items }
    {
        self.parents = parents;
    }

    /// Whether a field is set, by its name as in `page-range`, a serial number by that of its scheme, which is `doi`,
    /// `isbn`, `issn`, `pmid`, `pmcid` or `arxiv`, or parents by `parent`. No other name is a field's.
    pub fn has(&self, name: &str) -> bool
        ensures { result
            ≡ has name.now (views.fields_view self.now) (is_filled (views.parents self.now)) }
    {
        self.has_of_work(name)
            .or(self.has_of_part(name))
            .or(self.has_of_address(name))
            .or(self.has_of_scheme(name))
            .unwrap_or(false)
    }

    /// Whether a field is set that says what the work is and who made it; none where no such field has the name.
    #[tactic(auto, unfolding(crate::specs::Names::of_work))]
    fn has_of_work(&self, name: &str) -> Option<bool>
        ensures { result ≡ of_work name.now (views.fields_view self.now) }
    {
        let details = &self.details;
        match name {
            "title" => Some(details.title.is_some()),
            "author" => Some(details.author.is_some()),
            "editor" => Some(details.editor.is_some()),
            "translator" => Some(details.translator.is_some()),
            "date" => Some(details.date.is_some()),
            "publisher" => Some(details.publisher.is_some()),
            _ => None,
        }
    }

    /// The same of a field that says what part of other works the work is.
    #[tactic(auto, unfolding(crate::specs::Names::of_part))]
    fn has_of_part(&self, name: &str) -> Option<bool>
        ensures { result ≡ of_part name.now (views.fields_view self.now) }
    {
        let details = &self.details;
        match name {
            "volume" => Some(details.volume.is_some()),
            "volume-total" => Some(details.volume_total.is_some()),
            "issue" => Some(details.issue.is_some()),
            "chapter" => Some(details.chapter.is_some()),
            "edition" => Some(details.edition.is_some()),
            "page-range" => Some(details.page_range.is_some()),
            "page-total" => Some(details.page_total.is_some()),
            _ => None,
        }
    }

    /// The same of a field that says where the work is found, and of parents.
    #[tactic(auto, unfolding(crate::specs::Names::of_address))]
    fn has_of_address(&self, name: &str) -> Option<bool>
        ensures { result ≡ of_address name.now (views.fields_view self.now)
            (is_filled (views.parents self.now)) }
    {
        let details = &self.details;
        match name {
            "url" => Some(details.url.is_some()),
            "serial-number" => Some(details.serial_number.is_some()),
            "note" => Some(details.note.is_some()),
            "language" => Some(details.language.is_some()),
            "parent" => Some(!self.parents.is_empty()),
            _ => None,
        }
    }

    /// The same of a serial number by the name of its scheme.
    #[tactic(auto, unfolding(crate::specs::Names::of_scheme))]
    fn has_of_scheme(&self, name: &str) -> Option<bool>
        ensures { result ≡ of_scheme name.now (views.fields_view self.now) }
    {
        match name {
            "doi" => Some(self.doi().is_some()),
            "isbn" => Some(self.isbn().is_some()),
            "issn" => Some(self.issn().is_some()),
            "pmid" => Some(self.pmid().is_some()),
            "pmcid" => Some(self.pmcid().is_some()),
            "arxiv" => Some(self.arxiv().is_some()),
            _ => None,
        }
    }
}
