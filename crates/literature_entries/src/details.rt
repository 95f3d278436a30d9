//! What an entry says of itself.

ghost use Rattle.std.specs.Prelude.{◌≡◌};
ghost use Rattle.literature_entries.specs.Fields.{nothing_but};
ghost use Rattle.literature_entries.specs.Views.{details_view};

use literature_values::{
    Date, EntryType, FormatString, MaybeTyped, Numeric, PageRanges, Person, Publisher,
    QualifiedUrl, SerialNumber,
};

/// The type and the fields of an entry.
#[derive(Debug, PartialEq, Eq, Drop)]
pub(crate) struct Details {
    pub(crate) entry_type: EntryType,
    pub(crate) title: Option<FormatString>,
    pub(crate) author: Option<Vec<Person>>,
    pub(crate) editor: Option<Vec<Person>>,
    pub(crate) translator: Option<Vec<Person>>,
    pub(crate) date: Option<Date>,
    pub(crate) publisher: Option<Publisher>,
    pub(crate) volume: Option<MaybeTyped<Numeric>>,
    pub(crate) volume_total: Option<MaybeTyped<Numeric>>,
    pub(crate) issue: Option<MaybeTyped<Numeric>>,
    pub(crate) chapter: Option<MaybeTyped<Numeric>>,
    pub(crate) edition: Option<MaybeTyped<Numeric>>,
    pub(crate) page_range: Option<MaybeTyped<PageRanges>>,
    pub(crate) page_total: Option<MaybeTyped<Numeric>>,
    pub(crate) url: Option<QualifiedUrl>,
    pub(crate) serial_number: Option<SerialNumber>,
    pub(crate) note: Option<FormatString>,
    pub(crate) language: Option<String>,
    /// The texts of numbers and of pages as they were written, by the names of their fields.
    pub(crate) written: Option<SerialNumber>,
}

impl Details {
    /// A type without fields.
    pub(crate) fn new(entry_type: EntryType) -> Details
        ensures { details_view result ≡ nothing_but entry_type }
    {
        Details {
            entry_type,
            title: None,
            author: None,
            editor: None,
            translator: None,
            date: None,
            publisher: None,
            volume: None,
            volume_total: None,
            issue: None,
            chapter: None,
            edition: None,
            page_range: None,
            page_total: None,
            url: None,
            serial_number: None,
            note: None,
            language: None,
            written: None,
        }
    }
}
