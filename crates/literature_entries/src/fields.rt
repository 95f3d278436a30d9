//! The fields of entries.

ghost use Rattle.std.specs.Prelude.{◌≡◌, Some, string_bytes};
ghost use Rattle.std.specs.Option.{option_map};
ghost use Rattle.literature_numbers.specs.PageViews.{pages_view};
ghost use Rattle.literature_numbers.specs.Views.{numeral_view};
ghost use Rattle.literature_values.specs.OtherViews.{address_view};
ghost use Rattle.literature_values.specs.TextViews.{format_view, publishing_view};
ghost use Rattle.literature_values.specs.TypedViews.{typed_view};
ghost use Rattle.literature_entries.specs.Fields.{Fields};
ghost use Rattle.literature_entries.specs.Views.{serials_view, people_view, fields_view, view_in, Sets};

use crate::entry::Entry;
use literature_values::{
    Date, FormatString, MaybeTyped, Numeric, PageRanges, Person, Publisher, QualifiedUrl,
    SerialNumber,
};

/// Each getter returns the field, or none where it is not set; each setter changes that field alone.
impl Entry {
    /// The title.
    pub fn title(&self) -> Option<&FormatString>
        ensures { view_in format_view result ≡ (fields_view self.now).title }
    {
        self.details.title.as_ref()
    }

    /// Sets the title.
    pub fn set_title(&mut self, title: FormatString)
        ensures { Sets self.old
            (record (fields_view self.old) { title = Some (format_view title) }) self.new }
    {
        self.details.title = Some(title);
    }

    /// The authors.
    pub fn author(&self) -> Option<&[Person]>
        ensures { view_in people_view result ≡ (fields_view self.now).author }
    {
        people(&self.details.author)
    }

    /// Sets the authors.
    pub fn set_author(&mut self, author: Vec<Person>)
        ensures { Sets self.old
            (record (fields_view self.old) { author = Some (people_view author.items) }) self.new }
    {
        self.details.author = Some(author);
    }

    /// The editors.
    pub fn editor(&self) -> Option<&[Person]>
        ensures { view_in people_view result ≡ (fields_view self.now).editor }
    {
        people(&self.details.editor)
    }

    /// Sets the editors.
    pub fn set_editor(&mut self, editor: Vec<Person>)
        ensures { Sets self.old
            (record (fields_view self.old) { editor = Some (people_view editor.items) }) self.new }
    {
        self.details.editor = Some(editor);
    }

    /// The translators.
    pub fn translator(&self) -> Option<&[Person]>
        ensures { view_in people_view result ≡ (fields_view self.now).translator }
    {
        people(&self.details.translator)
    }

    /// Sets the translators.
    pub fn set_translator(&mut self, translator: Vec<Person>)
        ensures { Sets self.old
            (record (fields_view self.old) { translator = Some (people_view translator.items) })
            self.new }
    {
        self.details.translator = Some(translator);
    }

    /// The date.
    pub fn date(&self) -> Option<&Date>
        ensures { view_in (λ d. d) result ≡ (fields_view self.now).date }
    {
        self.details.date.as_ref()
    }

    /// Sets the date.
    pub fn set_date(&mut self, date: Date)
        ensures { Sets self.old (record (fields_view self.old) { date = Some date }) self.new }
    {
        self.details.date = Some(date);
    }

    /// The publisher.
    pub fn publisher(&self) -> Option<&Publisher>
        ensures { view_in publishing_view result ≡ (fields_view self.now).publisher }
    {
        self.details.publisher.as_ref()
    }

    /// Sets the publisher.
    pub fn set_publisher(&mut self, publisher: Publisher)
        ensures { Sets self.old
            (record (fields_view self.old) { publisher = Some (publishing_view publisher) })
            self.new }
    {
        self.details.publisher = Some(publisher);
    }

    /// The volume.
    pub fn volume(&self) -> Option<&MaybeTyped<Numeric>>
        ensures { view_in (typed_view numeral_view) result ≡ (fields_view self.now).volume }
    {
        self.details.volume.as_ref()
    }

    /// Sets the volume.
    pub fn set_volume(&mut self, volume: MaybeTyped<Numeric>)
        ensures { Sets self.old
            (record (fields_view self.old) { volume = Some (typed_view numeral_view volume) })
            self.new }
    {
        self.details.volume = Some(volume);
    }

    /// The number of volumes.
    pub fn volume_total(&self) -> Option<&MaybeTyped<Numeric>>
        ensures { view_in (typed_view numeral_view) result ≡ (fields_view self.now).volume_total }
    {
        self.details.volume_total.as_ref()
    }

    /// Sets the number of volumes.
    pub fn set_volume_total(&mut self, volume_total: MaybeTyped<Numeric>)
        ensures { Sets self.old (record (fields_view self.old)
            { volume_total = Some (typed_view numeral_view volume_total) }) self.new }
    {
        self.details.volume_total = Some(volume_total);
    }

    /// The issue.
    pub fn issue(&self) -> Option<&MaybeTyped<Numeric>>
        ensures { view_in (typed_view numeral_view) result ≡ (fields_view self.now).issue }
    {
        self.details.issue.as_ref()
    }

    /// Sets the issue.
    pub fn set_issue(&mut self, issue: MaybeTyped<Numeric>)
        ensures { Sets self.old
            (record (fields_view self.old) { issue = Some (typed_view numeral_view issue) })
            self.new }
    {
        self.details.issue = Some(issue);
    }

    /// The chapter.
    pub fn chapter(&self) -> Option<&MaybeTyped<Numeric>>
        ensures { view_in (typed_view numeral_view) result ≡ (fields_view self.now).chapter }
    {
        self.details.chapter.as_ref()
    }

    /// Sets the chapter.
    pub fn set_chapter(&mut self, chapter: MaybeTyped<Numeric>)
        ensures { Sets self.old
            (record (fields_view self.old) { chapter = Some (typed_view numeral_view chapter) })
            self.new }
    {
        self.details.chapter = Some(chapter);
    }

    /// The edition.
    pub fn edition(&self) -> Option<&MaybeTyped<Numeric>>
        ensures { view_in (typed_view numeral_view) result ≡ (fields_view self.now).edition }
    {
        self.details.edition.as_ref()
    }

    /// Sets the edition.
    pub fn set_edition(&mut self, edition: MaybeTyped<Numeric>)
        ensures { Sets self.old
            (record (fields_view self.old) { edition = Some (typed_view numeral_view edition) })
            self.new }
    {
        self.details.edition = Some(edition);
    }

    /// The pages.
    pub fn page_range(&self) -> Option<&MaybeTyped<PageRanges>>
        ensures { view_in (typed_view pages_view) result ≡ (fields_view self.now).page_range }
    {
        self.details.page_range.as_ref()
    }

    /// Sets the pages.
    pub fn set_page_range(&mut self, page_range: MaybeTyped<PageRanges>)
        ensures { Sets self.old
            (record (fields_view self.old) { page_range = Some (typed_view pages_view page_range) })
            self.new }
    {
        self.details.page_range = Some(page_range);
    }

    /// The number of pages.
    pub fn page_total(&self) -> Option<&MaybeTyped<Numeric>>
        ensures { view_in (typed_view numeral_view) result ≡ (fields_view self.now).page_total }
    {
        self.details.page_total.as_ref()
    }

    /// Sets the number of pages.
    pub fn set_page_total(&mut self, page_total: MaybeTyped<Numeric>)
        ensures { Sets self.old (record (fields_view self.old)
            { page_total = Some (typed_view numeral_view page_total) }) self.new }
    {
        self.details.page_total = Some(page_total);
    }

    /// The address.
    pub fn url(&self) -> Option<&QualifiedUrl>
        ensures { view_in address_view result ≡ (fields_view self.now).url }
    {
        self.details.url.as_ref()
    }

    /// Sets the address.
    pub fn set_url(&mut self, url: QualifiedUrl)
        ensures { Sets self.old
            (record (fields_view self.old) { url = Some (address_view url) }) self.new }
    {
        self.details.url = Some(url);
    }

    /// The serial numbers.
    pub fn serial_number(&self) -> Option<&SerialNumber>
        ensures { view_in serials_view result ≡ (fields_view self.now).serial_number }
    {
        self.details.serial_number.as_ref()
    }

    /// Sets the serial numbers.
    pub fn set_serial_number(&mut self, serial_number: SerialNumber)
        ensures { Sets self.old
            (record (fields_view self.old) { serial_number = Some (serials_view serial_number) })
            self.new }
    {
        self.details.serial_number = Some(serial_number);
    }

    /// The note.
    pub fn note(&self) -> Option<&FormatString>
        ensures { view_in format_view result ≡ (fields_view self.now).note }
    {
        self.details.note.as_ref()
    }

    /// Sets the note.
    pub fn set_note(&mut self, note: FormatString)
        ensures { Sets self.old
            (record (fields_view self.old) { note = Some (format_view note) }) self.new }
    {
        self.details.note = Some(note);
    }

    /// The language.
    pub fn language(&self) -> Option<&str>
        ensures { view_in (λ s. s) result ≡ (fields_view self.now).language }
    {
        self.details.language.as_deref()
    }

    /// Sets the language.
    pub fn set_language(&mut self, language: String)
        ensures { Sets self.old
            (record (fields_view self.old) { language = Some (string_bytes language) }) self.new }
    {
        self.details.language = Some(language);
    }
}

/// The people, where there is a list of them.
fn people(list: &Option<Vec<Person>>) -> Option<&[Person]>
    ensures { view_in people_view result ≡ option_map (λ v. people_view v.items) list.now }
{
    match list {
        Some(people) => Some(people.as_slice()),
        None => None,
    }
}
