//! Names of fields for which entries ask each other.

ghost use Rattle.std.specs.Prelude.{◌≡◌};
ghost use Rattle.std.specs.Option.{option_map};
ghost use Rattle.biblatex_suppliers.specs.FieldNames.{field_name, general_name, special_name};

/// A field that an entry inherits, or one in which its value stands.
#[derive(Clone, Copy)]
pub enum FieldName {
    Author,
    Editor,
    EditorType,
    Translator,
    Publisher,
    Location,
    Address,
    Edition,
    Series,
    Number,
    Volume,
    Volumes,
    Isbn,
    Issn,
    Doi,
    Url,
    UrlDate,
    Eprint,
    EprintType,
    Language,
    LangId,
    Institution,
    School,
    Organization,
    Version,
    PubState,
    MainTitle,
    MainSubtitle,
    EventTitle,
    EventDate,
    OrigDate,
    JournalTitle,
    JournalSubtitle,
    Journal,
    Issue,
    BookTitle,
    BookSubtitle,
    BookAuthor,
    Date,
    Year,
    Month,
    Day,
    Title,
    Subtitle,
}

impl FieldName {
    /// The name as it is written, in lower case.
    pub fn text(self) -> &'static str
        ensures { result.now ≡ field_name self }
    {
        match self.general() {
            Some(text) => text,
            None => self.special(),
        }
    }

    /// The same of a field that every entry inherits.
    fn general(self) -> Option<&'static str>
        ensures { option_map (λ s. s.now) result ≡ general_name self }
    {
        match self {
            FieldName::Author => Some("author"),
            FieldName::Editor => Some("editor"),
            FieldName::EditorType => Some("editortype"),
            FieldName::Translator => Some("translator"),
            FieldName::Publisher => Some("publisher"),
            FieldName::Location => Some("location"),
            FieldName::Address => Some("address"),
            FieldName::Edition => Some("edition"),
            FieldName::Series => Some("series"),
            FieldName::Number => Some("number"),
            FieldName::Volume => Some("volume"),
            FieldName::Volumes => Some("volumes"),
            FieldName::Isbn => Some("isbn"),
            FieldName::Issn => Some("issn"),
            FieldName::Doi => Some("doi"),
            FieldName::Url => Some("url"),
            FieldName::UrlDate => Some("urldate"),
            FieldName::Eprint => Some("eprint"),
            FieldName::EprintType => Some("eprinttype"),
            FieldName::Language => Some("language"),
            FieldName::LangId => Some("langid"),
            FieldName::Institution => Some("institution"),
            FieldName::School => Some("school"),
            FieldName::Organization => Some("organization"),
            FieldName::Version => Some("version"),
            FieldName::PubState => Some("pubstate"),
            FieldName::MainTitle => Some("maintitle"),
            FieldName::MainSubtitle => Some("mainsubtitle"),
            FieldName::EventTitle => Some("eventtitle"),
            FieldName::EventDate => Some("eventdate"),
            FieldName::OrigDate => Some("origdate"),
            _ => None,
        }
    }

    /// The same of another field.
    fn special(self) -> &'static str
        ensures { result.now ≡ special_name self }
    {
        match self {
            FieldName::JournalTitle => "journaltitle",
            FieldName::JournalSubtitle => "journalsubtitle",
            FieldName::Journal => "journal",
            FieldName::Issue => "issue",
            FieldName::BookTitle => "booktitle",
            FieldName::BookSubtitle => "booksubtitle",
            FieldName::BookAuthor => "bookauthor",
            FieldName::Date => "date",
            FieldName::Year => "year",
            FieldName::Month => "month",
            FieldName::Day => "day",
            FieldName::Title => "title",
            FieldName::Subtitle => "subtitle",
            _ => "",
        }
    }
}
