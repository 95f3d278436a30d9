//! The types of entries.

ghost use Rattle.std.specs.Prelude.{◌≡◌, Some};
ghost use Rattle.std.specs.List.{find};
ghost use Rattle.std.specs.Str.{chars};
ghost use Rattle.literature_values.specs.EntryTypes.{type_name, is_called, type_called};

use caseless::default_caseless_match_str;
use std::fmt;

/// What an entry is.
#[derive(Clone, Copy, Debug, PartialEq, Eq, Hash)]
pub enum EntryType {
    Article,
    Chapter,
    Entry,
    Anthos,
    Report,
    Thesis,
    Web,
    Scene,
    Artwork,
    Patent,
    Case,
    Newspaper,
    Legislation,
    Manuscript,
    Original,
    Post,
    Misc,
    Performance,
    Periodical,
    Proceedings,
    Book,
    Blog,
    Reference,
    Conference,
    Anthology,
    Repository,
    Thread,
    Video,
    Audio,
    Exhibition,
}

/// Every type.
const ENTRY_TYPES: [EntryType; 30] = [
    EntryType::Article,
    EntryType::Chapter,
    EntryType::Entry,
    EntryType::Anthos,
    EntryType::Report,
    EntryType::Thesis,
    EntryType::Web,
    EntryType::Scene,
    EntryType::Artwork,
    EntryType::Patent,
    EntryType::Case,
    EntryType::Newspaper,
    EntryType::Legislation,
    EntryType::Manuscript,
    EntryType::Original,
    EntryType::Post,
    EntryType::Misc,
    EntryType::Performance,
    EntryType::Periodical,
    EntryType::Proceedings,
    EntryType::Book,
    EntryType::Blog,
    EntryType::Reference,
    EntryType::Conference,
    EntryType::Anthology,
    EntryType::Repository,
    EntryType::Thread,
    EntryType::Video,
    EntryType::Audio,
    EntryType::Exhibition,
];

impl EntryType {
    /// The type of that name, where case does not count (by the full folding of Unicode), or none.
    #[tactic(auto, unfolding(crate::specs::EntryTypes::type_called))]
    pub fn read(name: &str) -> Option<EntryType>
        ensures { result ≡ type_called (chars name.now) }
    {
        first_called(name, &ENTRY_TYPES)
    }

    /// Its name in lower case.
    pub fn name(self) -> &'static str
        ensures { result.now ≡ type_name self }
    {
        match self {
            EntryType::Article => "article",
            EntryType::Chapter => "chapter",
            EntryType::Entry => "entry",
            EntryType::Anthos => "anthos",
            EntryType::Report => "report",
            EntryType::Thesis => "thesis",
            EntryType::Web => "web",
            EntryType::Scene => "scene",
            EntryType::Artwork => "artwork",
            EntryType::Patent => "patent",
            EntryType::Case => "case",
            EntryType::Newspaper => "newspaper",
            EntryType::Legislation => "legislation",
            EntryType::Manuscript => "manuscript",
            EntryType::Original => "original",
            EntryType::Post => "post",
            EntryType::Misc => "misc",
            EntryType::Performance => "performance",
            EntryType::Periodical => "periodical",
            EntryType::Proceedings => "proceedings",
            EntryType::Book => "book",
            EntryType::Blog => "blog",
            EntryType::Reference => "reference",
            EntryType::Conference => "conference",
            EntryType::Anthology => "anthology",
            EntryType::Repository => "repository",
            EntryType::Thread => "thread",
            EntryType::Video => "video",
            EntryType::Audio => "audio",
            EntryType::Exhibition => "exhibition",
        }
    }
}

/// The first of the types that has the name.
fn first_called(name: &str, entry_types: &[EntryType]) -> Option<EntryType>
    ensures { result ≡ find (is_called (chars name.now)) entry_types.now }
{
    for entry_type in entry_types {
        if is_called(name, *entry_type) {
            return Some(*entry_type);
        }
    }
    None
}

/// Whether the name is that of the type, where case does not count.
fn is_called(name: &str, entry_type: EntryType) -> bool
    ensures { result ≡ is_called (chars name.now) entry_type }
{
    default_caseless_match_str(name, entry_type.name())
}

/// The name in lower case.
impl fmt::Display for EntryType {
    ghost output = { λ t. Some (type_name t) };

    fn fmt<W: fmt::Write>(&self, f: &mut fmt::Formatter<W>) -> fmt::Result {
        f.write_str(self.name())
    }
}
