//! The types of entries.

ghost use Rattle.std.specs.Prelude.{◌≡◌, IfOk, false, MatchOption};
ghost use Rattle.std.specs.Str.{chars};
ghost use Rattle.laws.specs.Text.{lowered};
ghost use Rattle.biblatex_entries.specs.TypeNames.{type_of, type_name, read_name, written_type};

use std::alloc::{AllocError, Global};

/// The type of an entry, as the kind of its item says.
#[derive(Clone, Debug, PartialEq, Eq, Drop)]
pub enum EntryType {
    Article,
    Book,
    Booklet,
    InBook,
    InCollection,
    InProceedings,
    Manual,
    MastersThesis,
    PhdThesis,
    Misc,
    Proceedings,
    TechReport,
    Unpublished,
    MvBook,
    BookInBook,
    SuppBook,
    Periodical,
    SuppPeriodical,
    Collection,
    MvCollection,
    SuppCollection,
    Reference,
    MvReference,
    InReference,
    MvProceedings,
    Report,
    Patent,
    Thesis,
    Online,
    Software,
    Dataset,
    Set,
    XData,
    /// A type of another name, in lower ASCII case.
    Unknown(String),
}

impl EntryType {
    /// The type of that name in any ASCII case. `conference` is `InProceedings`, `electronic` and `www` are `Online`.
    pub fn new(alloc: Global, name: &str) -> Result<EntryType, AllocError>
        ensures { IfOk result (λ t. type_name t ≡ type_of (lowered (chars name.now))) }
    {
        let name = name.to_ascii_lowercase(alloc)?;
        match known(name.as_str()) {
            Some(entry_type) => Ok(entry_type),
            None => Ok(EntryType::Unknown(name)),
        }
    }

    /// The type that stands for it where entries are written: `Thesis` for `MastersThesis` and `PhdThesis`, `Report` for
    /// `TechReport`, and else the type itself.
    pub fn to_biblatex(&self) -> Result<EntryType, AllocError>
        ensures { IfOk result (λ t. type_name t ≡ written_type (type_name self.now)) }
    {
        match self {
            EntryType::MastersThesis | EntryType::PhdThesis => Ok(EntryType::Thesis),
            EntryType::TechReport => Ok(EntryType::Report),
            _ => self.clone(),
        }
    }

    /// The name of the type, in lower ASCII case where it is a known one.
    pub fn name(&self) -> &str
        ensures { result.now ≡ (type_name self.now).name }
    {
        match self {
            EntryType::Article => "article",
            EntryType::Book => "book",
            EntryType::Booklet => "booklet",
            EntryType::InBook => "inbook",
            EntryType::InCollection => "incollection",
            EntryType::InProceedings => "inproceedings",
            EntryType::Manual => "manual",
            EntryType::MastersThesis => "mastersthesis",
            EntryType::PhdThesis => "phdthesis",
            EntryType::Misc => "misc",
            EntryType::Proceedings => "proceedings",
            EntryType::TechReport => "techreport",
            EntryType::Unpublished => "unpublished",
            EntryType::MvBook => "mvbook",
            EntryType::BookInBook => "bookinbook",
            EntryType::SuppBook => "suppbook",
            EntryType::Periodical => "periodical",
            EntryType::SuppPeriodical => "suppperiodical",
            EntryType::Collection => "collection",
            EntryType::MvCollection => "mvcollection",
            EntryType::SuppCollection => "suppcollection",
            EntryType::Reference => "reference",
            EntryType::MvReference => "mvreference",
            EntryType::InReference => "inreference",
            EntryType::MvProceedings => "mvproceedings",
            EntryType::Report => "report",
            EntryType::Patent => "patent",
            EntryType::Thesis => "thesis",
            EntryType::Online => "online",
            EntryType::Software => "software",
            EntryType::Dataset => "dataset",
            EntryType::Set => "set",
            EntryType::XData => "xdata",
            EntryType::Unknown(name) => name.as_str(),
        }
    }

    /// The name that stands for the type where entries are written.
    pub fn written_name(&self) -> &str
        ensures { result.now ≡ (written_type (type_name self.now)).name }
    {
        match self {
            EntryType::MastersThesis | EntryType::PhdThesis => "thesis",
            EntryType::TechReport => "report",
            _ => self.name(),
        }
    }
}

/// The type of a known name in lower case.
fn known(name: &str) -> Option<EntryType>
    ensures { MatchOption result (type_of name.now ≡ record { name = name.now; is_known = false })
        (λ t. type_name t ≡ type_of name.now) }
{
    match name {
        "article" => Some(EntryType::Article),
        "book" => Some(EntryType::Book),
        "booklet" => Some(EntryType::Booklet),
        "inbook" => Some(EntryType::InBook),
        "incollection" => Some(EntryType::InCollection),
        "inproceedings" | "conference" => Some(EntryType::InProceedings),
        "manual" => Some(EntryType::Manual),
        "mastersthesis" => Some(EntryType::MastersThesis),
        "phdthesis" => Some(EntryType::PhdThesis),
        "misc" => Some(EntryType::Misc),
        "proceedings" => Some(EntryType::Proceedings),
        "techreport" => Some(EntryType::TechReport),
        "unpublished" => Some(EntryType::Unpublished),
        "mvbook" => Some(EntryType::MvBook),
        "bookinbook" => Some(EntryType::BookInBook),
        "suppbook" => Some(EntryType::SuppBook),
        "periodical" => Some(EntryType::Periodical),
        "suppperiodical" => Some(EntryType::SuppPeriodical),
        "collection" => Some(EntryType::Collection),
        "mvcollection" => Some(EntryType::MvCollection),
        "suppcollection" => Some(EntryType::SuppCollection),
        "reference" => Some(EntryType::Reference),
        "mvreference" => Some(EntryType::MvReference),
        "inreference" => Some(EntryType::InReference),
        "mvproceedings" => Some(EntryType::MvProceedings),
        "report" => Some(EntryType::Report),
        "patent" => Some(EntryType::Patent),
        "thesis" => Some(EntryType::Thesis),
        "online" | "electronic" | "www" => Some(EntryType::Online),
        "software" => Some(EntryType::Software),
        "dataset" => Some(EntryType::Dataset),
        "set" => Some(EntryType::Set),
        "xdata" => Some(EntryType::XData),
        _ => None,
    }
}
