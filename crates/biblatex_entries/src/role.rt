//! What an entry's type means for the fields that it inherits and passes on.

ghost use Rattle.std.specs.Prelude.{◌≡◌};
ghost use Rattle.biblatex_entries.specs.TypeNames.{type_name};
ghost use Rattle.biblatex_entries.specs.Roles.{role_of, is_multi_volume, is_collection};

use crate::entry_type::EntryType;

/// What an entry's type means for the fields that it inherits and passes on.
#[derive(Clone, Copy, Debug, PartialEq, Eq)]
pub enum Role {
    /// An article or a supplement in a periodical.
    Article,
    /// A periodical.
    Periodical,
    /// A part of a book.
    PartOfBook,
    /// A part of a collection, of proceedings, or of a work of reference.
    PartOfOther,
    /// A book.
    Book,
    /// A book of several volumes.
    MultiVolumeBook,
    /// A collection, proceedings, or a work of reference.
    Volume,
    /// A collection, proceedings, or a work of reference, of several volumes.
    MultiVolume,
    /// Fields for other entries, and no work.
    XData,
    /// A set of entries.
    Set,
    /// Any other work.
    Other,
}

impl EntryType {
    /// What the type means for the fields that the entry inherits and passes on.
    pub fn role(&self) -> Role
        ensures { result ≡ role_of (type_name self.now) }
    {
        match self {
            EntryType::Article | EntryType::SuppPeriodical => Role::Article,
            EntryType::Periodical => Role::Periodical,
            EntryType::InBook | EntryType::BookInBook | EntryType::SuppBook => Role::PartOfBook,
            EntryType::InCollection
            | EntryType::SuppCollection
            | EntryType::InReference
            | EntryType::InProceedings => Role::PartOfOther,
            EntryType::Book => Role::Book,
            EntryType::MvBook => Role::MultiVolumeBook,
            EntryType::Collection | EntryType::Proceedings | EntryType::Reference => Role::Volume,
            EntryType::MvCollection | EntryType::MvProceedings | EntryType::MvReference => {
                Role::MultiVolume
            }
            EntryType::XData => Role::XData,
            EntryType::Set => Role::Set,
            EntryType::Booklet
            | EntryType::Manual
            | EntryType::MastersThesis
            | EntryType::PhdThesis
            | EntryType::Misc
            | EntryType::TechReport
            | EntryType::Unpublished
            | EntryType::Report
            | EntryType::Patent
            | EntryType::Thesis
            | EntryType::Online
            | EntryType::Software
            | EntryType::Dataset
            | EntryType::Unknown(_) => Role::Other,
        }
    }

    /// Whether it is of several volumes.
    pub fn is_multi_volume(&self) -> bool
        ensures { result ≡ is_multi_volume (role_of (type_name self.now)) }
    {
        matches!(self.role(), Role::MultiVolumeBook | Role::MultiVolume)
    }

    /// Whether it holds the works of several authors: a collection, proceedings or a work of reference, of one volume or
    /// several.
    pub fn is_collection(&self) -> bool
        ensures { result ≡ is_collection (role_of (type_name self.now)) }
    {
        matches!(self.role(), Role::Volume | Role::MultiVolume)
    }
}
