//! What an entry of each type is in a library, and what it is part of.

ghost use Rattle.std.specs.Prelude.{◌≡◌};
ghost use Rattle.biblatex_entries.specs.TypeNames.{type_name, written_type};
ghost use Rattle.interop.specs.Kinds.{alone, part_of, row_of};
ghost use Rattle.interop.specs.Views.{row_view};

use biblatex_entries::EntryType as SourceType;
use literature_values::EntryType;

/// A work that holds others, and the field in which they name its title.
#[derive(Clone, Copy)]
pub(crate) struct Container {
    pub(crate) entry_type: EntryType,
    pub(crate) title: &'static str,
}

/// What an entry is, and the work that may hold it.
#[derive(Clone, Copy)]
pub(crate) struct Row {
    pub(crate) entry_type: EntryType,
    pub(crate) container: Option<Container>,
}

/// The row of a type.
pub(crate) fn row_of(entry_type: &SourceType) -> Row
    ensures { row_view result ≡ row_of (written_type (type_name entry_type.now)) }
{
    match entry_type {
        SourceType::Article | SourceType::SuppPeriodical => {
            part_of(EntryType::Periodical, "journaltitle", EntryType::Article)
        }
        SourceType::InBook | SourceType::BookInBook | SourceType::SuppBook => {
            part_of(EntryType::Book, "booktitle", EntryType::Chapter)
        }
        SourceType::InCollection | SourceType::SuppCollection => {
            part_of(EntryType::Anthology, "booktitle", EntryType::Anthos)
        }
        SourceType::InReference => { part_of(EntryType::Reference, "booktitle", EntryType::Entry) }
        SourceType::InProceedings => {
            part_of(EntryType::Proceedings, "booktitle", EntryType::Article)
        }
        SourceType::Book | SourceType::MvBook | SourceType::Booklet => alone(EntryType::Book),
        SourceType::Collection | SourceType::MvCollection => alone(EntryType::Anthology),
        SourceType::Proceedings | SourceType::MvProceedings => alone(EntryType::Proceedings),
        SourceType::Reference | SourceType::MvReference => alone(EntryType::Reference),
        SourceType::Periodical => alone(EntryType::Periodical),
        SourceType::Report | SourceType::TechReport | SourceType::Manual => {
            alone(EntryType::Report)
        }
        SourceType::Patent => alone(EntryType::Patent),
        SourceType::Thesis | SourceType::MastersThesis | SourceType::PhdThesis => {
            alone(EntryType::Thesis)
        }
        SourceType::Online => alone(EntryType::Web),
        SourceType::Software => alone(EntryType::Repository),
        SourceType::Unpublished => alone(EntryType::Manuscript),
        _ => alone(EntryType::Misc),
    }
}

/// A type without a container.
fn alone(entry_type: EntryType) -> Row
    ensures { row_view result ≡ alone entry_type }
{
    Row {
        entry_type,
        container: None,
    }
}

/// A type with a container whose title stands in a field.
fn part_of(container: EntryType, title: &'static str, entry_type: EntryType) -> Row
    ensures { row_view result ≡ part_of container title.now entry_type }
{
    Row {
        entry_type,
        container: Some(Container {
            entry_type: container,
            title,
        }),
    }
}
