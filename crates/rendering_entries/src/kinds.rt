//! Kinds of entries.

ghost use Rattle.std.specs.Prelude.{◌≡◌};
ghost use Rattle.rendering_entries.specs.Library.{kind_answer};
ghost use Rattle.rendering_entries.specs.Views.{entry_ancestry};

use crate::works::{is_article_in, is_one_of};
use literature_entries::Entry;
use literature_values::EntryType;
use rendering_taxonomy::Kind;

/// Whether the entry is of the kind. No entry is of the other kinds.
pub(crate) fn kind_answer(entry: &Entry, kind: Kind) -> bool
    ensures { result ≡ kind_answer (entry_ancestry entry.now) kind }
{
    match kind {
        Kind::Article => is_other_article(entry),
        Kind::ArticleJournal => is_article_in(entry, EntryType::Periodical),
        Kind::Book => is_one_of(entry, &BOOKS),
        Kind::Chapter => is_one_of(entry, &[EntryType::Chapter, EntryType::Anthos]),
        Kind::Document => is_one_of(entry, &[EntryType::Misc]),
        Kind::EntryEncyclopedia => is_one_of(entry, &[EntryType::Entry]),
        Kind::Manuscript => is_one_of(entry, &[EntryType::Manuscript]),
        Kind::PaperConference => is_article_in(entry, EntryType::Proceedings),
        Kind::Patent => is_one_of(entry, &[EntryType::Patent]),
        Kind::Periodical => is_one_of(entry, &[EntryType::Periodical]),
        Kind::Report => is_one_of(entry, &[EntryType::Report]),
        Kind::Software => is_one_of(entry, &[EntryType::Repository]),
        Kind::Thesis => is_one_of(entry, &[EntryType::Thesis]),
        Kind::Webpage => is_one_of(entry, &[EntryType::Web]),
        _ => false,
    }
}

/// The types that are books to a style.
const BOOKS: [EntryType; 4] = [
    EntryType::Book,
    EntryType::Anthology,
    EntryType::Proceedings,
    EntryType::Reference,
];

/// Whether the entry is an article that is neither of a journal nor of proceedings.
fn is_other_article(entry: &Entry) -> bool
    ensures { result ≡ kind_answer (entry_ancestry entry.now) Kind.Article }
{
    is_one_of(entry, &[EntryType::Article])
        && !(is_article_in(entry, EntryType::Periodical)
            || is_article_in(entry, EntryType::Proceedings))
}
