//! The works that an entry is part of, and which of them answer for it.

ghost use Rattle.std.specs.Prelude.{◌≡◌, ◌∷◌, [], map, IfOk};
ghost use Rattle.std.specs.List.{find};
ghost use Rattle.literature_entries.specs.Views.{fields_view, view_in};
ghost use Rattle.rendering_entries.specs.Views.{entry_ancestry};
ghost use Rattle.rendering_entries.specs.Works.{is_one_of, first_parent, types_of_containers, container, without_first, first_anthology, collection, is_article_in};

use literature_entries::Entry;
use literature_values::EntryType;
use std::alloc::AllocError;

/// The types of the works that contain others.
const CONTAINERS: [EntryType; 4] = [
    EntryType::Periodical,
    EntryType::Book,
    EntryType::Proceedings,
    EntryType::Reference,
];

/// The types of the works that contain others, and that of those which contain the parts of an anthology.
const WITH_ANTHOLOGY: [EntryType; 5] = [
    EntryType::Periodical,
    EntryType::Book,
    EntryType::Proceedings,
    EntryType::Reference,
    EntryType::Anthology,
];

pub(crate) fn is_one_of(entry: &Entry, entry_types: &[EntryType]) -> bool
    ensures { result ≡ is_one_of entry_types.now (fields_view entry.now) }
{
    entry_types.contains(entry.entry_type())
}

fn first_of<'a>(entries: &'a [Entry], entry_types: &[EntryType]) -> Option<&'a Entry>
    ensures { view_in fields_view result
        ≡ find (is_one_of entry_types.now) (map fields_view entries.now) }
{
    for entry in entries {
        if is_one_of(entry, entry_types) {
            return Some(entry);
        }
    }
    None
}

pub(crate) fn first_parent(entry: &Entry, entry_type: EntryType) -> Option<&Entry>
    ensures { view_in fields_view result
        ≡ first_parent (entry_type ∷ []) (entry_ancestry entry.now) }
{
    first_of(entry.parents(), &[entry_type])
}

/// The types of the works that can contain the entry.
fn types_of_containers(entry: &Entry) -> &'static [EntryType]
    ensures { result.now ≡ types_of_containers (fields_view entry.now) }
{
    if is_one_of(entry, &[EntryType::Anthos]) {
        &WITH_ANTHOLOGY
    } else {
        &CONTAINERS
    }
}

/// The container: the first parent that can contain the entry.
pub(crate) fn container(entry: &Entry) -> Option<&Entry>
    ensures { view_in fields_view result ≡ container (entry_ancestry entry.now) }
{
    first_of(entry.parents(), types_of_containers(entry))
}

/// The collection: the first anthology among the ancestors other than the container.
///
/// # Errors
/// Out of memory.
pub(crate) fn collection(entry: &Entry) -> Result<Option<&Entry>, AllocError>
    ensures { IfOk result (λ w. view_in fields_view w ≡ collection (entry_ancestry entry.now)) }
{
    match anthology_beside(entry.parents(), types_of_containers(entry)) {
        Some(work) => Ok(Some(work)),
        None => further_anthology(entry),
    }
}

/// The first anthology among parents, without the first parent that is of one of the types of containers.
fn anthology_beside<'a>(parents: &'a [Entry], containers: &[EntryType]) -> Option<&'a Entry>
    ensures { view_in fields_view result
        ≡ first_anthology (without_first (is_one_of containers.now) (map fields_view parents.now)) }
{
    let mut rest = parents;
    while let Some((work, others)) = rest.split_first() {
        if is_one_of(work, containers) {
            return first_anthology(others);
        }
        if is_one_of(work, &[EntryType::Anthology]) {
            return Some(work);
        }
        rest = others;
    }
    None
}

/// The first anthology among the ancestors that are no parents: those are the parents of all ancestors.
fn further_anthology(entry: &Entry) -> Result<Option<&Entry>, AllocError>
    ensures { IfOk result (λ w. view_in fields_view w
        ≡ first_anthology (entry_ancestry entry.now).further) }
{
    entry.map_parents(|work| first_anthology(work.parents()))
}

fn first_anthology(entries: &[Entry]) -> Option<&Entry>
    ensures { view_in fields_view result ≡ first_anthology (map fields_view entries.now) }
{
    first_of(entries, &[EntryType::Anthology])
}

/// Whether the entry is an article with a parent of that type.
pub(crate) fn is_article_in(entry: &Entry, entry_type: EntryType) -> bool
    ensures { result ≡ is_article_in entry_type (entry_ancestry entry.now) }
{
    is_one_of(entry, &[EntryType::Article]) && first_parent(entry, entry_type).is_some()
}
