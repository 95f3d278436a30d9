//! People of entries.

ghost use Rattle.std.specs.Prelude.{◌≡◌, ◌++◌, map, option_and_then, IfOk, OnOk};
ghost use Rattle.literature_values.specs.PersonViews.{person_view as person_of, lent_person_view};
ghost use Rattle.literature_entries.specs.Views.{fields_view, people_view, view_in};
ghost use Rattle.rendering_entries.specs.Library.{people_or_none, people_answer};
ghost use Rattle.rendering_entries.specs.Views.{entry_ancestry};
ghost use Rattle.rendering_entries.specs.Works.{container};

use crate::nearest::nearest_editor;
use crate::works::container;
use literature_entries::Entry;
use literature_values::Person;
use rendering_taxonomy::NameVariable;
use std::alloc::{AllocError, Global};
use std::borrow::Cow;

/// The people of a variable. Entries have none for other variables.
///
/// # Errors
/// Out of memory.
pub(crate) fn people_answer(
    alloc: Global,
    entry: &Entry,
    variable: NameVariable,
) -> Result<Vec<Cow<'_, Person>>, AllocError>
    ensures { IfOk result (λ ps. map lent_person_view ps.items
        ≡ people_answer (entry_ancestry entry.now) variable) }
{
    match variable {
        NameVariable::Author => borrowed_people(alloc, entry.author()),
        NameVariable::ContainerAuthor => borrowed_people(alloc, container_author(entry)),
        NameVariable::Editor => borrowed_people(alloc, nearest_editor(entry)?),
        NameVariable::Translator => borrowed_people(alloc, entry.translator()),
        _ => Ok(Vec::new(alloc)),
    }
}

fn container_author(entry: &Entry) -> Option<&[Person]>
    ensures { view_in people_view result
        ≡ option_and_then (λ fs. fs.author) (container (entry_ancestry entry.now)) }
{
    container(entry)?.author()
}

/// The people, borrowed, or none.
fn borrowed_people<'a>(
    alloc: Global,
    list: Option<&'a [Person]>,
) -> Result<Vec<Cow<'a, Person>>, AllocError>
    ensures { IfOk result (λ ps. map lent_person_view ps.items
        ≡ people_or_none (view_in people_view list.entry)) }
{
    let mut all = Vec::new(alloc);
    push_people(&mut all, people_or_none(list))?;
    Ok(all)
}

/// Appends people, borrowed.
fn push_people<'a>(all: &mut Vec<Cow<'a, Person>>, list: &'a [Person]) -> Result<(), AllocError>
    ensures { OnOk result (map lent_person_view all.new.items
        ≡ map lent_person_view all.old.items ++ map person_of list.now) }
{
    for person in list {
        all.push(Cow::Borrowed(person))?;
    }
    Ok(())
}

/// The people of a list that may be there.
pub(crate) fn people_or_none(list: Option<&[Person]>) -> &[Person]
    ensures { map person_of result.now ≡ people_or_none (view_in people_view list.entry) }
{
    match list {
        Some(list) => list,
        None => &[],
    }
}
