//! The people of name variables.

ghost use Rattle.std.specs.Prelude.{◌≡◌, map, IfOk};
ghost use Rattle.std.specs.Cow.{cow_value};
ghost use Rattle.literature_values.specs.PersonViews.{person_view};
ghost use Rattle.rendering_people.specs.Views.{lent_people_view, all_lent_answered_view};
ghost use Rattle.rendering_tree.specs.Metas as metas;
ghost use Rattle.rendering_tree.specs.Views.{meta_view};

use literature_values::Person;
use rendering_taxonomy::NameVariable;
use rendering_tree::ElemMeta;
use std::alloc::{AllocError, Global};
use std::borrow::Cow;

/// The people of a variable.
#[derive(Drop)]
pub struct Answered<'a> {
    pub people: Vec<Cow<'a, Person>>,
    pub variable: NameVariable,
}

/// A person who is borrowed or not.
pub fn borrowed_person<'p>(person: &'p Cow<'_, Person>) -> &'p Person
    ensures { result.now ≡ cow_value person.now }
{
    match person {
        Cow::Borrowed(person) => person,
        Cow::Owned(person) => person,
    }
}

/// The meta of an element for the names of these people.
///
/// # Errors
/// Out of memory.
pub fn names_meta(alloc: Global, people: &[Answered]) -> Result<ElemMeta, AllocError>
    ensures { IfOk result (λ m. meta_view m ≡ metas.Names (all_lent_answered_view people.now)) }
{
    let mut names = Vec::with_capacity(alloc, people.len())?;
    for answered in people {
        let copies = copied_people(alloc, answered.people.as_slice())?;
        names.push((copies, answered.variable))?;
    }
    Ok(ElemMeta::Names(names))
}

/// Copies of people.
fn copied_people(alloc: Global, people: &[Cow<'_, Person>]) -> Result<Vec<Person>, AllocError>
    ensures { IfOk result (λ copies. map person_view copies.items ≡ lent_people_view people.now) }
{
    let mut copies = Vec::with_capacity(alloc, people.len())?;
    for person in people {
        copies.push(borrowed_person(person).clone()?)?;
    }
    Ok(copies)
}
