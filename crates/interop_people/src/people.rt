//! The people that contents name, as people of a library.

ghost use Rattle.std.specs.Prelude.{◌≡◌, map, IfOk, Some};
ghost use Rattle.std.specs.Option.{option_map};
ghost use Rattle.laws.specs.Text.{characters, if_filled};
ghost use Rattle.biblatex_content.specs.Views.{styled};
ghost use Rattle.biblatex_lists.specs.Views.{named_view};
ghost use Rattle.literature_values.specs.PersonViews.{person_view};
ghost use Rattle.literature_entries.specs.Views.{people_view};
ghost use Rattle.interop_people.specs.People.{person_of, people_of};

use biblatex_content::{Chunk, Spanned};
use biblatex_lists::{Person as SourcePerson, read_people};
use literature_values::Person;
use std::alloc::{AllocError, Global};
use texts::has_text;

/// The people that a content names, if there are any.
#[inline(never)]
pub fn people_in(alloc: Global, value: &[Spanned<Chunk>]) -> Result<Option<Vec<Person>>, AllocError>
    ensures { IfOk result (λ p. option_map (λ v. people_view v.items) p
        ≡ people_of (Some (styled value.now))) }
{
    let people = read_people(alloc, value)?;
    if people.is_empty() {
        return Ok(None);
    }
    Ok(Some(people_of(alloc, people)?))
}

/// People as a library holds them.
fn people_of(alloc: Global, read: Vec<SourcePerson>) -> Result<Vec<Person>, AllocError>
    ensures { IfOk result (λ v. people_view v.items ≡ map person_of (map named_view read.items)) }
{
    let mut all = Vec::with_capacity(alloc, read.len())?;
    for person in read {
        all.push(person_of(person))?;
    }
    Ok(all)
}

/// A person as a library holds one.
fn person_of(read: SourcePerson) -> Person
    ensures { person_view result ≡ person_of (named_view read) }
{
    Person {
        name: read.name,
        given_name: part(read.given_name),
        prefix: part(read.prefix),
        suffix: part(read.suffix),
    }
}

/// A part of a name; an empty one is absent.
fn part(text: String) -> Option<String>
    ensures { option_map characters result ≡ if_filled (characters text) }
{
    if has_text(text.as_str()) {
        return Some(text);
    }
    None
}
