//! The values by which items are sorted where a key is a variable of people.

ghost use Rattle.std.specs.Prelude.{◌≡◌, ◌++◌, flat_map, map, IfOk, OnOk};
ghost use Rattle.std.specs.Option.{option_map};
ghost use Rattle.laws.specs.Text.{characters};
ghost use Rattle.literature_values.specs.PersonViews.{lent_person_view, person_view};
ghost use Rattle.rendering_sorting.specs.Values.{inverted, name_part, of_people, particle, particle_before, particle_behind};
ghost use Rattle.rendering_sorting.specs.Views.{value_view};

use crate::key::SortValue;
use crate::values::text_value;
use literature_values::Person;
use std::alloc::{AllocError, Global};
use std::borrow::Cow;
use texts::{empty_text, push_character, push_text};

/// The value of people, whose particles go behind or stay before their names.
pub(crate) fn people_value(
    alloc: Global,
    people: &[Cow<'_, Person>],
    goes_behind: bool,
) -> Result<Option<SortValue>, AllocError>
    ensures { IfOk result (λ v. option_map value_view v
        ≡ of_people goes_behind (map lent_person_view people.now)) }
{
    let mut text = empty_text(alloc);
    push_people(&mut text, people, goes_behind)?;
    text_value(alloc, text.as_str())
}

/// Appends the names of people, inverted.
fn push_people(
    text: &mut String,
    people: &[Cow<'_, Person>],
    goes_behind: bool,
) -> Result<(), AllocError>
    ensures { OnOk result (characters text.new ≡ characters text.old
        ++ flat_map (inverted goes_behind) (map lent_person_view people.now)) }
{
    for person in people {
        push_inverted(text, person, goes_behind)?;
    }
    Ok(())
}

/// Appends the name of a person, the family name first, and a space.
fn push_inverted(text: &mut String, person: &Person, goes_behind: bool) -> Result<(), AllocError>
    ensures { OnOk result (characters text.new
        ≡ characters text.old ++ inverted goes_behind (person_view person.now)) }
{
    push_particle_before(text, person, goes_behind)?;
    push_text(text, person.name.as_str())?;
    push_particle_behind(text, person, goes_behind)?;
    push_part(text, &person.given_name)?;
    push_part(text, &person.suffix)?;
    push_character(text, ' ')
}

/// Appends the particle of a name where it stays before it.
fn push_particle_before(
    text: &mut String,
    person: &Person,
    goes_behind: bool,
) -> Result<(), AllocError>
    ensures { OnOk result (characters text.new
        ≡ characters text.old ++ particle_before goes_behind (person_view person.now)) }
{
    if goes_behind {
        return Ok(());
    }
    push_particle(text, &person.prefix)
}

/// Appends a particle and a space, where there is one.
fn push_particle(text: &mut String, prefix: &Option<String>) -> Result<(), AllocError>
    ensures { OnOk result (characters text.new
        ≡ characters text.old ++ particle (option_map characters prefix.now)) }
{
    if let Some(prefix) = prefix {
        push_text(text, prefix.as_str())?;
        push_character(text, ' ')?;
    }
    Ok(())
}

/// Appends the particle of a name where it goes behind the family name.
fn push_particle_behind(
    text: &mut String,
    person: &Person,
    goes_behind: bool,
) -> Result<(), AllocError>
    ensures { OnOk result (characters text.new
        ≡ characters text.old ++ particle_behind goes_behind (person_view person.now)) }
{
    if goes_behind {
        push_part(text, &person.prefix)?;
    }
    Ok(())
}

/// Appends a part of a name behind a space, where there is one.
fn push_part(text: &mut String, part: &Option<String>) -> Result<(), AllocError>
    ensures { OnOk result (characters text.new
        ≡ characters text.old ++ name_part (option_map characters part.now)) }
{
    if let Some(part) = part {
        push_character(text, ' ')?;
        push_text(text, part.as_str())?;
    }
    Ok(())
}
