//! The names of people.

ghost use Rattle.std.specs.Prelude.{◌≡◌, ◌++◌, [], map, slice_get, OnOk};
ghost use Rattle.std.specs.List.{flat_map};
ghost use Rattle.std.specs.Option.{option_map, option_map_or};
ghost use Rattle.laws.specs.Text.{characters, spelled};
ghost use Rattle.literature_values.specs.PersonViews.{person_view};
ghost use Rattle.rendering_taxonomy.specs.Variables.{is_name_variable};
ghost use Rattle.rendering_tree.specs.Views.{answered_view, meta_view};
ghost use Rattle.driver_blocks.specs.Key.{names_in, people_text};
ghost use Rattle.driver_blocks.specs.Shown.{name_at, name_text, part_text, shown_name, variable_sign};

use literature_values::Person;
use rendering_taxonomy::NameVariable;
use rendering_tree::ElemMeta;
use std::alloc::AllocError;
use texts::{push_character, push_text};

/// Appends the names of all people that an element stands for.
pub(crate) fn push_people_of(text: &mut String, meta: &Option<ElemMeta>) -> Result<(), AllocError>
    ensures { OnOk result (characters text.new
        ≡ characters text.old ++ people_text (option_map meta_view meta.now)) }
{
    match meta {
        Some(ElemMeta::Names(variables)) => push_variables(text, variables),
        _ => Ok(()),
    }
}

/// Appends the names of the people of some variables.
fn push_variables(
    text: &mut String,
    variables: &[(Vec<Person>, NameVariable)],
) -> Result<(), AllocError>
    ensures { OnOk result (characters text.new
        ≡ characters text.old ++ names_in (map answered_view variables.now)) }
{
    for (people, _) in variables {
        push_people(text, people)?;
    }
    Ok(())
}

/// Appends the names of people.
fn push_people(text: &mut String, people: &[Person]) -> Result<(), AllocError>
    ensures { OnOk result (characters text.new
        ≡ characters text.old ++ flat_map name_text (map person_view people.now)) }
{
    for person in people {
        push_person(text, person)?;
    }
    Ok(())
}

/// Appends all parts of the name of a person, each on a line of its own.
fn push_person(text: &mut String, person: &Person) -> Result<(), AllocError>
    ensures { OnOk result (characters text.new
        ≡ characters text.old ++ name_text (person_view person.now)) }
{
    push_part(text, Some(person.name.as_str()))?;
    push_part(text, person.given_name.as_deref())?;
    push_part(text, person.prefix.as_deref())?;
    push_part(text, person.suffix.as_deref())
}

/// Appends a part of a name on a line of its own, which is empty where there is no such part.
fn push_part(text: &mut String, part: Option<&str>) -> Result<(), AllocError>
    ensures { OnOk result (characters text.new
        ≡ characters text.old ++ part_text (option_map spelled part.entry)) }
{
    push_character(text, '\n')?;
    match part {
        Some(part) => push_text(text, part),
        None => Ok(()),
    }
}

/// Appends the name of the person that an element stands for among these people, after a line with the variable.
pub(crate) fn push_shown_name(
    text: &mut String,
    variables: &[(Vec<Person>, NameVariable)],
    meta: &Option<ElemMeta>,
) -> Result<(), AllocError>
    ensures { OnOk result (characters text.new ≡ characters text.old
        ++ shown_name (map answered_view variables.now) (option_map meta_view meta.now)) }
{
    match meta {
        Some(ElemMeta::Name(variable, index)) => {
            push_character(text, '\n')?;
            push_character(text, variable_sign(*variable))?;
            push_name(text, variables, *variable, *index)
        }
        _ => Ok(()),
    }
}

/// Appends the name of the person at an index among those who answer a variable.
fn push_name(
    text: &mut String,
    variables: &[(Vec<Person>, NameVariable)],
    variable: NameVariable,
    index: usize,
) -> Result<(), AllocError>
    ensures { OnOk result (characters text.new ≡ characters text.old
        ++ flat_map (name_at variable index) (map answered_view variables.now)) }
{
    for answered in variables {
        push_name_of(text, answered, variable, index)?;
    }
    Ok(())
}

/// Appends the name of the person at an index, where the people answer that variable.
fn push_name_of(
    text: &mut String,
    answered: &(Vec<Person>, NameVariable),
    variable: NameVariable,
    index: usize,
) -> Result<(), AllocError>
    ensures { OnOk result (characters text.new
        ≡ characters text.old ++ name_at variable index (answered_view answered.now)) }
{
    if is_variable(variable, answered.1) {
        push_person_at(text, &answered.0, index)
    } else {
        Ok(())
    }
}

/// Appends the name of the person at an index, if there is one.
fn push_person_at(text: &mut String, people: &[Person], index: usize) -> Result<(), AllocError>
    ensures { OnOk result (characters text.new ≡ characters text.old
        ++ option_map_or name_text (slice_get (map person_view people.now) index) []) }
{
    match people.get(index) {
        Some(person) => push_person(text, person),
        None => Ok(()),
    }
}

/// A character for each variable, from the small a on.
fn variable_sign(variable: NameVariable) -> char
    ensures { result ≡ variable_sign variable }
{
    match variable {
        NameVariable::Author => 'a',
        NameVariable::Chair => 'b',
        NameVariable::CollectionEditor => 'c',
        NameVariable::Compiler => 'd',
        NameVariable::Composer => 'e',
        NameVariable::ContainerAuthor => 'f',
        NameVariable::Contributor => 'g',
        NameVariable::Curator => 'h',
        NameVariable::Director => 'i',
        NameVariable::Editor => 'j',
        NameVariable::EditorTranslator => 'k',
        NameVariable::EditorialDirector => 'l',
        NameVariable::ExecutiveProducer => 'm',
        NameVariable::Guest => 'n',
        NameVariable::Host => 'o',
        NameVariable::Illustrator => 'p',
        NameVariable::Interviewer => 'q',
        NameVariable::Narrator => 'r',
        NameVariable::Organizer => 's',
        NameVariable::OriginalAuthor => 't',
        NameVariable::Performer => 'u',
        NameVariable::Producer => 'v',
        NameVariable::Recipient => 'w',
        NameVariable::ReviewedAuthor => 'x',
        NameVariable::ScriptWriter => 'y',
        NameVariable::SeriesCreator => 'z',
        NameVariable::Translator => '{',
    }
}

/// Whether two variables are one.
fn is_variable(variable: NameVariable, other: NameVariable) -> bool
    ensures { result ≡ is_name_variable variable other }
{
    variable == other
}
