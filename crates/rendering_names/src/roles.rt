//! Editors who are the translators too, and are printed once.

ghost use Rattle.std.specs.Prelude.{◌≡◌};
ghost use Rattle.std.specs.Cmp.Lexicographic.{pointwise};
ghost use Rattle.std.specs.List.{list_any};
ghost use Rattle.std.specs.Option.{option_map};
ghost use Rattle.literature_values.specs.PersonViews.{lent_person_view, person_view};
ghost use Rattle.rendering_taxonomy.specs.Variables.{is_name_variable};
ghost use Rattle.rendering_taxonomy.specs.declared.variable.NameVariable.TheVariants as roles;
ghost use Rattle.rendering_tree.specs.Metas.{Answered as SomePeople, is_person};
ghost use Rattle.rendering_people.specs.Views.{all_lent_answered_view, lent_people_view};
ghost use Rattle.rendering_names.specs.Roles.{are_one, is_left_out, is_role, label_term, merging, people_with};
ghost use Rattle.rendering_names.specs.Views.{names_parts_view};

use crate::parts::NamesParts;
use literature_values::Person;
use rendering_people::{Answered, borrowed_person};
use rendering_taxonomy::{NameVariable, OtherTerm, Term, Variable};
use std::borrow::Cow;

impl<'a> NamesParts<'a> {
    /// What the node says of these people: they are printed once, where it may print them so and they are editors and translators.
    pub(crate) fn merging(&self, people: &[Answered<'_>]) -> NamesParts<'a>
        ensures { names_parts_view result
            ≡ merging (names_parts_view self.now) (all_lent_answered_view people.now) }
    {
        NamesParts {
            merges_editor_translator: self.merges_editor_translator && edit_and_translate(people),
            ..*self
        }
    }

    /// The term of the label of a name variable.
    pub(crate) fn label_term(&self, variable: NameVariable) -> Term
        ensures { result ≡ label_term (names_parts_view self.now) variable }
    {
        if self.merges_editor_translator && is_role(variable) {
            Term::Other(OtherTerm::EditorTranslator)
        } else {
            Term::Variable(Variable::Name(variable))
        }
    }

    /// Whether the people of a variable after others are left out, as they were printed in their other role.
    pub(crate) fn leaves_out(&self, before: &[Answered<'_>], variable: NameVariable) -> bool
        ensures { result ≡ is_left_out (names_parts_view self.now)
            (all_lent_answered_view before.now) variable }
    {
        self.merges_editor_translator && is_role(variable) && have_role(before)
    }
}

/// Whether the same people edit and translate.
fn edit_and_translate(people: &[Answered<'_>]) -> bool
    ensures { result ≡ are_one (people_with roles.Editor (all_lent_answered_view people.now))
        (people_with roles.Translator (all_lent_answered_view people.now)) }
{
    are_one(
        people_with(NameVariable::Editor, people),
        people_with(NameVariable::Translator, people),
    )
}

/// The people of a variable, where it has some.
fn people_with<'p, 'c>(
    variable: NameVariable,
    people: &'p [Answered<'c>],
) -> Option<&'p [Cow<'c, Person>]>
    ensures { option_map (λ ps. lent_people_view ps.now) result
        ≡ people_with variable (all_lent_answered_view people.now) }
{
    for answered in people {
        if is_variable(variable, answered.variable) {
            return Some(answered.people.as_slice());
        }
    }
    None
}

/// Whether there are two lists of people, and these are the same.
fn are_one(people: Option<&[Cow<'_, Person>]>, others: Option<&[Cow<'_, Person>]>) -> bool
    ensures { result ≡ are_one (option_map (λ ps. lent_people_view ps.now) people.entry)
        (option_map (λ ps. lent_people_view ps.now) others.entry) }
{
    match (people, others) {
        (Some(people), Some(others)) => are_same(people, others),
        _ => false,
    }
}

/// Whether people are the same, one after the other.
fn are_same(people: &[Cow<'_, Person>], others: &[Cow<'_, Person>]) -> bool
    ensures { result
        ≡ pointwise is_person (lent_people_view people.now) (lent_people_view others.now) }
{
    if people.len() != others.len() {
        return false;
    }
    for index in 0..people.len() {
        if !is_same(&people[index], &others[index]) {
            return false;
        }
    }
    true
}

/// Whether two people have one name, in all its parts.
fn is_same(person: &Cow<'_, Person>, other: &Cow<'_, Person>) -> bool
    ensures { result ≡ is_person (lent_person_view person.now) (lent_person_view other.now) }
{
    is_person(borrowed_person(person), borrowed_person(other))
}

/// The same, of people who are borrowed.
fn is_person(person: &Person, other: &Person) -> bool
    ensures { result ≡ is_person (person_view person.now) (person_view other.now) }
{
    *person == *other
}

/// Whether some of these people edit or translate.
fn have_role(people: &[Answered<'_>]) -> bool
    ensures { result
        ≡ list_any (λ (a : SomePeople). is_role a.1) (all_lent_answered_view people.now) }
{
    for answered in people {
        if is_role(answered.variable) {
            return true;
        }
    }
    false
}

/// Whether a variable is that of editors or of translators.
fn is_role(variable: NameVariable) -> bool
    ensures { result ≡ is_role variable }
{
    is_variable(NameVariable::Editor, variable) || is_variable(NameVariable::Translator, variable)
}

/// Whether two variables are one.
fn is_variable(variable: NameVariable, other: NameVariable) -> bool
    ensures { result ≡ is_name_variable variable other }
{
    other == variable
}
