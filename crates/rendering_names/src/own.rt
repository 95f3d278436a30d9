//! What is printed of people by the options.

ghost use Rattle.std.specs.Prelude.{◌≡◌, ◌++◌, map, replicate, IfOk, OnOk};
ghost use Rattle.rendering_names.specs.Counts.{own_count, people_count};
ghost use Rattle.rendering_names.specs.Names.{properties_by};
ghost use Rattle.rendering_people.specs.Views.{all_lent_answered_view, lent_answered_view};
ghost use Rattle.rendering_names.specs.Views.{resolved_options_view};

use crate::options::ResolvedNameOptions;
use rendering_people::{Answered, NameDisambiguationProperties, PeopleCount};
use rendering_taxonomy::DisambiguatedNameForm;
use std::alloc::{AllocError, Global};

/// What the options print of people: of each variable so many as they say, in a first cite or in a subsequent one, and all
/// people in one form.
///
/// # Errors
/// Out of memory alone.
pub fn properties_by(
    alloc: Global,
    options: &ResolvedNameOptions,
    is_first: bool,
    people: &[Answered],
) -> Result<NameDisambiguationProperties, AllocError>
    ensures { IfOk result (λ p. p ≡ properties_by
        (resolved_options_view options.now) is_first (all_lent_answered_view people.now)) }
{
    let counts = own_counts(alloc, options, is_first, people)?;
    let forms = own_forms(alloc, people, options.base_form())?;
    Ok(NameDisambiguationProperties::new(counts, forms))
}

/// For each variable how many people it has and how many are shown.
fn own_counts(
    alloc: Global,
    options: &ResolvedNameOptions,
    is_first: bool,
    people: &[Answered],
) -> Result<Vec<PeopleCount>, AllocError>
    ensures { IfOk result (λ counts. counts.items
        ≡ map (own_count (resolved_options_view options.now) is_first)
        (all_lent_answered_view people.now)) }
{
    let mut counts = Vec::with_capacity(alloc, people.len())?;
    for answered in people {
        counts.push(own_count(options, is_first, answered))?;
    }
    Ok(counts)
}

/// How many people a variable has and how many are shown.
fn own_count(options: &ResolvedNameOptions, is_first: bool, answered: &Answered) -> PeopleCount
    ensures { result
        ≡ own_count (resolved_options_view options.now) is_first (lent_answered_view answered.now) }
{
    let people = answered.people.len();
    PeopleCount {
        variable: answered.variable,
        people,
        shown: options.shown(is_first, people),
    }
}

/// The form for each person.
fn own_forms(
    alloc: Global,
    people: &[Answered],
    form: DisambiguatedNameForm,
) -> Result<Vec<DisambiguatedNameForm>, AllocError>
    ensures { IfOk result (λ forms. forms.items
        ≡ replicate (people_count (all_lent_answered_view people.now)) form) }
{
    let mut forms = Vec::new(alloc);
    for answered in people {
        push_forms(&mut forms, answered.people.len(), form)?;
    }
    Ok(forms)
}

/// Appends a form for each of so many people.
fn push_forms(
    forms: &mut Vec<DisambiguatedNameForm>,
    count: usize,
    form: DisambiguatedNameForm,
) -> Result<(), AllocError>
    ensures { OnOk result (forms.new.items ≡ forms.old.items ++ replicate count form) }
{
    for _n in 0..count {
        forms.push(form)?;
    }
    Ok(())
}
