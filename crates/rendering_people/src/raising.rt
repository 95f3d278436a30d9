//! What is printed of people where others print more of them.

ghost use Rattle.std.specs.Prelude.{◌≡◌, ◌++◌, find, map, IfOk, OnOk};
ghost use Rattle.std.specs.Option.{option_map};
ghost use Rattle.rendering_taxonomy.specs.NameForms.{greater_form};
ghost use Rattle.rendering_taxonomy.specs.Variables.{is_name_variable};
ghost use Rattle.rendering_people.specs.Properties.{greater_forms, raised_to};
ghost use Rattle.rendering_people.specs.Raised.{forms_like, greater_or, is_same_count, raised_count, raised_forms};

use crate::properties::{NameDisambiguationProperties, PeopleCount, rank, split_forms};
use rendering_taxonomy::{DisambiguatedNameForm, NameVariable};
use std::alloc::{AllocError, Global};

impl NameDisambiguationProperties {
    /// The same people as far as others print more of them: where these are of the same variable and of as many people, each
    /// person in the greater form, and the greater number of people shown. Of several such variables the first counts.
    ///
    /// # Errors
    /// Out of memory alone.
    pub fn raised_to(
        &self,
        alloc: Global,
        others: &NameDisambiguationProperties,
    ) -> Result<NameDisambiguationProperties, AllocError>
        ensures { IfOk result (λ p. p ≡ raised_to others.now self.now) }
    {
        let counts = self.counts.as_slice();
        let forms = self.forms.as_slice();
        let other_counts = others.counts.as_slice();
        let other_forms = others.forms.as_slice();
        let raised = raised_counts(alloc, counts, other_counts)?;
        let run = raised_forms(alloc, counts, forms, other_counts, other_forms)?;
        Ok(NameDisambiguationProperties {
            counts: raised,
            forms: run,
        })
    }
}

/// The numbers of each variable, raised to those of others.
fn raised_counts(
    alloc: Global,
    counts: &[PeopleCount],
    others: &[PeopleCount],
) -> Result<Vec<PeopleCount>, AllocError>
    ensures { IfOk result (λ raised. raised.items ≡ map (raised_count others.now) counts.now) }
{
    let mut raised = Vec::with_capacity(alloc, counts.len())?;
    for count in counts {
        raised.push(raised_count(*count, others))?;
    }
    Ok(raised)
}

/// The numbers of a variable, raised to those of the first of others that is of the same variable and of as many people.
fn raised_count(count: PeopleCount, others: &[PeopleCount]) -> PeopleCount
    ensures { result ≡ raised_count others.now count }
{
    match same_count(count, others) {
        Some(other) => PeopleCount {
            shown: count.shown.max(other.shown).min(count.people),
            ..count
        },
        None => count,
    }
}

/// The first that is of the same variable and of as many people.
fn same_count(count: PeopleCount, others: &[PeopleCount]) -> Option<PeopleCount>
    ensures { result ≡ find (is_same_count count) others.now }
{
    for other in others {
        if is_same_count(count, *other) {
            return Some(*other);
        }
    }
    None
}

/// Whether two are of the same variable and of as many people.
fn is_same_count(count: PeopleCount, other: PeopleCount) -> bool
    ensures { result ≡ is_same_count count other }
{
    is_same_variable(count.variable, other.variable) && count.people == other.people
}

/// Whether two variables are the same.
fn is_same_variable(variable: NameVariable, other: NameVariable) -> bool
    ensures { result ≡ is_name_variable variable other }
{
    variable == other
}

/// The forms of all people, raised to those of others.
fn raised_forms(
    alloc: Global,
    counts: &[PeopleCount],
    forms: &[DisambiguatedNameForm],
    others: &[PeopleCount],
    other_forms: &[DisambiguatedNameForm],
) -> Result<Vec<DisambiguatedNameForm>, AllocError>
    ensures { IfOk result (λ raised. raised.items
        ≡ raised_forms counts.now forms.now others.now other_forms.now) }
{
    let mut raised = Vec::with_capacity(alloc, forms.len())?;
    let mut rest = forms;
    for count in counts {
        let (own, after) = split_forms(rest, count.people);
        push_greater(&mut raised, own, forms_like(*count, others, other_forms))?;
        rest = after;
    }
    Ok(raised)
}

/// The forms of the people of the first variable that is the same and has as many people; none where there is no such variable.
fn forms_like<'f>(
    count: PeopleCount,
    others: &[PeopleCount],
    forms: &'f [DisambiguatedNameForm],
) -> &'f [DisambiguatedNameForm]
    ensures { result.now ≡ forms_like count others.now forms.now }
{
    let mut rest = forms;
    for other in others {
        let (own, after) = split_forms(rest, other.people);
        if is_same_count(count, *other) {
            return own;
        }
        rest = after;
    }
    &[]
}

/// Appends the greater form at each index. Forms after the last of the others stay as they are.
fn push_greater(
    raised: &mut Vec<DisambiguatedNameForm>,
    forms: &[DisambiguatedNameForm],
    others: &[DisambiguatedNameForm],
) -> Result<(), AllocError>
    ensures { OnOk result (raised.new.items
        ≡ raised.old.items ++ greater_forms forms.now others.now) }
{
    for index in 0..forms.len() {
        raised.push(greater_or(forms[index], others.get(index)))?;
    }
    Ok(())
}

/// The greater of two forms, or the first alone.
fn greater_or(
    form: DisambiguatedNameForm,
    other: Option<&DisambiguatedNameForm>,
) -> DisambiguatedNameForm
    ensures { result ≡ greater_or form (option_map (λ f. f.now) other.entry) }
{
    match other {
        Some(other) => greater_form(form, *other),
        None => form,
    }
}

/// The greater of two forms.
fn greater_form(form: DisambiguatedNameForm, other: DisambiguatedNameForm) -> DisambiguatedNameForm
    ensures { result ≡ greater_form form other }
{
    if rank(form) < rank(other) {
        other
    } else {
        form
    }
}
