//! Whether two entries answer alike.

ghost use Rattle.std.specs.Prelude.{◌≡◌, ◌↔◌, IsTrue, IfOk};
ghost use Rattle.std.specs.List.{AllByRecursion};
ghost use Rattle.rendering_nodes.specs.Named.{AnswerAlike, AreAlike};
ghost use Rattle.rendering_taxonomy.specs.declared.variable.Variable.TheVariants as variables;
ghost use Rattle.rendering_alike.specs.Naming.{names_view};

use crate::equal::{
    are_one_date, are_one_list, are_one_number, are_one_range, are_one_text, are_one_writing,
};
use crate::names::StyleNames;
use rendering_entries::EntryLike;
use rendering_taxonomy::{
    DateVariable, Kind, LongShortForm, NameVariable, NumberVariable, StandardVariable, Variable,
};
use std::alloc::{AllocError, Global};

/// Whether two entries answer alike, in all forms, to the variables and kinds that a style names, and to whether they are in English. Each
/// is asked once.
///
/// # Errors
/// Out of memory.
pub fn answer_alike<E: EntryLike>(
    alloc: Global,
    names: &StyleNames,
    one: &E,
    other: &E,
) -> Result<bool, AllocError>
    ensures { IfOk result (λ yes. IsTrue yes
        ↔ AreAlike (names_view names.now) (E.answers one.now) (E.answers other.now)) }
{
    if !are_in_one_language(one, other) {
        return Ok(false);
    }
    if !are_of_one_kind(&names.kinds, one, other) {
        return Ok(false);
    }
    if !answer_all_alike(alloc, &names.variables, one, other)? {
        return Ok(false);
    }
    are_all_written_alike(alloc, &names.written, one, other)
}

/// Whether two entries say the same of whether they are in English.
fn are_in_one_language<E: EntryLike>(one: &E, other: &E) -> bool
    ensures { IsTrue result ↔ ((E.answers one.now).english ≡ (E.answers other.now).english) }
{
    one.is_english() == other.is_english()
}

/// Whether two entries are of the same ones of some kinds.
fn are_of_one_kind<E: EntryLike>(kinds: &[Kind], one: &E, other: &E) -> bool
    ensures { IsTrue result ↔ AllByRecursion
        (λ k. (E.answers one.now).kind k ≡ (E.answers other.now).kind k) kinds.now }
{
    for kind in kinds {
        if !is_kind_of_both(*kind, one, other) {
            return false;
        }
    }
    true
}

/// Whether two entries are of a kind, or neither is.
fn is_kind_of_both<E: EntryLike>(kind: Kind, one: &E, other: &E) -> bool
    ensures { IsTrue result ↔ ((E.answers one.now).kind kind ≡ (E.answers other.now).kind kind) }
{
    one.matches_entry_type(kind) == other.matches_entry_type(kind)
}

/// Whether two entries answer alike to each of some variables.
fn answer_all_alike<E: EntryLike>(
    alloc: Global,
    variables: &[Variable],
    one: &E,
    other: &E,
) -> Result<bool, AllocError>
    ensures { IfOk result (λ yes. IsTrue yes ↔ AllByRecursion
        (AnswerAlike (E.answers one.now) (E.answers other.now)) variables.now) }
{
    for variable in variables {
        if !answer_one_alike(alloc, *variable, one, other)? {
            return Ok(false);
        }
    }
    Ok(true)
}

/// Whether the numbers and pages of two entries that these variables are were written alike.
fn are_all_written_alike<E: EntryLike>(
    alloc: Global,
    variables: &[Variable],
    one: &E,
    other: &E,
) -> Result<bool, AllocError>
    ensures { IfOk result (λ yes. IsTrue yes ↔ AllByRecursion
        (λ v. (E.answers one.now).written v ≡ (E.answers other.now).written v) variables.now) }
{
    for variable in variables {
        if !are_written_alike(alloc, *variable, one, other)? {
            return Ok(false);
        }
    }
    Ok(true)
}

/// Whether two entries answer alike to a variable.
fn answer_one_alike<E: EntryLike>(
    alloc: Global,
    variable: Variable,
    one: &E,
    other: &E,
) -> Result<bool, AllocError>
    ensures { IfOk result (λ yes. IsTrue yes
        ↔ AnswerAlike (E.answers one.now) (E.answers other.now) variable) }
{
    match variable {
        Variable::Standard(variable) => have_one_text(alloc, variable, one, other),
        Variable::Number(variable) => have_one_number(alloc, variable, one, other),
        Variable::Page => have_one_range(alloc, one, other),
        Variable::Name(variable) => have_one_list(alloc, variable, one, other),
        Variable::Date(variable) => Ok(have_one_date(variable, one, other)),
    }
}

/// Whether two entries have one text of a variable, in the long form and in the short one.
fn have_one_text<E: EntryLike>(
    alloc: Global,
    variable: StandardVariable,
    one: &E,
    other: &E,
) -> Result<bool, AllocError>
    ensures { IfOk result (λ yes. IsTrue yes
        ↔ AnswerAlike (E.answers one.now) (E.answers other.now) (variables.Standard variable)) }
{
    if !have_one_text_in(alloc, LongShortForm::Long, variable, one, other)? {
        return Ok(false);
    }
    have_one_text_in(alloc, LongShortForm::Short, variable, one, other)
}

/// Whether two entries have one text of a variable in a form.
fn have_one_text_in<E: EntryLike>(
    alloc: Global,
    form: LongShortForm,
    variable: StandardVariable,
    one: &E,
    other: &E,
) -> Result<bool, AllocError>
    ensures { IfOk result (λ yes. IsTrue yes ↔ ((E.answers one.now).standard form variable
        ≡ (E.answers other.now).standard form variable)) }
{
    let text = one.resolve_standard_variable(alloc, form, variable)?;
    let other_text = other.resolve_standard_variable(alloc, form, variable)?;
    Ok(are_one_text(&text, &other_text))
}

/// Whether two entries have one number of a variable.
fn have_one_number<E: EntryLike>(
    alloc: Global,
    variable: NumberVariable,
    one: &E,
    other: &E,
) -> Result<bool, AllocError>
    ensures { IfOk result (λ yes. IsTrue yes
        ↔ ((E.answers one.now).number variable ≡ (E.answers other.now).number variable)) }
{
    let number = one.resolve_number_variable(alloc, variable)?;
    let other_number = other.resolve_number_variable(alloc, variable)?;
    Ok(are_one_number(&number, &other_number))
}

/// Whether two entries have the same pages.
fn have_one_range<E: EntryLike>(alloc: Global, one: &E, other: &E) -> Result<bool, AllocError>
    ensures { IfOk result (λ yes. IsTrue yes
        ↔ ((E.answers one.now).pages ≡ (E.answers other.now).pages)) }
{
    let pages = one.resolve_page_variable(alloc)?;
    let other_pages = other.resolve_page_variable(alloc)?;
    Ok(are_one_range(&pages, &other_pages))
}

/// Whether the number or the pages of two entries are written as one text, or of neither a text is known.
fn are_written_alike<E: EntryLike>(
    alloc: Global,
    variable: Variable,
    one: &E,
    other: &E,
) -> Result<bool, AllocError>
    ensures { IfOk result (λ yes. IsTrue yes
        ↔ ((E.answers one.now).written variable ≡ (E.answers other.now).written variable)) }
{
    let text = one.resolve_written(alloc, variable)?;
    let other_text = other.resolve_written(alloc, variable)?;
    Ok(are_one_writing(&text, &other_text))
}

/// Whether two entries have the same people of a variable.
fn have_one_list<E: EntryLike>(
    alloc: Global,
    variable: NameVariable,
    one: &E,
    other: &E,
) -> Result<bool, AllocError>
    ensures { IfOk result (λ yes. IsTrue yes
        ↔ ((E.answers one.now).people variable ≡ (E.answers other.now).people variable)) }
{
    let people = one.resolve_name_variable(alloc, variable)?;
    let other_people = other.resolve_name_variable(alloc, variable)?;
    Ok(are_one_list(&people, &other_people))
}

/// Whether two entries have one date of a variable.
fn have_one_date<E: EntryLike>(variable: DateVariable, one: &E, other: &E) -> bool
    ensures { IsTrue result
        ↔ ((E.answers one.now).date variable ≡ (E.answers other.now).date variable) }
{
    are_one_date(
        &one.resolve_date_variable(variable),
        &other.resolve_date_variable(variable),
    )
}
