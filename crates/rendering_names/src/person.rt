//! A single name as a text.

ghost use Rattle.std.specs.Prelude.{◌≡◌, ◌∷◌, [], IfOk, OnOk, false, true, if◌then◌else◌};
ghost use Rattle.std.specs.Str.{chars};
ghost use Rattle.laws.specs.Characters.{space};
ghost use Rattle.laws.specs.Text.{characters, spelled, is_filled};
ghost use Rattle.literature_values.specs.PersonViews.{person_view};
ghost use Rattle.rendering_names.specs.Persons.{joined, short_text, straight, inverted_by, long_text, initials_by, person_text};
ghost use Rattle.rendering_names.specs.Views.{resolved_options_view};

use crate::options::ResolvedNameOptions;
use crate::words::space;
use literature_values::Person;
use rendering_taxonomy::DisambiguatedNameForm;
use std::alloc::{AllocError, Global};
use texts::{empty_text, has_text, push_text, text_or_empty};

/// The text of a name in a form, inverted or not.
pub(crate) fn person_text(
    alloc: Global,
    options: &ResolvedNameOptions,
    is_inverted: bool,
    form: DisambiguatedNameForm,
    person: &Person,
) -> Result<String, AllocError>
    ensures { IfOk result (λ s. characters s ≡ person_text
        (resolved_options_view options.now) is_inverted form (person_view person.now)) }
{
    match form {
        DisambiguatedNameForm::LongFull => {
            let given = text_or_empty(&person.given_name);
            long_text(alloc, options, is_inverted, given, person)
        }
        DisambiguatedNameForm::LongInitialized => {
            initialized_text(alloc, options, is_inverted, person)
        }
        DisambiguatedNameForm::Count
        | DisambiguatedNameForm::ShortInitialized
        | DisambiguatedNameForm::ShortFull => short_text(alloc, person),
    }
}

/// Particle and family name.
pub(crate) fn short_text(alloc: Global, person: &Person) -> Result<String, AllocError>
    ensures { IfOk result (λ s. characters s ≡ short_text (person_view person.now)) }
{
    let mut out = empty_text(alloc);
    push_part(&mut out, space(), text_or_empty(&person.prefix))?;
    push_part(&mut out, space(), person.name.as_str())?;
    Ok(out)
}

/// A name with initials, inverted or not.
fn initialized_text(
    alloc: Global,
    options: &ResolvedNameOptions,
    is_inverted: bool,
    person: &Person,
) -> Result<String, AllocError>
    ensures { IfOk result (λ s. characters s ≡ long_text (resolved_options_view options.now)
        is_inverted (initials_by (resolved_options_view options.now) (person_view person.now))
        (person_view person.now)) }
{
    let initials = initials(alloc, options, person)?;
    long_text(alloc, options, is_inverted, initials.as_str(), person)
}

/// The given name with initials.
pub(crate) fn initials(
    alloc: Global,
    options: &ResolvedNameOptions,
    person: &Person,
) -> Result<String, AllocError>
    ensures { IfOk result (λ s. characters s
        ≡ initials_by (resolved_options_view options.now) (person_view person.now)) }
{
    let mut out = empty_text(alloc);
    let rule = options.initials_rule();
    let hyphens = options.keeps_hyphens();
    match person.initials_by(rule, &mut out, Some(options.after_initials()), hyphens) {
        Ok(()) => Ok(out),
        Err(_) => Err(AllocError),
    }
}

/// A name with this given name, inverted or not.
fn long_text(
    alloc: Global,
    options: &ResolvedNameOptions,
    is_inverted: bool,
    given: &str,
    person: &Person,
) -> Result<String, AllocError>
    ensures { IfOk result (λ s. characters s ≡ long_text (resolved_options_view options.now)
        is_inverted (chars given.now) (person_view person.now)) }
{
    if !is_inverted {
        return straight(alloc, given, person);
    }
    let separator = options.sort_separator();
    if options.demote_non_dropping_particle.unwrap_or(false) {
        demoted(alloc, separator, given, person)
    } else {
        inverted(alloc, separator, given, person)
    }
}

/// Given name, particle, family name, suffix.
fn straight(alloc: Global, given: &str, person: &Person) -> Result<String, AllocError>
    ensures { IfOk result (λ s. characters s
        ≡ straight (chars given.now) (person_view person.now)) }
{
    let mut out = text_with_room(alloc)?;
    push_part(&mut out, space(), given)?;
    push_part(&mut out, space(), text_or_empty(&person.prefix))?;
    push_part(&mut out, space(), person.name.as_str())?;
    push_part(&mut out, space(), text_or_empty(&person.suffix))?;
    Ok(out)
}

/// Particle and family name, given name, suffix, with the separator between.
fn inverted(
    alloc: Global,
    separator: &str,
    given: &str,
    person: &Person,
) -> Result<String, AllocError>
    ensures { IfOk result (λ s. characters s
        ≡ inverted_by false (chars separator.now) (chars given.now) (person_view person.now)) }
{
    let mut out = text_with_room(alloc)?;
    push_part(&mut out, space(), text_or_empty(&person.prefix))?;
    push_part(&mut out, space(), person.name.as_str())?;
    push_part(&mut out, separator, given)?;
    push_part(&mut out, separator, text_or_empty(&person.suffix))?;
    Ok(out)
}

/// Family name, given name and particle, suffix, with the separator between.
#[tactic(auto, using(crate::proofs::PersonsJoined::particle_after_given))]
fn demoted(
    alloc: Global,
    separator: &str,
    given: &str,
    person: &Person,
) -> Result<String, AllocError>
    ensures { IfOk result (λ s. characters s
        ≡ inverted_by true (chars separator.now) (chars given.now) (person_view person.now)) }
{
    let mut out = text_with_room(alloc)?;
    push_part(&mut out, separator, person.name.as_str())?;
    push_part(&mut out, separator, given)?;
    push_part(
        &mut out,
        after_given(separator, given),
        text_or_empty(&person.prefix),
    )?;
    push_part(&mut out, separator, text_or_empty(&person.suffix))?;
    Ok(out)
}

/// What stands before a particle after a given name: a space, or the separator where there is no given name.
pub(crate) fn after_given<'a>(separator: &'a str, given: &str) -> &'a str
    ensures { spelled result
        ≡ (if is_filled (chars given.now) then space ∷ [] else spelled separator.entry) }
{
    if has_text(given) { space() } else { separator }
}

/// No text, with room for most names.
fn text_with_room(alloc: Global) -> Result<String, AllocError>
    ensures { IfOk result (λ s. characters s ≡ []) }
{
    let text = String::with_capacity(alloc, 32)?;
    Ok(text)
}

/// Appends a part of a name, after what stands between two parts. A part that is empty is none.
fn push_part(out: &mut String, between: &str, part: &str) -> Result<(), AllocError>
    ensures { OnOk result (characters out.new
        ≡ joined (chars between.now) (characters out.old) (chars part.now)) }
{
    if !has_text(part) {
        return Ok(());
    }
    if has_text(out.as_str()) {
        push_text(out, between)?;
    }
    push_text(out, part)
}
