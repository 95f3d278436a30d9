//! The names that a field's text spells.

ghost use Rattle.std.specs.Prelude.{◌≡◌, ◌++◌, ◌∷◌, ◌<◌, ◌==◌, [], map, length, IfOk, OnOk, MatchOption, string_bytes, ⊤};
ghost use Rattle.std.specs.List.{slice_split};
ghost use Rattle.laws.specs.Characters.{comma};
ghost use Rattle.biblatex_entries.specs.Names.{trimmed, listed};

use std::alloc::{AllocError, Global};

/// The parts of a text between commas, without white space at their ends; empty ones are dropped.
pub fn names_listed(alloc: Global, text: &str) -> Result<Vec<String>, AllocError>
    ensures { IfOk result (λ v. map string_bytes v.items ≡ listed text.now) }
{
    let mut names = Vec::new(alloc);
    let mut rest = text;
    while let Some((name, more)) = split_comma(rest) {
        push_trimmed(alloc, &mut names, name)?;
        rest = more;
    }
    push_trimmed(alloc, &mut names, rest)?;
    Ok(names)
}

/// The one name that a text spells, without white space at its ends; none where nothing is left.
pub fn name_alone(alloc: Global, text: &str) -> Result<Vec<String>, AllocError>
    ensures { IfOk result (λ v. map string_bytes v.items ≡ trimmed text.now) }
{
    let mut names = Vec::new(alloc);
    push_trimmed(alloc, &mut names, text)?;
    Ok(names)
}

/// The text before the first comma, and what follows it.
fn split_comma(text: &str) -> Option<(&str, &str)>
    ensures parts { MatchOption result
        (slice_split (λ b. b == comma) text.now ≡ text.now ∷ [])
        (λ x. slice_split (λ b. b == comma) text.now
        ≡ x.0.now ∷ slice_split (λ b. b == comma) x.1.now) }
    ensures shorter { MatchOption result ⊤ (λ x. length x.1.now < length text.now) }
{
    text.split_once(',')
}

/// Appends a name, without white space at its ends, unless nothing is left.
pub(crate) fn push_trimmed(
    alloc: Global,
    names: &mut Vec<String>,
    name: &str,
) -> Result<(), AllocError>
    ensures { OnOk result (map string_bytes names.new.items
        ≡ map string_bytes names.old.items ++ trimmed name.now) }
{
    let name = name.trim();
    if name.is_empty() {
        return Ok(());
    }
    if names.is_empty() {
        names.reserve_exact(1)?;
    }
    Ok(names.push(String::from_str(alloc, name)?)?)
}
