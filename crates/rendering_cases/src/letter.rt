//! Characters in a case.

ghost use Rattle.std.specs.Prelude.{◌≡◌, ◌++◌, OnOk, option_to_list};
ghost use Rattle.std.specs.Char.Iter.{case_mapping_chars};
ghost use Rattle.std.specs.Char.Unicode.ToLowercase.{to_lowercase};
ghost use Rattle.std.specs.Char.Unicode.ToUppercase.{to_uppercase};
ghost use Rattle.laws.specs.Text.{characters};
ghost use Rattle.rendering_cases.specs.Cases.{raised_if};

use std::alloc::AllocError;
use std::char::ToLowercase;
use texts::push_character;

/// Appends a character as a capital, or as it is.
pub(crate) fn push_raised_if(
    output: &mut String,
    is_raised: bool,
    c: char,
) -> Result<(), AllocError>
    ensures { OnOk result (characters output.new ≡ characters output.old ++ raised_if is_raised c) }
{
    if is_raised {
        push_raised(output, c)
    } else {
        push_character(output, c)
    }
}

/// Appends a character as a capital.
pub(crate) fn push_raised(output: &mut String, c: char) -> Result<(), AllocError>
    ensures { OnOk result (characters output.new ≡ characters output.old ++ to_uppercase c) }
{
    push_mapping(output, c.to_uppercase())
}

/// Appends a character as a small one.
pub(crate) fn push_lowered(output: &mut String, c: char) -> Result<(), AllocError>
    ensures { OnOk result (characters output.new ≡ characters output.old ++ to_lowercase c) }
{
    push_mapping(output, c.to_lowercase())
}

/// Appends what stands for a character in the other case, at most three characters. `ToUppercase` is this same type.
fn push_mapping(output: &mut String, mut mapping: ToLowercase) -> Result<(), AllocError>
    ensures { OnOk result (characters output.new
        ≡ characters output.old ++ case_mapping_chars mapping) }
{
    let first = mapping.next();
    let second = mapping.next();
    let third = mapping.next();
    push_some(output, first)?;
    push_some(output, second)?;
    push_some(output, third)
}

/// Appends a character, if there is one.
fn push_some(output: &mut String, c: Option<char>) -> Result<(), AllocError>
    ensures { OnOk result (characters output.new ≡ characters output.old ++ option_to_list c) }
{
    match c {
        Some(c) => push_character(output, c),
        None => Ok(()),
    }
}
