//! Characters of contents, as they are written.

ghost use Rattle.std.specs.Prelude.{◌≡◌, true};
ghost use Rattle.std.specs.Fmt.{WritesInCalls};
ghost use Rattle.std.specs.Str.{chars};
ghost use Rattle.laws.specs.Runs.{after};
ghost use Rattle.laws.specs.Text.{text as text_of};
ghost use Rattle.biblatex_tex.specs.Token.{begins_command};
ghost use Rattle.biblatex_content.specs.Writing.{written_character};
ghost use Rattle.biblatex_writing.specs.ContentPieces.{spelled, is_special, stands_as_it_is, written_in, LeavesSpelled};

use biblatex_content::is_escapable;
use sinks::Target;
use texts::{CharacterClass, split_first, split_run};

/// The characters that are written as they are, in a verbatim field or an ordinary one.
#[derive(Clone, Copy)]
struct AsItIs {
    is_verbatim: bool,
}

impl CharacterClass for AsItIs {
    ghost passes = { λ class c. stands_as_it_is class.is_verbatim c };

    fn contains(self, c: char) -> bool {
        !is_special(self.is_verbatim, c)
    }
}

/// Whether the character is written after a backslash, by a command, or as another one.
fn is_special(is_verbatim: bool, c: char) -> bool
    ensures { result ≡ is_special is_verbatim c }
{
    if is_verbatim {
        return is_escapable(c, true, false);
    }
    matches!(c, '\\' | '~' | '^' | '\u{a0}') || is_escapable(c, false, false)
}

/// Whether what is written of the character in an ordinary field begins with a backslash.
pub(crate) fn is_command(c: char) -> bool
    ensures { result ≡ begins_command (written_character c) }
{
    matches!(c, '\\' | '~' | '^') || is_escapable(c, false, false)
}

/// What is written of a character that is not written as it is.
fn spelling(is_verbatim: bool, c: char) -> &'static str
    requires { is_special is_verbatim c ≡ true }
    ensures { result.now ≡ written_in is_verbatim c }
{
    match c {
        '\\' if is_verbatim => "\\\\",
        '\\' => "\\textbackslash{}",
        '~' => "\\textasciitilde{}",
        '^' => "\\textasciicircum{}",
        '\u{a0}' => "~",
        '{' => "\\{",
        '}' => "\\}",
        '#' => "\\#",
        '&' => "\\&",
        '%' => "\\%",
        '$' => "\\$",
        _ => "\\_",
    }
}

/// Writes characters of a verbatim field or an ordinary one.
pub(crate) fn push_characters<T: Target>(target: &mut T, is_verbatim: bool, text: &str)
    ensures { WritesInCalls T.takes target.old
        (text_of (spelled is_verbatim (chars text.now))) target.new }
{
    let mut rest = push_run(target, is_verbatim, text);
    while let Some((c, more)) = split_first(rest) {
        target.push_str(spelling(is_verbatim, c));
        rest = push_run(target, is_verbatim, more);
    }
}

/// Writes the characters before the first that is not written as it is, in one go, and returns what follows them.
fn push_run<'t, T: Target>(target: &mut T, is_verbatim: bool, text: &'t str) -> &'t str
    ensures written { LeavesSpelled T.takes is_verbatim target.old
        (chars text.now) target.new (chars result.now) }
    ensures rest { chars result.now ≡ after (stands_as_it_is is_verbatim) (chars text.now) }
{
    let (run, rest) = split_run(text, AsItIs { is_verbatim });
    target.push_str(run);
    rest
}
