//! The characters of selectors, and texts cut where a name ends.

ghost use Rattle.std.specs.Prelude.{◌≡◌};
ghost use Rattle.std.specs.Str.{chars};
ghost use Rattle.laws.specs.Runs.{prefix_of, after};
ghost use Rattle.literature.specs.Tokens.{is_name_character, is_sign};

use texts::{CharacterClass, split_run};

/// Whether the character may stand in a name: an ASCII letter, a digit, a hyphen or an underscore.
pub(crate) fn is_name_character(c: char) -> bool
    ensures { result ≡ is_name_character c }
{
    c.is_ascii_alphanumeric() || c == '-' || c == '_'
}

/// Whether the character is a sign of the language.
pub(crate) fn is_sign(c: char) -> bool
    ensures { result ≡ is_sign c }
{
    matches!(
        c,
        '*' | '|' | '&' | '>' | '!' | ':' | ',' | '[' | ']' | '(' | ')'
    )
}

/// The characters of names.
#[derive(Clone, Copy)]
struct Name;

impl CharacterClass for Name {
    ghost passes = { λ _ c. is_name_character c };

    fn contains(self, c: char) -> bool {
        is_name_character(c)
    }
}

/// The longest prefix that is of a name, and what follows it.
pub(crate) fn split_name(text: &str) -> (&str, &str)
    ensures prefix { chars result.0.now ≡ prefix_of is_name_character (chars text.now) }
    ensures rest { chars result.1.now ≡ after is_name_character (chars text.now) }
{
    split_run(text, Name)
}
