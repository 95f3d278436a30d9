//! The classes of characters of a field.

ghost use Rattle.std.specs.Prelude.{◌≡◌, ◌++◌, ◌∷◌, [], MatchOption};
ghost use Rattle.std.specs.Str.{chars};
ghost use Rattle.laws.specs.Runs.{prefix_of, after};
ghost use Rattle.biblatex_tex.specs.Character.{is_blank, is_plain, passes};

use texts::CharacterClass;

/// What a character may be part of.
#[derive(Clone, Copy)]
pub enum Class {
    /// A space, a tab, a line feed, a form feed or a carriage return.
    Blank,
    /// An ASCII letter.
    Letter,
    /// A hyphen.
    Hyphen,
    /// A character that begins nothing but itself.
    Plain,
}

impl CharacterClass for Class {
    ghost passes = { passes };

    #[tactic(auto, unfolding(crate::specs::Character::passes))]
    fn contains(self, c: char) -> bool {
        match self {
            Class::Blank => is_blank(c),
            Class::Letter => c.is_ascii_alphabetic(),
            Class::Hyphen => c == '-',
            Class::Plain => is_plain(c),
        }
    }
}

/// Whether the character is a space, a tab, a line feed, a form feed or a carriage return.
pub fn is_blank(c: char) -> bool
    ensures { result ≡ is_blank c }
{
    matches!(c, ' ' | '\t' | '\n' | '\x0c' | '\r')
}

/// Whether the character begins nothing but itself. Most characters of a field are small letters, which are tested
/// first.
fn is_plain(c: char) -> bool
    ensures { result ≡ is_plain c }
{
    match c {
        'a'..='z' => true,
        _ => !matches!(c, '\\' | '{' | '}' | '$' | '~' | '-'),
    }
}
