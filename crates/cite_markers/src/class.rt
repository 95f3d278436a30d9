//! Classes of characters in a marker.

ghost use Rattle.std.specs.Prelude.{◌≡◌};
ghost use Rattle.laws.specs.Runs.{prefix_of, after};
ghost use Rattle.laws.specs.Text.{spelled};
ghost use Rattle.texts.specs.Views.{left};
ghost use Rattle.cite_markers.specs.Character.{passes};

use texts::{CharacterClass, Reader, split_run};

/// What a character of a marker may be part of.
#[derive(Clone, Copy)]
pub(crate) enum Class {
    /// The word of a purpose or of a label: letters and hyphens.
    Word,
    /// The name of a work: no white space, semicolon or closing bracket.
    Name,
    /// The value of a locator: no semicolon, closing bracket or end of line.
    Value,
}

impl CharacterClass for Class {
    ghost passes = { passes };

    #[tactic(auto, unfolding(crate::specs::Character::passes))]
    fn contains(self, c: char) -> bool {
        match self {
            Class::Word => c.is_ascii_alphabetic() || c == '-',
            Class::Name => !(c.is_whitespace() || matches!(c, ';' | ']')),
            Class::Value => !matches!(c, ';' | ']' | '\r' | '\n'),
        }
    }
}

/// Reads the longest run of characters of the class; it may be empty.
pub(crate) fn run<'s>(reader: &mut Reader<'s>, class: Class) -> &'s str
    ensures prefix { spelled result ≡ prefix_of (passes class) (left reader.old) }
    ensures rest { left reader.new ≡ after (passes class) (left reader.old) }
{
    let (prefix, rest) = split_run(reader.rest, class);
    reader.rest = rest;
    prefix
}
