//! Classes of characters of XML, and of its namespaces.

ghost use Rattle.std.specs.Prelude.{◌≡◌};
ghost use Rattle.std.specs.Str.{chars};
ghost use Rattle.xml_text.specs.Character.{passes, lies_in_one, name_start_ranges, name_more_ranges, legal_ranges};
ghost use Rattle.xml_text.specs.declared.character.Class.TheVariants.{NameStart, NameCharacter, Legal};

use texts::CharacterClass;

/// What a character may be part of.
#[derive(Clone, Copy)]
pub(crate) enum Class {
    /// A text of XML.
    Legal,
    /// White space.
    Space,
    /// The first of a name, or the first after its colon.
    NameStart,
    /// The others of a name, but for a colon.
    NameCharacter,
    /// A decimal digit.
    Digit,
    /// A hexadecimal digit.
    HexDigit,
    /// A value between double quotes, but for references.
    DoubleQuoted,
    /// A value between single quotes, but for references.
    SingleQuoted,
}

/// A quote round a value.
#[derive(Clone, Copy)]
pub(crate) enum Quote {
    Double,
    Single,
}

/// Whether the character may stand in a text of XML.
#[inline(always)]
fn is_legal(c: char) -> bool
    ensures { result ≡ lies_in_one legal_ranges c }
{
    matches!(c, '\t'..='\n' | '\r' | ' '..='\u{d7ff}' | '\u{e000}'..='\u{fffd}' | '\u{10000}'..='\u{10ffff}')
}

/// Whether a name may begin with the character.
#[inline(always)]
fn is_name_start(c: char) -> bool
    ensures { result ≡ lies_in_one name_start_ranges c }
{
    matches!(
        c,
        'A'..='Z'
            | '_'
            | 'a'..='z'
            | '\u{c0}'..='\u{d6}'
            | '\u{d8}'..='\u{f6}'
            | '\u{f8}'..='\u{2ff}'
            | '\u{370}'..='\u{37d}'
            | '\u{37f}'..='\u{1fff}'
            | '\u{200c}'..='\u{200d}'
            | '\u{2070}'..='\u{218f}'
            | '\u{2c00}'..='\u{2fef}'
            | '\u{3001}'..='\u{d7ff}'
            | '\u{f900}'..='\u{fdcf}'
            | '\u{fdf0}'..='\u{fffd}'
            | '\u{10000}'..='\u{effff}'
    )
}

/// Whether the character may stand in a name after its first, but not as its first.
#[inline(always)]
fn is_name_more(c: char) -> bool
    ensures { result ≡ lies_in_one name_more_ranges c }
{
    matches!(c, '-'..='.' | '0'..='9' | '\u{b7}' | '\u{300}'..='\u{36f}' | '\u{203f}'..='\u{2040}')
}

impl CharacterClass for Class {
    ghost passes = { passes };

    #[inline(always)]
    #[tactic(auto, unfolding(crate::specs::Character::passes))]
    fn contains(self, c: char) -> bool {
        match self {
            Class::Legal => is_legal(c),
            Class::Space => matches!(c, ' ' | '\t' | '\n' | '\r'),
            Class::NameStart => is_name_start(c),
            Class::NameCharacter => is_name_start(c) || is_name_more(c),
            Class::Digit => c.is_ascii_digit(),
            Class::HexDigit => c.is_ascii_hexdigit(),
            Class::DoubleQuoted => is_legal(c) && !matches!(c, '<' | '&' | '"'),
            Class::SingleQuoted => is_legal(c) && !matches!(c, '<' | '&' | '\''),
        }
    }
}
