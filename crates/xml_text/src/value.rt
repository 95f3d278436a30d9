//! What references, character data and values stand for.

ghost use Rattle.std.specs.Prelude.{◌≡◌, ◌<◌, ◌≤◌, min};
ghost use Rattle.std.specs.Char.{digit_value};
ghost use Rattle.std.specs.Str.{chars};
ghost use Rattle.std.specs.Str.Parse.{digits_value};
ghost use Rattle.xml_text.specs.Values.{entity_character, legal_character, character_of};
ghost use Rattle.xml_text.specs.Views.{reference_view};

use crate::character::Class;
use crate::fault::Fault;
use crate::reading::is_word;
use crate::token::Reference;
use texts::{CharacterClass, split_first};

/// The number past those of all characters.
const PAST_ALL: u32 = 0x110000;

/// The value of a digit; of what is no digit, 36.
fn digit_value(c: char) -> u32
    ensures value { result ≡ digit_value c }
    ensures small { result ≤ 36 }
{
    match c {
        '0'..='9' => c as u32 - 48,
        'A'..='Z' => c as u32 - 55,
        'a'..='z' => c as u32 - 87,
        _ => 36,
    }
}

/// The number that the digits write, or the number past those of all characters where it is greater.
fn number_of(digits: &str, radix: u32) -> u32
    requires some { 0 < radix }
    requires few { radix ≤ 16 }
    ensures { result ≡ min (digits_value radix (chars digits.now)) 0x110000 }
{
    let mut number = 0;
    let mut rest = digits;
    while let Some((c, more)) = split_first(rest) {
        number = (number * radix + digit_value(c)).min(PAST_ALL);
        rest = more;
    }
    number
}

/// The character of a number.
fn legal_character(number: u32) -> Result<char, Fault>
    ensures { result ≡ legal_character number }
{
    match char::from_u32(number) {
        Some(c) if Class::Legal.contains(c) => Ok(c),
        _ => Err(Fault::NoCharacter),
    }
}

/// The character of an entity that needs no declaration.
fn entity_character(name: &str) -> Result<char, Fault>
    ensures { result ≡ entity_character (chars name.now) }
{
    if is_word(name, "lt") {
        Ok('<')
    } else if is_word(name, "gt") {
        Ok('>')
    } else if is_word(name, "amp") {
        Ok('&')
    } else if is_word(name, "apos") {
        Ok('\'')
    } else if is_word(name, "quot") {
        Ok('"')
    } else {
        Err(Fault::UnknownEntity)
    }
}

impl<'s> Reference<'s> {
    /// The character that it stands for.
    ///
    /// # Errors
    /// `UnknownEntity` for the name of no entity that needs no declaration, `NoCharacter` for the number of no character of XML.
    pub fn character(self) -> Result<char, Fault>
        ensures { result ≡ character_of (reference_view self.entry) }
    {
        match self {
            Reference::Entity(name) => entity_character(name),
            Reference::Decimal(digits) => legal_character(number_of(digits, 10)),
            Reference::Hexadecimal(digits) => legal_character(number_of(digits, 16)),
        }
    }
}
