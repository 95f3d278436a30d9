//! Reading names and references.

ghost use Rattle.std.specs.Prelude.{◌≡◌};
ghost use Rattle.laws.specs.Text.{spelled};
ghost use Rattle.texts.specs.Views.{left};
ghost use Rattle.xml_text.specs.Reading.{plain_name_at, local_at, name_at, entity_at, decimal_at, hexadecimal_at, number_at, reference_at};
ghost use Rattle.xml_text.specs.Views.{name_view, reference_view, Reads};

use crate::character::Class;
use crate::fault::Fault;
use crate::reading::{take_character, take_run};
use crate::token::{Name, Reference};
use texts::{Reader, split_first};

/// A name without a colon.
pub(crate) fn take_plain_name<'s>(reader: &mut Reader<'s>) -> Result<&'s str, Fault>
    ensures { Reads spelled result (left reader.new) (plain_name_at (left reader.old)) }
{
    take_run(reader, Class::NameStart, Class::NameCharacter)
}

/// The name whose first part was taken.
fn take_local<'s>(reader: &mut Reader<'s>, first: &'s str) -> Result<Name<'s>, Fault>
    ensures { Reads name_view result (left reader.new)
        (local_at (spelled first.entry) (left reader.old)) }
{
    match split_first(reader.rest) {
        Some((':', rest)) => {
            reader.rest = rest;
            let local = take_plain_name(reader)?;
            Ok(Name {
                prefix: Some(first),
                local,
            })
        }
        _ => Ok(Name {
            prefix: None,
            local: first,
        }),
    }
}

/// A name, with or without a prefix.
#[tactic(auto, unfolding(crate::specs::Reading::name_at))]
pub(crate) fn take_name<'s>(reader: &mut Reader<'s>) -> Result<Name<'s>, Fault>
    ensures { Reads name_view result (left reader.new) (name_at (left reader.old)) }
{
    let first = take_plain_name(reader)?;
    take_local(reader, first)
}

/// The name of an entity and a semicolon.
#[tactic(auto, unfolding(crate::specs::Reading::entity_at))]
fn take_entity<'s>(reader: &mut Reader<'s>) -> Result<Reference<'s>, Fault>
    ensures { Reads reference_view result (left reader.new) (entity_at (left reader.old)) }
{
    let name = take_plain_name(reader)?;
    take_character(reader, ';')?;
    Ok(Reference::Entity(name))
}

/// Digits and a semicolon.
#[tactic(auto, unfolding(crate::specs::Reading::decimal_at))]
fn take_decimal<'s>(reader: &mut Reader<'s>) -> Result<Reference<'s>, Fault>
    ensures { Reads reference_view result (left reader.new) (decimal_at (left reader.old)) }
{
    let digits = take_run(reader, Class::Digit, Class::Digit)?;
    take_character(reader, ';')?;
    Ok(Reference::Decimal(digits))
}

/// Hexadecimal digits and a semicolon.
#[tactic(auto, unfolding(crate::specs::Reading::hexadecimal_at))]
fn take_hexadecimal<'s>(reader: &mut Reader<'s>) -> Result<Reference<'s>, Fault>
    ensures { Reads reference_view result (left reader.new) (hexadecimal_at (left reader.old)) }
{
    let digits = take_run(reader, Class::HexDigit, Class::HexDigit)?;
    take_character(reader, ';')?;
    Ok(Reference::Hexadecimal(digits))
}

/// The number of a character after a number sign.
fn take_number<'s>(reader: &mut Reader<'s>) -> Result<Reference<'s>, Fault>
    ensures { Reads reference_view result (left reader.new) (number_at (left reader.old)) }
{
    match split_first(reader.rest) {
        None => Err(Fault::Unclosed),
        Some(('x', rest)) => {
            reader.rest = rest;
            take_hexadecimal(reader)
        }
        Some(_) => take_decimal(reader),
    }
}

/// A reference whose ampersand was taken.
pub(crate) fn take_reference<'s>(reader: &mut Reader<'s>) -> Result<Reference<'s>, Fault>
    ensures { Reads reference_view result (left reader.new) (reference_at (left reader.old)) }
{
    match split_first(reader.rest) {
        None => Err(Fault::Unclosed),
        Some(('#', rest)) => {
            reader.rest = rest;
            take_number(reader)
        }
        Some(_) => take_entity(reader),
    }
}
