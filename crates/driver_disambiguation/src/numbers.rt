//! Numbers of texts.

ghost use Rattle.std.specs.Prelude.{◌≡◌, Some, map, IfOk};
ghost use Rattle.driver_disambiguation.specs.Numbered.{AreNumbers, AreStill, number_of, number_under};

use crate::hashed_text::HashedText;
use driver_names::Printed;
use std::alloc::{AllocError, Global};
use std::collections::BTreeMap;

/// The numbers of the texts that cites print.
pub(crate) fn numbers_of(
    alloc: Global,
    texts: &mut BTreeMap<HashedText, usize>,
    cites: &[Printed],
) -> Result<Vec<usize>, AllocError>
    requires { AreNumbers texts.old }
    ensures texts { AreNumbers texts.new }
    ensures numbers { IfOk result (λ v. map (number_of texts.new) cites.now ≡ map Some v.items) }
{
    let mut numbers = Vec::with_capacity(alloc, cites.len())?;
    for cite in cites {
        let number = number_of(alloc, texts, cite.text.as_str())?;
        numbers.push(number)?;
    }
    Ok(numbers)
}

/// The number of a text. A new text gets the next one.
pub(crate) fn number_of(
    alloc: Global,
    texts: &mut BTreeMap<HashedText, usize>,
    text: &str,
) -> Result<usize, AllocError>
    requires { AreNumbers texts.old }
    ensures texts { AreNumbers texts.new }
    ensures still { AreStill texts.old texts.new }
    ensures number { IfOk result (λ n. number_under texts.new text.now ≡ Some n) }
{
    let text = HashedText::new(String::from_str(alloc, text)?);
    if let Some(number) = texts.get(&text) {
        return Ok(*number);
    }
    let number = texts.len();
    texts.insert(text, number)?;
    Ok(number)
}
