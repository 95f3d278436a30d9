//! Bibliographies.

ghost use Rattle.std.specs.Prelude.{◌≡◌, IfOk};
ghost use Rattle.std.specs.Int.NonZero.{non_zero_i16_get};
ghost use Rattle.std.specs.Str.{chars};
ghost use Rattle.texts.specs.Reading.{taken};
ghost use Rattle.laws.specs.Characters.{hyphen};
ghost use Rattle.xml_tree.specs.Views.{element_view};
ghost use Rattle.rendering_style.specs.Views.{bibliography_layout_view};
ghost use Rattle.csl_nodes.specs.Views.{words_view};
ghost use Rattle.csl_styles.specs.Bibliographies as specs;

use crate::layouts::layout_in;
use crate::second_fields::part_first;
use csl_nodes::{Words, name_options};
use csl_words::{
    SECOND_FIELDS, SUBSTITUTE_RULES, attribute, is_true, number, number_in, printed, value_by,
};
use rendering_style::Bibliography;
use rendering_taxonomy::SubsequentAuthorSubstituteRule;
use std::alloc::{AllocError, Global};
use std::num::NonZeroI16;
use texts::Reader;
use xml_tree::Element;

/// A number of lines, of which there may be 32767.
fn lines(count: u32) -> i16
    ensures { result ≡ specs.lines count }
{
    if count < 32767 { count as i16 } else { 32767 }
}

/// The space between lines: one line where it would be none.
fn line_spacing(count: u32) -> NonZeroI16
    ensures { non_zero_i16_get result ≡ specs.line_spacing count }
{
    let lines = if count == 0 { 1 } else { lines(count) };
    let Some(spacing) = NonZeroI16::new(lines) else {
        unreachable!()
    };
    spacing
}

/// The space between lines that a bibliography says.
fn line_spacing_of(element: &Element<'_>) -> NonZeroI16
    ensures { non_zero_i16_get result ≡ specs.line_spacing_of (element_view element.now) }
{
    line_spacing(number("line-spacing", element).unwrap_or(1))
}

/// A number of lines, below nothing where it stands after a hyphen.
fn signed(is_negative: bool, count: u32) -> i16
    ensures { result ≡ specs.signed is_negative count }
{
    let lines = lines(count);
    if is_negative { -lines } else { lines }
}

/// The space between items that a text says: a number, or one after a hyphen; one line where it says none.
fn entry_spacing(text: &str) -> i16
    ensures { result ≡ specs.entry_spacing (taken hyphen (chars text.now)) }
{
    let mut reader = Reader::new(text);
    let is_negative = reader.take('-');
    signed(is_negative, number_in(reader.rest).unwrap_or(1))
}

/// The space between items that a bibliography says.
fn spacing_of(element: &Element<'_>) -> i16
    ensures { result ≡ specs.spacing_of (element_view element.now) }
{
    match attribute("entry-spacing", element) {
        Some(text) => entry_spacing(text),
        None => 1,
    }
}

/// The rule by which names are substituted that are those of the item before.
fn substitute_rule(element: &Element<'_>) -> SubsequentAuthorSubstituteRule
    ensures { result ≡ specs.substitute_rule (element_view element.now) }
{
    value_by(
        SUBSTITUTE_RULES,
        "subsequent-author-substitute-rule",
        element,
    )
    .unwrap_or(SubsequentAuthorSubstituteRule::CompleteAll)
}

/// A bibliography.
pub(crate) fn bibliography(
    alloc: Global,
    words: &Words,
    element: &Element<'_>,
) -> Result<Bibliography, AllocError>
    ensures { IfOk result (λ b. bibliography_layout_view b
        ≡ specs.bibliography (words_view words.now) (element_view element.now)) }
{
    let substitute = printed(alloc, "subsequent-author-substitute", element)?;
    let name_options = name_options(alloc, "name-form", "name-delimiter", element)?;
    let mut layout = layout_in(alloc, words, element)?;
    let align = value_by(SECOND_FIELDS, "second-field-align", element);
    part_first(alloc, align, &mut layout)?;
    Ok(Bibliography {
        layout,
        name_options,
        hanging_indent: is_true("hanging-indent", element),
        second_field_align: align,
        line_spacing: line_spacing_of(element),
        entry_spacing: spacing_of(element),
        subsequent_author_substitute: substitute,
        subsequent_author_substitute_rule: substitute_rule(element),
        substitutes_names_alone: true,
    })
}
