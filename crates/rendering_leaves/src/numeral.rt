//! Numbers as texts that are made.

ghost use Rattle.std.specs.Prelude.{◌≡◌, ◌++◌, [], IfOk, OnOk};
ghost use Rattle.std.specs.Str.{chars};
ghost use Rattle.laws.specs.Text.{characters};
ghost use Rattle.literature_numbers.specs.Views.{numeral_view};
ghost use Rattle.rendering_leaves.specs.Words.{in_form, is_other_form, words_in};
ghost use Rattle.rendering_locale.specs.Lookup.{ordinals_of};
ghost use Rattle.rendering_locale.specs.Views.{ordinals_view};
ghost use Rattle.rendering_numbers.specs.Numbers.{numeral_by};

use crate::words::words_in;
use literature_values::Numeric;
use rendering_context::is_numeric_text;
use rendering_locale::{AskedLocales, Ordinals};
use rendering_numbers::push_numeral;
use rendering_taxonomy::NumberForm;
use std::alloc::{AllocError, Global};
use texts::empty_text;

pub(crate) fn numeral_text(
    alloc: Global,
    locales: &AskedLocales<'_>,
    form: NumberForm,
    numeral: &Numeric,
) -> Result<String, AllocError>
    ensures { IfOk result (λ s. characters s
        ≡ numeral_by (ordinals_of locales.now) form (numeral_view numeral.now)) }
{
    let mut text = empty_text(alloc);
    append_numeral(alloc, &mut text, locales, form, numeral)?;
    Ok(text)
}

/// Appends a numeral, with the endings that the locales give ordinal numbers; without any they are in digits alone.
fn append_numeral(
    alloc: Global,
    out: &mut String,
    locales: &AskedLocales<'_>,
    form: NumberForm,
    numeral: &Numeric,
) -> Result<(), AllocError>
    ensures { OnOk result (characters out.new ≡ characters out.old
        ++ numeral_by (ordinals_of locales.now) form (numeral_view numeral.now)) }
{
    match locales.ordinals() {
        Some(ordinals) => push_numeral(out, ordinals, form, numeral),
        None => push_numeral(out, &no_ordinals(alloc), form, numeral),
    }
}

/// The text in a form, which changes it where it counts as numbers.
pub(crate) fn in_form(
    alloc: Global,
    locales: &AskedLocales<'_>,
    form: NumberForm,
    text: String,
) -> Result<String, AllocError>
    ensures { IfOk result (λ s. characters s
        ≡ in_form (ordinals_of locales.now) form (characters text)) }
{
    if is_other_form(form) && is_numeric_text(text.as_str()) {
        return each_word_in(alloc, locales, form, text.as_str());
    }
    Ok(text)
}

/// Whether the form is another one than digits.
fn is_other_form(form: NumberForm) -> bool
    ensures { result ≡ is_other_form form }
{
    match form {
        NumberForm::Numeric => false,
        _ => true,
    }
}

/// Each word of a text in a form, with the endings that the locales give ordinal numbers.
fn each_word_in(
    alloc: Global,
    locales: &AskedLocales<'_>,
    form: NumberForm,
    text: &str,
) -> Result<String, AllocError>
    ensures { IfOk result (λ s. characters s
        ≡ words_in (ordinals_of locales.now) form (chars text.now)) }
{
    match locales.ordinals() {
        Some(ordinals) => words_in(alloc, ordinals, form, text),
        None => words_in(alloc, &no_ordinals(alloc), form, text),
    }
}

/// No endings of ordinal numbers.
fn no_ordinals(alloc: Global) -> Ordinals
    ensures { ordinals_view result ≡ record { endings = []; default = [] } }
{
    Ordinals {
        endings: Vec::new(alloc),
        default: empty_text(alloc),
    }
}
