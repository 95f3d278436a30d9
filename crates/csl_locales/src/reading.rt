//! Dates, and whole locales.

ghost use Rattle.std.specs.Prelude.{◌≡◌, map, codes, IfOk};
ghost use Rattle.xml_tree.specs.Views.{element_view};
ghost use Rattle.rendering_locale.specs.Views.{terms_view, localized_date_view, locale_view};
ghost use Rattle.csl_nodes.specs.Views.{words_view};
ghost use Rattle.csl_locales.specs.Called.{called};
ghost use Rattle.csl_locales.specs.Locales as specs;
ghost use Rattle.csl_locales.specs.Locales.{localized_date, option_set};
ghost use Rattle.csl_locales.specs.Terms.{localized_term, terms_of};

use crate::called::all_called;
use crate::endings::ordinals_of;
use crate::language::language;
use crate::terms::localized_terms;
use csl_nodes::{Words, date_parts};
use csl_words::{DATE_FORMS, is_set, part_called, printed_text, value_by};
use rendering_locale::{Locale, LocalizedDate, Terms};
use rendering_taxonomy::DateForm;
use std::alloc::{AllocError, Global};
use xml_tree::Element;

/// The terms of a locale, each found by its name and form.
fn terms(alloc: Global, words: &Words, element: &Element<'_>) -> Result<Terms, AllocError>
    ensures { IfOk result (λ t. terms_view t
        ≡ map (localized_term (words_view words.now)) (terms_of (element_view element.now))) }
{
    let terms = localized_terms(alloc, words, element)?;
    Terms::new(alloc, terms)
}

/// A form of dates.
fn localized_date(alloc: Global, element: &Element<'_>) -> Result<LocalizedDate, AllocError>
    ensures { IfOk result (λ d. localized_date_view d
        ≡ localized_date (element_view element.now)) }
{
    let delimiter = printed_text(alloc, "delimiter", element)?;
    let parts = date_parts(alloc, element)?;
    Ok(LocalizedDate {
        form: value_by(DATE_FORMS, "form", element).unwrap_or(DateForm::Text),
        parts,
        delimiter,
    })
}

/// The forms of dates of a locale.
fn localized_dates(alloc: Global, element: &Element<'_>) -> Result<Vec<LocalizedDate>, AllocError>
    ensures { IfOk result (λ v. map localized_date_view v.items
        ≡ map localized_date (called (codes "date") (element_view element.now))) }
{
    let mut dates = Vec::new(alloc);
    for date in all_called(alloc, "date", element)? {
        dates.push(localized_date(alloc, date)?)?;
    }
    Ok(dates)
}

/// What an option of a locale is set to, if it says it.
fn option_set(name: &str, element: &Element<'_>) -> Option<bool>
    ensures { result ≡ option_set name.now (element_view element.now) }
{
    match part_called("style-options", element) {
        Some(options) => is_set(name, options),
        None => None,
    }
}

/// The locale that an element means, by the words of terms that no list has. A term whose word is none of these is not asked for by what has
/// them; all such terms have the number after the last of the words.
///
/// # Errors
/// Where a request for memory was refused.
pub fn locale(alloc: Global, words: &Words, element: &Element<'_>) -> Result<Locale, AllocError>
    ensures { IfOk result (λ l. locale_view l
        ≡ specs.locale (words_view words.now) (element_view element.now)) }
{
    let lang = language(alloc, element)?;
    let terms = terms(alloc, words, element)?;
    let dates = localized_dates(alloc, element)?;
    let ordinals = ordinals_of(alloc, element)?;
    Ok(Locale {
        lang,
        terms,
        dates,
        ordinals,
        punctuation_in_quote: option_set("punctuation-in-quote", element),
        limit_day_ordinals_to_day_1: option_set("limit-day-ordinals-to-day-1", element),
    })
}
