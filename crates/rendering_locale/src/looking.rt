//! What single locales, and locales one after the other, answer.

ghost use Rattle.std.specs.Prelude.{◌≡◌, map};
ghost use Rattle.std.specs.Option.{option_map, option_eq, option_to_list};
ghost use Rattle.std.specs.Str.{bytes_eq};
ghost use Rattle.rendering_taxonomy.specs.Terms.{forms_from};
ghost use Rattle.rendering_locale.specs.CodeViews.{code_view};
ghost use Rattle.rendering_locale.specs.Lookup.{first_answer, in_language, in_fallback, term_in, term_found, is_date_form, date_in, date_found};
ghost use Rattle.rendering_locale.specs.Views.{term_view, localized_date_view, ordinals_view, locale_view, locales_view};

use crate::code::{LocaleCode, fallback};
use crate::locale::{Locale, LocalizedDate, LocalizedTerm, Ordinals};
use crate::words::forms_from;
use rendering_taxonomy::{DateForm, Term, TermForm};

/// Whether a locale of this language is wanted, or of none.
fn is_language(lang: &Option<LocaleCode>, wanted: Option<&str>) -> bool
    ensures { result ≡ option_eq bytes_eq (option_map code_view lang.now)
        (option_map (λ s. s.now) wanted.entry) }
{
    match (lang, wanted) {
        (Some(code), Some(text)) => code.0.as_str() == text,
        (None, None) => true,
        (Some(_), None) | (None, Some(_)) => false,
    }
}

/// The first locale of the language, or of none.
pub(crate) fn in_language<'a>(wanted: Option<&str>, locales: &'a [Locale]) -> Option<&'a Locale>
    ensures { option_to_list (option_map (λ l. locale_view l.now) result)
        ≡ in_language (option_map (λ s. s.now) wanted.entry) (map locale_view locales.now) }
{
    for locale in locales {
        if is_language(&locale.lang, wanted) {
            return Some(locale);
        }
    }
    None
}

/// The first locale of the language that stands for another, where one does.
pub(crate) fn in_fallback<'a>(code: &str, files: &'a [Locale]) -> Option<&'a Locale>
    ensures { option_to_list (option_map (λ l. locale_view l.now) result)
        ≡ in_fallback code.now (map locale_view files.now) }
{
    match fallback(code) {
        Some(other) => in_language(Some(other), files),
        None => None,
    }
}

/// The first term of that name and form.
fn term_in(locale: &Locale, name: Term, form: TermForm) -> Option<&LocalizedTerm>
    ensures { option_map (λ t. term_view t.now) result
        ≡ term_in name form (locale_view locale.now) }
{
    locale.terms.get(name, form)
}

/// The first term of that name and form in any of the locales.
fn term_of_form<'a>(locales: &[&'a Locale], name: Term, form: TermForm) -> Option<&'a LocalizedTerm>
    ensures { option_map (λ t. term_view t.now) result
        ≡ first_answer (term_in name form) (locales_view locales.now) }
{
    for locale in locales {
        if let Some(term) = term_in(*locale, name, form) {
            return Some(term);
        }
    }
    None
}

/// The first term of that name in the form, or else in the next form that stands for it.
pub(crate) fn term_found<'a>(
    locales: &[&'a Locale],
    name: Term,
    form: TermForm,
) -> Option<&'a LocalizedTerm>
    ensures { option_map (λ t. term_view t.now) result
        ≡ term_found (locales_view locales.now) name form }
{
    let forms = forms_from(form);
    for next in forms {
        if let Some(term) = term_of_form(locales, name, *next) {
            return Some(term);
        }
    }
    None
}

/// Whether two forms of dates are one.
fn is_date_form(form: DateForm, wanted: DateForm) -> bool
    ensures { result ≡ is_date_form form wanted }
{
    match (form, wanted) {
        (DateForm::Text, DateForm::Text) | (DateForm::Numeric, DateForm::Numeric) => true,
        (DateForm::Text, DateForm::Numeric) | (DateForm::Numeric, DateForm::Text) => false,
    }
}

/// The first date of that form.
fn date_in(locale: &Locale, form: DateForm) -> Option<&LocalizedDate>
    ensures { option_map (λ d. localized_date_view d.now) result
        ≡ date_in form (locale_view locale.now) }
{
    for date in &locale.dates {
        if is_date_form(date.form, form) {
            return Some(date);
        }
    }
    None
}

/// The first date of that form in any of the locales.
pub(crate) fn date_found<'a>(locales: &[&'a Locale], form: DateForm) -> Option<&'a LocalizedDate>
    ensures { option_map (λ d. localized_date_view d.now) result
        ≡ date_found (locales_view locales.now) form }
{
    for locale in locales {
        if let Some(date) = date_in(*locale, form) {
            return Some(date);
        }
    }
    None
}

/// The first endings of ordinal numbers.
pub(crate) fn ordinals_found<'a>(locales: &[&'a Locale]) -> Option<&'a Ordinals>
    ensures { option_map (λ o. ordinals_view o.now) result
        ≡ first_answer (λ l. l.ordinals) (locales_view locales.now) }
{
    for locale in locales {
        if let Some(ordinals) = &locale.ordinals {
            return Some(ordinals);
        }
    }
    None
}

/// What the first locale says that says whether punctuation goes inside quotes.
pub(crate) fn punctuation_found(locales: &[&Locale]) -> Option<bool>
    ensures { result ≡ first_answer (λ l. l.punctuation_in_quote) (locales_view locales.now) }
{
    for locale in locales {
        if let Some(inside) = locale.punctuation_in_quote {
            return Some(inside);
        }
    }
    None
}

/// What the first locale says that says whether of the days only the first is an ordinal number.
pub(crate) fn day_limit_found(locales: &[&Locale]) -> Option<bool>
    ensures { result ≡ first_answer (λ l. l.limits_day_ordinals) (locales_view locales.now) }
{
    for locale in locales {
        if let Some(limits) = locale.limit_day_ordinals_to_day_1 {
            return Some(limits);
        }
    }
    None
}
