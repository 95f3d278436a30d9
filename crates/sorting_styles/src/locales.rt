//! The locales of a style as keys print by them, changed where they stand.

ghost use Rattle.std.specs.Prelude.{◌≡◌, map, IfOk, OnOk};
ghost use Rattle.rendering_locale.specs.Views.{locale_view, term_view};
ghost use Rattle.sorting_styles.specs.Locales as specs;
ghost use Rattle.sorting_styles.specs.Locales.{silenced, sorting_locales};

use rendering_locale::{Locale, LocalizedTerm, Terms};
use rendering_taxonomy::{OtherTerm, Term, TermForm};
use std::alloc::{AllocError, Global};
use std::mem;

/// A term without a text.
fn silent_term(name: OtherTerm) -> LocalizedTerm
    ensures { term_view result ≡ specs.silent_term name }
{
    LocalizedTerm {
        name: Term::Other(name),
        form: TermForm::Long,
        single: None,
        multiple: None,
        gender: None,
    }
}

/// The terms for names that are left out, without texts.
fn silent_terms(alloc: Global) -> Result<Vec<LocalizedTerm>, AllocError>
    ensures { IfOk result (λ v. map term_view v.items ≡ specs.silent_terms) }
{
    let mut terms = Vec::with_capacity(alloc, 2)?;
    terms.push(silent_term(OtherTerm::EtAl))?;
    terms.push(silent_term(OtherTerm::AndOthers))?;
    Ok(terms)
}

/// Puts these terms before those of a locale.
fn silence(alloc: Global, locale: &mut Locale) -> Result<(), AllocError>
    ensures { OnOk result (locale_view locale.new ≡ silenced (locale_view locale.old)) }
{
    let mut others = mem::replace(&mut locale.terms, Terms::empty(alloc)).into_vec();
    let mut terms = silent_terms(alloc)?;
    terms.append(&mut others)?;
    locale.terms = Terms::new(alloc, terms)?;
    Ok(())
}

/// A locale of all languages that says nothing.
fn open_locale(alloc: Global) -> Locale
    ensures { locale_view result ≡ specs.open_locale }
{
    Locale {
        lang: None,
        terms: Terms::empty(alloc),
        dates: Vec::new(alloc),
        ordinals: None,
        punctuation_in_quote: None,
        limit_day_ordinals_to_day_1: None,
    }
}

/// Puts these terms before those of each locale.
fn silence_each(alloc: Global, locales: &mut [Locale]) -> Result<(), AllocError>
    ensures { OnOk result (map locale_view locales.new
        ≡ map silenced (map locale_view locales.old)) }
{
    for locale in locales.iter_mut() {
        silence(alloc, locale)?;
    }
    Ok(())
}

/// Makes the locales of a style print nothing for names that are left out.
pub(crate) fn change_locales(alloc: Global, locales: &mut Vec<Locale>) -> Result<(), AllocError>
    ensures { OnOk result (map locale_view locales.new.items
        ≡ sorting_locales (map locale_view locales.old.items)) }
{
    locales.push(open_locale(alloc))?;
    silence_each(alloc, locales)
}
