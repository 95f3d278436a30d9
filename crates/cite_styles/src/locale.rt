//! The locale of English.

ghost use Rattle.std.specs.Prelude.{◌≡◌, ◌++◌, map, IfOk, OnOk};
ghost use Rattle.rendering_locale.specs.Views.{term_view, terms_view, locale_view};
ghost use Rattle.cite_styles.specs.English.{english, english_terms};
ghost use Rattle.cite_styles.specs.Rows.{term_row_view};

use crate::dates::dates;
use crate::endings::ordinals;
use crate::rows::{Row, counted, labels, months, words};
use rendering_locale::{Locale, LocaleCode, LocalizedTerm, Terms};
use std::alloc::{AllocError, Global};
use texts::owned;

/// English as it is written in the United States. Punctuation goes inside quotes.
///
/// # Errors
/// Out of memory.
pub fn english(alloc: Global) -> Result<Locale, AllocError>
    ensures { IfOk result (λ l. locale_view l ≡ english) }
{
    let lang = LocaleCode::en_us(alloc)?;
    let terms = terms(alloc)?;
    let dates = dates(alloc)?;
    let ordinals = ordinals(alloc)?;
    Ok(Locale {
        lang: Some(lang),
        terms,
        dates,
        ordinals: Some(ordinals),
        punctuation_in_quote: Some(true),
        limit_day_ordinals_to_day_1: None,
    })
}

fn terms(alloc: Global) -> Result<Terms, AllocError>
    ensures { IfOk result (λ t. terms_view t ≡ english_terms) }
{
    let terms = listed_terms(alloc)?;
    Terms::new(alloc, terms)
}

fn listed_terms(alloc: Global) -> Result<Vec<LocalizedTerm>, AllocError>
    ensures { IfOk result (λ v. map term_view v.items ≡ english_terms) }
{
    let mut terms = Vec::new(alloc);
    push_rows(alloc, &mut terms, words())?;
    push_rows(alloc, &mut terms, counted())?;
    push_rows(alloc, &mut terms, labels())?;
    push_rows(alloc, &mut terms, months())?;
    Ok(terms)
}

fn push_rows(alloc: Global, terms: &mut Vec<LocalizedTerm>, rows: &[Row]) -> Result<(), AllocError>
    ensures { OnOk result (map term_view terms.new.items
        ≡ map term_view terms.old.items ++ map term_row_view rows.now) }
{
    for row in rows {
        terms.push(term(alloc, row)?)?;
    }
    Ok(())
}

fn term(alloc: Global, row: &Row) -> Result<LocalizedTerm, AllocError>
    ensures { IfOk result (λ t. term_view t ≡ term_row_view row.now) }
{
    let (name, form, single, multiple) = *row;
    let single = owned(alloc, single)?;
    let multiple = owned(alloc, multiple)?;
    Ok(LocalizedTerm {
        name,
        form,
        single: Some(single),
        multiple: Some(multiple),
        gender: None,
    })
}
