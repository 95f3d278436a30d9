//! Years with their era, alone and of ranges.

ghost use Rattle.std.specs.Prelude.{◌≡◌, ◌++◌, false, Bool, List, ℕ, OnOk};
ghost use Rattle.laws.specs.Text.{characters, spelled};
ghost use Rattle.rendering_dates.specs.Dates.{ad_text, bc_text, is_short, year_by, dash, whole_year, other_year, years_text};
ghost use Rattle.rendering_numbers.specs.Years.{year_text};

use literature_values::{Date, DateEnd};
use rendering_locale::AskedLocales;
use rendering_numbers::push_year;
use rendering_taxonomy::{LongShortForm, OtherTerm, Term, TermForm};
use std::alloc::AllocError;
use texts::push_character;

/// Appends the year of a date with its era. Of a range that ends in another year an en dash and that year follow, of one
/// that has no end yet an en dash.
///
/// # Errors
/// Out of memory alone.
pub fn push_years(out: &mut String, locales: &AskedLocales, date: &Date) -> Result<(), AllocError>
    ensures { OnOk result (characters out.new
        ≡ characters out.old ++ years_text locales.now date.now) }
{
    push_whole_year(out, locales, date.year)?;
    push_other_year(out, locales, date.year, date.end)
}

/// Appends what follows the first year of a range.
fn push_other_year(
    out: &mut String,
    locales: &AskedLocales,
    first: i32,
    end: Option<DateEnd>,
) -> Result<(), AllocError>
    ensures { OnOk result (characters out.new
        ≡ characters out.old ++ other_year locales.now first end) }
{
    match end {
        None => Ok(()),
        Some(DateEnd::On { year, .. }) if year == first => Ok(()),
        Some(DateEnd::On { year, .. }) => {
            push_dash(out)?;
            push_whole_year(out, locales, year)
        }
        Some(DateEnd::Open) => push_dash(out),
    }
}

/// Appends an en dash.
fn push_dash(out: &mut String) -> Result<(), AllocError>
    ensures { OnOk result (characters out.new ≡ characters out.old ++ dash) }
{
    push_character(out, '–')
}

fn push_whole_year(out: &mut String, locales: &AskedLocales, year: i32) -> Result<(), AllocError>
    ensures { OnOk result (characters out.new ≡ characters out.old ++ whole_year locales.now year) }
{
    push_year_by(out, locales, LongShortForm::Long, year)
}

/// Appends a year in a form, with its era.
pub(crate) fn push_year_by(
    out: &mut String,
    locales: &AskedLocales,
    form: LongShortForm,
    year: i32,
) -> Result<(), AllocError>
    ensures { OnOk result (characters out.new
        ≡ characters out.old ++ year_by locales.now form year) }
{
    let is_short = is_short(form);
    if has_era(year) {
        push_year(out, year, is_short, ad_text(locales), bc_text(locales))
    } else {
        push_year(out, year, is_short, "", "")
    }
}

/// Whether a year is written with its era.
fn has_era(year: i32) -> bool
    ensures { (short : Bool) (ad bc others more : List ℕ) → result ≡ false
        → year_text year short ad bc ≡ year_text year short others more }
{
    year < 1000
}

fn is_short(form: LongShortForm) -> bool
    ensures { result ≡ is_short form }
{
    match form {
        LongShortForm::Long => false,
        LongShortForm::Short => true,
    }
}

/// What is written after a year from 1 on that has an era.
fn ad_text<'a>(locales: &AskedLocales<'a>) -> &'a str
    ensures { spelled result ≡ ad_text locales.now }
{
    match locales.term(Term::Other(OtherTerm::Ad), TermForm::Long, false) {
        Some(text) => text,
        None => " AD",
    }
}

/// What is written after a year before 1.
fn bc_text<'a>(locales: &AskedLocales<'a>) -> &'a str
    ensures { spelled result ≡ bc_text locales.now }
{
    match locales.term(Term::Other(OtherTerm::Bc), TermForm::Long, false) {
        Some(text) => text,
        None => " BC",
    }
}
