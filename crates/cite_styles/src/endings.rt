//! The endings of ordinal numbers in English.

ghost use Rattle.std.specs.Prelude.{◌≡◌, map, IfOk};
ghost use Rattle.std.specs.Str.{chars};
ghost use Rattle.rendering_locale.specs.Views.{ending_view, ordinals_view};
ghost use Rattle.cite_styles.specs.Dates.{default_ending, endings, ordinals};
ghost use Rattle.cite_styles.specs.Rows.{ending_row_view};

use rendering_locale::{OrdinalEnding, Ordinals};
use std::alloc::{AllocError, Global};
use texts::owned;

/// A number and its ending.
type Row = (u8, &'static str);

/// The numbers with an ending of their own.
const ENDINGS: &[Row] = &[
    (1, "st"),
    (2, "nd"),
    (3, "rd"),
    (11, "th"),
    (12, "th"),
    (13, "th"),
];

/// The numbers with an ending of their own.
fn endings() -> &'static [Row]
    ensures { map ending_row_view result.now ≡ endings }
{
    ENDINGS
}

/// The ending of all other numbers.
fn default_ending() -> &'static str
    ensures { chars result.now ≡ default_ending }
{
    "th"
}

/// The endings of ordinal numbers.
pub(crate) fn ordinals(alloc: Global) -> Result<Ordinals, AllocError>
    ensures { IfOk result (λ o. ordinals_view o ≡ ordinals) }
{
    let default = owned(alloc, default_ending())?;
    let endings = endings_of(alloc, endings())?;
    Ok(Ordinals { endings, default })
}

fn endings_of(alloc: Global, rows: &[Row]) -> Result<Vec<OrdinalEnding>, AllocError>
    ensures { IfOk result (λ v. map ending_view v.items ≡ map ending_row_view rows.now) }
{
    let mut endings = Vec::new(alloc);
    for row in rows {
        endings.push(ending(alloc, row)?)?;
    }
    Ok(endings)
}

fn ending(alloc: Global, row: &Row) -> Result<OrdinalEnding, AllocError>
    ensures { IfOk result (λ e. ending_view e ≡ ending_row_view row.now) }
{
    let (number, ending) = *row;
    let ending = owned(alloc, ending)?;
    Ok(OrdinalEnding {
        number,
        ending,
        gender: None,
        only: None,
    })
}
