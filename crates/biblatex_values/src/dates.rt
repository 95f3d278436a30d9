//! Dates as texts.

ghost use Rattle.std.specs.Prelude.{◌≡◌, IfOk};
ghost use Rattle.laws.specs.Text.{characters};
ghost use Rattle.biblatex_dates.specs.Written.{date_text};

use biblatex_dates::Date;
use std::alloc::{AllocError, Global};

/// The date as a text.
pub fn date_text(alloc: Global, date: Date) -> Result<String, AllocError>
    ensures { IfOk result (λ s. characters s ≡ date_text date) }
{
    date.to_string(alloc)
}
