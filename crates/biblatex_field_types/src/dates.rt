//! Dates in fields.

ghost use Rattle.biblatex_dates.specs.declared.date.Date.{Date as DateValue};
ghost use Rattle.biblatex_values.specs.Dates.{reads_date, writes_date, IsDate};
ghost use Rattle.biblatex_values.proofs.DatesBack.{date_back};

use crate::error::FieldTypeError;
use crate::field_type::{FieldType, at_span};
use biblatex_content::{Chunk, Chunks, Spanned};
use biblatex_dates::Date;
use biblatex_values::{date_text, normal_chunks, plain_text};
use std::alloc::{AllocError, Global};

/// A date in one text. An empty text is `InvalidFormat`.
impl FieldType for Date {
    ghost View = { DateValue };

    ghost view = { λ d. d };

    ghost reads = { reads_date };

    ghost writes = { writes_date };

    ghost InClass = { IsDate };

    ghost back = { date_back };

    fn from_chunks(alloc: Global, chunks: &[Spanned<Chunk>]) -> Result<Date, FieldTypeError> {
        let text = plain_text(alloc, chunks)?;
        at_span(chunks, Date::read(text.as_str()))
    }

    fn to_chunks(&self, alloc: Global) -> Result<Chunks, AllocError> {
        normal_chunks(alloc, date_text(alloc, *self)?)
    }
}
