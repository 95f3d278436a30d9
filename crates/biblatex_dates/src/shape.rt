//! Reading a date as one side or two.

ghost use Rattle.std.specs.Prelude.{◌≡◌, Ok};
ghost use Rattle.std.specs.Str.{chars};
ghost use Rattle.laws.specs.Results.{Reads};
ghost use Rattle.texts.specs.Views.{left};
ghost use Rattle.biblatex_dates.specs.Shape.{opening_at, last_at, slash_after, shape_of, joined, mark_of, value_of, date_of};

use crate::date::{Date, DateValue};
use crate::error::TypeErrorKind;
use crate::side::{Mark, Side, read_side};
use texts::{Reader, Unreadable, split_first};

/// The sides of a date.
#[derive(Clone, Copy)]
pub(crate) enum Shape {
    /// One side alone.
    One(Side),
    /// A side with an open end.
    Since(Side),
    /// A side with an open start.
    Until(Side),
    /// Two sides.
    Range(Side, Side),
}

impl Shape {
    /// The date that is meant.
    pub(crate) fn date(self) -> Result<Date, TypeErrorKind>
        ensures { result ≡ date_of (Ok self) }
    {
        let value = self.value()?;
        let mark = self.mark();
        Ok(Date {
            value,
            uncertain: mark.uncertain,
            approximate: mark.approximate,
        })
    }

    /// What the sides mean.
    fn value(self) -> Result<DateValue, TypeErrorKind>
        ensures { result ≡ value_of self }
    {
        match self {
            Shape::One(side) => Ok(DateValue::At(side.datetime?)),
            Shape::Since(start) => Ok(DateValue::After(start.datetime?)),
            Shape::Until(end) => Ok(DateValue::Before(end.datetime?)),
            Shape::Range(start, end) => Ok(DateValue::Between(start.datetime?, end.datetime?)),
        }
    }

    /// The marks of the sides, joined.
    fn mark(self) -> Mark
        ensures { result ≡ mark_of self }
    {
        match self {
            Shape::One(side) => side.mark,
            Shape::Since(start) => start.mark,
            Shape::Until(end) => end.mark,
            Shape::Range(start, end) => joined(start.mark, end.mark),
        }
    }
}

/// What one or the other mark says.
fn joined(first: Mark, second: Mark) -> Mark
    ensures { result ≡ joined first second }
{
    Mark {
        uncertain: first.uncertain || second.uncertain,
        approximate: first.approximate || second.approximate,
    }
}

/// The sides of the date that the text is.
#[tactic(auto, unfolding(crate::specs::Shape::shape_of))]
pub(crate) fn read_shape(text: &str) -> Result<Shape, Unreadable>
    ensures { result ≡ shape_of (chars text.now) }
{
    let mut reader = Reader::new(text);
    if read_opening(&mut reader)? {
        return Ok(Shape::Until(read_last(reader.rest)?));
    }
    let first = read_side(&mut reader)?;
    if reader.take('/') {
        return read_after_slash(reader.rest, first);
    }
    reader.end()?;
    Ok(Shape::One(first))
}

/// Takes an open start, and says whether there is one.
fn read_opening(reader: &mut Reader) -> Result<bool, Unreadable>
    ensures { Reads (λ b. b) result (left reader.new) (opening_at (left reader.old)) }
{
    if reader.take('/') {
        return Ok(true);
    }
    if reader.take('.') {
        reader.expect('.')?;
        reader.expect('/')?;
        return Ok(true);
    }
    Ok(false)
}

/// The side that the text is.
fn read_last(text: &str) -> Result<Side, Unreadable>
    ensures { result ≡ last_at (chars text.now) }
{
    let mut reader = Reader::new(text);
    let side = read_side(&mut reader)?;
    reader.end()?;
    Ok(side)
}

/// The text after the slash: an open end, or another side.
fn read_after_slash(text: &str, first: Side) -> Result<Shape, Unreadable>
    ensures { result ≡ slash_after first (chars text.now) }
{
    match split_first(text) {
        None => Ok(Shape::Since(first)),
        Some(('.', points)) => {
            let mut reader = Reader::new(points);
            reader.expect('.')?;
            reader.end()?;
            Ok(Shape::Since(first))
        }
        Some(_) => Ok(Shape::Range(first, read_last(text)?)),
    }
}
