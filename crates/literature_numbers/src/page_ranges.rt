//! Pages and ranges of pages.

ghost use Rattle.std.specs.Prelude.{◌≡◌, ◌++◌, List, map, OnOk, Some, None, false};
ghost use Rattle.std.specs.Fmt.{DisplaysOnOk};
ghost use Rattle.std.specs.Option.{option_map};
ghost use Rattle.std.specs.Str.{chars};
ghost use Rattle.laws.specs.Text.{text as text_of};
ghost use Rattle.laws.specs.Results.{GivesBack, GivesOrRefuses};
ghost use Rattle.literature_numbers.specs.Pages.{pages_of, pages_from, page, opened, closed, is_hyphen, part_text, pages_text, has_more, first_number, Part, Range, AreReadable};
ghost use Rattle.literature_numbers.specs.Views.{numeral_view};
ghost use Rattle.literature_numbers.specs.PageViews.{page_part_view, pages_view, OpensRange, pages_refusal, refusal_of_pages};
ghost use Rattle.literature_numbers.specs.declared.page_ranges.PageRangesError.TheVariants.{Memory, Malformed};

use crate::numeric::{Numeric, NumericError, read_numbers};
use crate::separator::NumericDelimiter;
use std::alloc::{AllocError, AllocFailed, Global};
use std::fmt;
use texts::{Reader, Unreadable};
use thiserror::Error;

/// A part of page ranges.
#[derive(Debug, PartialEq, Eq, Drop)]
pub enum PageRangesPart {
    Ampersand,
    Comma,
    SinglePage(Numeric),
    Range(Numeric, Numeric),
}

/// Pages and ranges of pages, and the separators between them.
#[derive(Debug, PartialEq, Eq, Drop)]
pub struct PageRanges {
    pub ranges: Vec<PageRangesPart>,
}

/// Why a text was not read as page ranges.
#[derive(Debug, Drop, Error)]
pub enum PageRangesError {
    /// A request for memory was refused.
    #[error("out of memory")]
    Memory,
    /// The text is no list of pages and ranges.
    #[error("not page ranges")]
    Malformed,
}

impl PageRanges {
    /// Reads page ranges: pages parted by commas or ampersands, each a number or two with dashes between, with spaces
    /// round commas, ampersands and dashes or none. A number is of ASCII digits and at most 2147483647.
    ///
    /// # Errors
    /// `Malformed` for every other text; `Memory` where a request for memory was refused.
    pub fn read(alloc: Global, text: &str) -> Result<PageRanges, PageRangesError>
        // The parts that the text spells, or the refusal of a text that spells none.
        ensures reading { GivesOrRefuses refusal_of_pages pages_view result
            (pages_of (chars text.now)) }
        // What was printed of pages and ranges of counts is read back.
        ensures back { (ps : List Part) → AreReadable ps → chars text.now ≡ pages_text ps
            → GivesBack refusal_of_pages pages_view result ps }
    {
        read_pages(alloc, text)
    }

    /// The first number: the first page, or the one that the first range begins with. Separators are passed over.
    pub fn first(&self) -> Option<&Numeric>
        ensures { option_map (λ n. numeral_view n.now) result ≡ first_number (pages_view self.now) }
    {
        for part in &self.ranges {
            match part {
                PageRangesPart::Ampersand | PageRangesPart::Comma => {}
                PageRangesPart::SinglePage(first) | PageRangesPart::Range(first, _) => {
                    return Some(first);
                }
            }
        }
        None
    }

    /// Whether there is more than one number: a range, or two pages.
    pub fn is_plural(&self) -> bool
        ensures { result ≡ has_more false (pages_view self.now) }
    {
        let mut is_later = false;
        for part in &self.ranges {
            match part {
                PageRangesPart::Ampersand | PageRangesPart::Comma => {}
                PageRangesPart::SinglePage(number) if is_later || number.is_plural() => return true,
                PageRangesPart::SinglePage(_) => is_later = true,
                PageRangesPart::Range(_, _) => return true,
            }
        }
        false
    }
}

/// The pages and ranges that the text spells.
#[tactic(auto, unfolding(crate::specs::Pages::pages_of))]
fn read_pages(alloc: Global, text: &str) -> Result<PageRanges, PageRangesError>
    ensures { GivesOrRefuses refusal_of_pages pages_view result (pages_of (chars text.now)) }
{
    let mut reader = Reader::new(text);
    let numbers = read_numbers(alloc, &mut reader)?;
    reader.end()?;
    group(alloc, numbers.as_slice())
}

/// The numbers as pages and ranges.
fn group(
    alloc: Global,
    numbers: &[(i32, Option<NumericDelimiter>)],
) -> Result<PageRanges, PageRangesError>
    ensures { GivesOrRefuses refusal_of_pages pages_view result (pages_from None numbers.now) }
{
    let mut ranges = Vec::new(alloc);
    let mut first = None;
    for linked in numbers {
        if is_hyphen(linked.1) {
            first = Some(opened(first, linked.0)?);
        } else {
            push_closed(&mut ranges, first, *linked)?;
            first = None;
        }
    }
    match first {
        None => Ok(PageRanges { ranges }),
        Some(_) => Err(PageRangesError::Malformed),
    }
}

/// Whether the delimiter is that of a range.
fn is_hyphen(delimiter: Option<NumericDelimiter>) -> bool
    ensures { result ≡ is_hyphen delimiter }
{
    matches!(delimiter, Some(NumericDelimiter::Hyphen))
}

/// The number that opens a range, where none is open.
fn opened(first: Option<i32>, number: i32) -> Result<i32, Unreadable>
    ensures { OpensRange result (opened first number) }
{
    match first {
        None => Ok(number),
        Some(_) => Err(Unreadable::NotThere),
    }
}

/// Appends a page or a range, and the separator after it.
fn push_closed(
    ranges: &mut Vec<PageRangesPart>,
    first: Option<i32>,
    linked: (i32, Option<NumericDelimiter>),
) -> Result<(), AllocFailed<PageRangesPart>>
    ensures { OnOk result (map page_part_view ranges.new.items
        ≡ map page_part_view ranges.old.items ++ closed first linked) }
{
    ranges.push(page(first, linked.0))?;
    match linked.1 {
        Some(NumericDelimiter::Comma) => ranges.push(PageRangesPart::Comma),
        Some(NumericDelimiter::Ampersand) => ranges.push(PageRangesPart::Ampersand),
        Some(NumericDelimiter::Hyphen) | None => Ok(()),
    }
}

/// A page, or the range that the first number opened.
fn page(first: Option<i32>, number: i32) -> PageRangesPart
    ensures { page_part_view result ≡ page first number }
{
    match first {
        None => PageRangesPart::SinglePage(Numeric::new(number)),
        Some(first) => PageRangesPart::Range(Numeric::new(first), Numeric::new(number)),
    }
}

impl Clone for PageRangesPart {
    ghost is_clone = { λ p q. page_part_view q ≡ page_part_view p };

    fn clone(&self) -> Result<PageRangesPart, AllocError> {
        match self {
            PageRangesPart::Ampersand => Ok(PageRangesPart::Ampersand),
            PageRangesPart::Comma => Ok(PageRangesPart::Comma),
            PageRangesPart::SinglePage(page) => Ok(PageRangesPart::SinglePage(page.clone()?)),
            PageRangesPart::Range(first, last) => Ok(PageRangesPart::Range(
                first.clone()?,
                last.clone()?,
            )),
        }
    }
}

impl Clone for PageRanges {
    ghost is_clone = { λ p q. pages_view q ≡ pages_view p };

    fn clone(&self) -> Result<PageRanges, AllocError> {
        let mut ranges = Vec::with_capacity(*self.ranges.allocator(), self.ranges.len())?;
        for part in &self.ranges {
            ranges.push(part.clone()?)?;
        }
        Ok(PageRanges { ranges })
    }
}

impl From<Unreadable> for PageRangesError {
    ghost from_gives = { λ _ e. e ≡ Malformed };

    fn from(_unreadable: Unreadable) -> PageRangesError {
        PageRangesError::Malformed
    }
}

impl From<NumericError> for PageRangesError {
    ghost from_gives = { λ n e. e ≡ pages_refusal n };

    fn from(error: NumericError) -> PageRangesError {
        match error {
            NumericError::Memory => PageRangesError::Memory,
            NumericError::Malformed => PageRangesError::Malformed,
        }
    }
}

impl From<AllocError> for PageRangesError {
    ghost from_gives = { λ _ e. e ≡ Memory };

    fn from(_error: AllocError) -> PageRangesError {
        PageRangesError::Memory
    }
}

impl<T: Drop> From<AllocFailed<T>> for PageRangesError {
    ghost from_gives = { λ _ e. e ≡ Memory };

    fn from(_error: AllocFailed<T>) -> PageRangesError {
        PageRangesError::Memory
    }
}

/// A separator as numbers have it, a page, or a range with an en dash.
impl fmt::Display for PageRangesPart {
    ghost output = { λ p. Some (text_of (part_text (page_part_view p))) };

    fn fmt<W: fmt::Write>(&self, f: &mut fmt::Formatter<W>) -> fmt::Result {
        match self {
            PageRangesPart::Ampersand => fmt::Display::fmt(&NumericDelimiter::Ampersand, f),
            PageRangesPart::Comma => fmt::Display::fmt(&NumericDelimiter::Comma, f),
            PageRangesPart::SinglePage(page) => fmt::Display::fmt(page, f),
            PageRangesPart::Range(first, last) => write_range(first, last, f),
        }
    }
}

fn write_range<W: fmt::Write>(
    first: &Numeric,
    last: &Numeric,
    f: &mut fmt::Formatter<W>,
) -> fmt::Result
    ensures { DisplaysOnOk W.write_str_gives f.old result
        (Some (text_of (part_text (Range (numeral_view first.now) (numeral_view last.now)))))
        f.new }
{
    fmt::Display::fmt(first, f)?;
    fmt::Display::fmt(&NumericDelimiter::Hyphen, f)?;
    fmt::Display::fmt(last, f)
}

/// All parts, one after the other.
impl fmt::Display for PageRanges {
    ghost output = { λ p. Some (text_of (pages_text (pages_view p))) };

    fn fmt<W: fmt::Write>(&self, f: &mut fmt::Formatter<W>) -> fmt::Result {
        for part in &self.ranges {
            fmt::Display::fmt(part, f)?;
        }
        Ok(())
    }
}
