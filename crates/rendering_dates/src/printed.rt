//! A part of a date on a page: its text with its look, between its affixes, with the year suffix.

ghost use Rattle.std.specs.Prelude.{◌≡◌, OnOk};
ghost use Rattle.std.specs.Str.{chars};
ghost use Rattle.laws.specs.Text.{spelled};
ghost use Rattle.rendering_dates.specs.Dates.{part_manner, part_frame, year_suffix_of, text_pieces};
ghost use Rattle.rendering_dates.specs.Views.{part_text_view, printed_view};
ghost use Rattle.rendering_page.specs.Pages.{append_normal};
ghost use Rattle.rendering_page.specs.Pieces.{append_pieces};
ghost use Rattle.rendering_page.specs.Views.{quotes_view, manner_view, frame_view};

use crate::changes::PrintedPart;
use crate::parts::PartText;
use rendering_page::{Frame, Manner, Page, uncased, with_case};
use rendering_taxonomy::DatePartForm;
use std::alloc::AllocError;
use texts::no_text;

/// Appends a text of a part and, of a year, the year suffix, whose case stays, directly after it, between the part's affixes.
pub(crate) fn push_part<'a>(
    page: &mut Page<'a>,
    quotes: &[&str],
    manner: Manner,
    year_suffix: &'a str,
    part: &PrintedPart<'a>,
    text: PartText<'a>,
) -> Result<(), AllocError>
    ensures { OnOk result (page.new
        ≡ append_pieces (quotes_view quotes.now) (text_pieces (manner_view manner)
        (chars year_suffix.now) (printed_view part.now) (part_text_view text.entry)) page.old) }
{
    let frame = part_frame(manner, part);
    let own = part_manner(manner, part);
    page.begin(&frame)?;
    push_part_text(page, quotes, own, text)?;
    page.push_text(quotes, uncased(own), year_suffix_of(part.form, year_suffix))?;
    page.end(quotes, &frame)
}

fn push_part_text<'a>(
    page: &mut Page<'a>,
    quotes: &[&str],
    manner: Manner,
    text: PartText<'a>,
) -> Result<(), AllocError>
    ensures { OnOk result (page.new ≡ append_normal (quotes_view quotes.now)
        (manner_view manner) (part_text_view text.entry) page.old) }
{
    match text {
        PartText::Absent => Ok(()),
        PartText::Word(word) => page.push_text(quotes, manner, word),
        PartText::Number(number) => page.push_made(quotes, manner, number),
    }
}

/// The year suffix after a part: a year has it.
fn year_suffix_of(form: DatePartForm, year_suffix: &str) -> &str
    ensures { spelled result ≡ year_suffix_of form (chars year_suffix.now) }
{
    match form {
        DatePartForm::Year(_) => year_suffix,
        DatePartForm::Day(_) | DatePartForm::Month(_) => no_text(),
    }
}

/// The affixes of a part, which look as what is around the part.
fn part_frame<'a>(manner: Manner, part: &PrintedPart<'a>) -> Frame<'a>
    ensures { frame_view result ≡ part_frame (manner_view manner) (printed_view part.now) }
{
    Frame {
        display: None,
        meta: None,
        manner,
        prefix: part.prefix,
        suffix: part.suffix,
    }
}

/// How a part's own text is appended.
fn part_manner(manner: Manner, part: &PrintedPart<'_>) -> Manner
    ensures { manner_view result ≡ part_manner (manner_view manner) (printed_view part.now) }
{
    let manner = Manner {
        formatting: part.formatting.over(manner.formatting),
        strips_periods: manner.strips_periods || part.strip_periods,
        ..manner
    };
    with_case(manner, part.text_case)
}
