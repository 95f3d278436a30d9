//! The text of a piece as content of a field.

ghost use Rattle.std.specs.Str.{chars};
ghost use Rattle.biblatex_content.specs.Spans.{spanned_so_far};
ghost use Rattle.biblatex_fields.specs.Value.{text_read};
ghost use Rattle.biblatex_fields.specs.Errors.{refusal_of};
ghost use Rattle.laws.specs.Results.{Gives};

use crate::error::{ParseError, ParseErrorKind};
use biblatex_content::{ContentError, Contents, Span};
use biblatex_text::Spanned;

/// Appends what a text gives after what was read. The text is of the piece at the span.
pub(crate) fn push_text(
    contents: Contents,
    is_verbatim: bool,
    span: &Span,
    text: &str,
) -> Result<Contents, ParseError>
    ensures { Gives refusal_of spanned_so_far result (text_read is_verbatim
        span.now.start span.now.end (chars text.now) (spanned_so_far contents)) }
{
    let piece = Spanned::new(text, span.start..span.end);
    if is_verbatim {
        return Ok(contents.push_verbatim(piece)?);
    }
    match contents.push_ordinary(piece) {
        Ok(contents) => Ok(contents),
        Err(ContentError::Memory) => Err(ParseError::Memory),
        Err(ContentError::MalformedCommand) => Err(ParseError::Refused {
            kind: ParseErrorKind::MalformedCommand,
            span: span.start..span.end,
        }),
    }
}
