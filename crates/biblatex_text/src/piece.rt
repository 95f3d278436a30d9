//! Pieces in braces and in quotation marks.

ghost use Rattle.std.specs.Prelude.{◌≡◌, ◌+◌, ◌^◌, ◌<◌, ◌≤◌, IfSome};
ghost use Rattle.biblatex_text.specs.Run.{depth_after};
ghost use Rattle.biblatex_text.specs.States.{braced, quoted};

use crate::run::Run;
use crate::state::RunState;

/// How far a piece in braces has come. A depth is the number of braces that are open in it.
#[derive(Clone, Copy)]
pub(crate) enum BracedPiece {
    /// Text, up to the brace that closes the piece.
    Braces(usize),
    /// The same after a backslash.
    BracesEscape(usize),
}

/// How far a piece in quotation marks has come.
#[derive(Clone, Copy)]
pub(crate) enum QuotedPiece {
    /// Text, up to a quotation mark outside braces, or to a brace that closes none.
    Quotes(usize),
    /// The same after a backslash.
    QuotesEscape(usize),
}

/// The depth after a character, or none after a brace that closes no brace of the text.
pub(crate) fn depth_after(depth: usize, c: char) -> Option<usize>
    requires { depth + 1 < 2 ^ 64 }
    ensures value { result ≡ depth_after depth c }
    ensures grows { IfSome result (λ d. d ≤ depth + 1) }
{
    match c {
        '{' => Some(depth + 1),
        '}' => depth.checked_sub(1),
        _ => Some(depth),
    }
}

impl BracedPiece {
    /// The run that has come so far.
    pub(crate) fn run(self) -> Run
        ensures { result ≡ braced self }
    {
        match self {
            BracedPiece::Braces(depth) => Run::Braced(depth),
            BracedPiece::BracesEscape(depth) => Run::BracedEscape(depth),
        }
    }
}

impl RunState for BracedPiece {
    ghost run = { braced };

    fn next(self, c: char) -> Option<BracedPiece> {
        match self {
            BracedPiece::BracesEscape(depth) => Some(BracedPiece::Braces(depth)),
            BracedPiece::Braces(depth) if c == '\\' => Some(BracedPiece::BracesEscape(depth)),
            BracedPiece::Braces(depth) => Some(BracedPiece::Braces(depth_after(depth, c)?)),
        }
    }
}

impl QuotedPiece {
    /// The run that has come so far.
    pub(crate) fn run(self) -> Run
        ensures { result ≡ quoted self }
    {
        match self {
            QuotedPiece::Quotes(depth) => Run::Quoted(depth),
            QuotedPiece::QuotesEscape(depth) => Run::QuotedEscape(depth),
        }
    }
}

impl RunState for QuotedPiece {
    ghost run = { quoted };

    fn next(self, c: char) -> Option<QuotedPiece> {
        match self {
            QuotedPiece::QuotesEscape(depth) => Some(QuotedPiece::Quotes(depth)),
            QuotedPiece::Quotes(depth) if c == '\\' => Some(QuotedPiece::QuotesEscape(depth)),
            QuotedPiece::Quotes(0) if c == '"' => None,
            QuotedPiece::Quotes(depth) => Some(QuotedPiece::Quotes(depth_after(depth, c)?)),
        }
    }
}
