//! Runs of characters, and texts cut where they end.

ghost use Rattle.std.specs.Prelude.{◌≡◌, ◌+◌, ◌^◌, ◌<◌, ◌≤◌, ◌++◌, IfSome};
ghost use Rattle.std.specs.Str.{chars, IsUtf8};
ghost use Rattle.biblatex_text.specs.Run.{depth_of, only_if, next, prefix_of, after};

use crate::blank::BlankRun;
use crate::character::{is_id_continue, is_key};
use crate::piece::{BracedPiece, QuotedPiece, depth_after};
use crate::state::{RunState, split_states};
use crate::word::{IdentifierRun, KeyRun};

/// What a run of characters is part of, and how far it has come. A depth is the number of braces that are open.
#[derive(Clone, Copy)]
pub(crate) enum Run {
    /// Text between items, up to an at sign.
    Outside,
    /// The rest of a line that a percent sign hides there.
    Hidden,
    /// White space and comments inside an item.
    Blank,
    /// A comment inside an item: the rest of a line after a percent sign.
    Comment,
    /// A kind, the name of a field or a bare value.
    Identifier,
    /// A key of an item in braces.
    Key,
    /// A key of an item in parentheses.
    RoundKey,
    /// ASCII digits, with at most one point.
    Number,
    /// The digits after the point.
    Fraction,
    /// The text of a comment item, up to the brace that closes it.
    Remark(usize),
    /// A piece in braces, up to the brace that closes it.
    Braced(usize),
    /// The same after a backslash.
    BracedEscape(usize),
    /// A piece in quotation marks, up to one outside braces, or to a brace that closes none.
    Quoted(usize),
    /// The same after a backslash.
    QuotedEscape(usize),
}

/// The run, if the test is passed.
fn only_if(test: bool, run: Run) -> Option<Run>
    ensures { result ≡ only_if test run }
{
    if test { Some(run) } else { None }
}

impl Run {
    /// The run after one more character, or none where it ends before the character.
    fn after(self, c: char) -> Option<Run>
        requires { depth_of self + 1 < 2 ^ 64 }
        ensures value { result ≡ next self c }
        ensures grows { IfSome result (λ run. depth_of run ≤ depth_of self + 1) }
    {
        match self {
            Run::Outside if c == '%' => Some(Run::Hidden),
            Run::Outside => only_if(c != '@', Run::Outside),
            Run::Hidden => Some(if c == '\n' { Run::Outside } else { Run::Hidden }),
            Run::Blank => Some(BlankRun::Spaces.next(c)?.run()),
            Run::Comment => Some(BlankRun::CommentLine.next(c)?.run()),
            Run::Identifier => only_if(is_id_continue(c), Run::Identifier),
            Run::Key => only_if(is_key(c), Run::Key),
            Run::RoundKey => only_if(is_key(c) && c != ')', Run::RoundKey),
            Run::Number if c == '.' => Some(Run::Fraction),
            Run::Number => only_if(c.is_ascii_digit(), Run::Number),
            Run::Fraction => only_if(c.is_ascii_digit(), Run::Fraction),
            Run::Remark(depth) => Some(Run::Remark(depth_after(depth, c)?)),
            Run::Braced(depth) => Some(BracedPiece::Braces(depth).next(c)?.run()),
            Run::BracedEscape(depth) => Some(BracedPiece::BracesEscape(depth).next(c)?.run()),
            Run::Quoted(depth) => Some(QuotedPiece::Quotes(depth).next(c)?.run()),
            Run::QuotedEscape(depth) => Some(QuotedPiece::QuotesEscape(depth).next(c)?.run()),
        }
    }
}

impl RunState for Run {
    ghost run = { λ state. state };

    fn next(self, c: char) -> Option<Run> {
        Some(self.after(c)?)
    }
}

/// The longest prefix that goes on with the run, and what follows it.
pub(crate) fn split_run(text: &str, start: Run) -> (&str, &str)
    requires { depth_of start ≡ 0 }
    ensures parts { text.now ≡ result.0.now ++ result.1.now }
    ensures utf8 { IsUtf8 result.1.now }
    ensures prefix { chars result.0.now ≡ prefix_of start (chars text.now) }
    ensures rest { chars result.1.now ≡ after start (chars text.now) }
{
    match start {
        Run::Braced(0) => split_states(text, BracedPiece::Braces(0)),
        Run::Quoted(0) => split_states(text, QuotedPiece::Quotes(0)),
        Run::Blank => split_states(text, BlankRun::Spaces),
        Run::Identifier => split_states(text, IdentifierRun),
        Run::Key => split_states(text, KeyRun),
        _ => split_states(text, start),
    }
}
