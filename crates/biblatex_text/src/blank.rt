//! White space and comments inside an item.

ghost use Rattle.std.specs.Prelude.{◌≡◌};
ghost use Rattle.biblatex_text.specs.States.{blank};

use crate::run::Run;
use crate::state::RunState;

/// How far white space and comments have come.
#[derive(Clone, Copy)]
pub(crate) enum BlankRun {
    /// White space, which a percent sign may follow.
    Spaces,
    /// A comment: the rest of a line after a percent sign.
    CommentLine,
}

impl BlankRun {
    /// The run that has come so far.
    pub(crate) fn run(self) -> Run
        ensures { result ≡ blank self }
    {
        match self {
            BlankRun::Spaces => Run::Blank,
            BlankRun::CommentLine => Run::Comment,
        }
    }
}

impl RunState for BlankRun {
    ghost run = { blank };

    fn next(self, c: char) -> Option<BlankRun> {
        match self {
            BlankRun::Spaces if c == '%' => Some(BlankRun::CommentLine),
            BlankRun::Spaces if c.is_whitespace() => Some(BlankRun::Spaces),
            BlankRun::Spaces => None,
            BlankRun::CommentLine if c == '\n' => Some(BlankRun::Spaces),
            BlankRun::CommentLine => Some(BlankRun::CommentLine),
        }
    }
}
