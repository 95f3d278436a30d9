//! Brackets around a citation.

ghost use Rattle.std.specs.Prelude.{◌≡◌};
ghost use Rattle.driver.specs.BracketViews.{brackets_view};
ghost use Rattle.driver.specs.Brackets as brackets;

/// Brackets around a citation, for callers that print them.
#[derive(Clone, Copy, Debug, PartialEq, Eq, Hash)]
pub enum Brackets {
    /// `(` and `)`.
    Round,
    /// `[` and `]`.
    Square,
    /// Nothing before or after.
    None,
}

impl Brackets {
    /// The character before what they enclose; none where there are no brackets.
    pub fn left(self) -> Option<char>
        ensures { result ≡ brackets.left (brackets_view self) }
    {
        match self {
            Brackets::Round => Some('('),
            Brackets::Square => Some('['),
            Brackets::None => None,
        }
    }

    /// The character after what they enclose; none where there are no brackets.
    pub fn right(self) -> Option<char>
        ensures { result ≡ brackets.right (brackets_view self) }
    {
        match self {
            Brackets::Round => Some(')'),
            Brackets::Square => Some(']'),
            Brackets::None => None,
        }
    }
}
