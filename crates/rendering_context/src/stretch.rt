//! Texts that count as numbers, as `E1425-E1431`: each of their stretches between dashes, commas and ampersands is one word with a digit.

ghost use Rattle.std.specs.Prelude.{◌≡◌};
ghost use Rattle.std.specs.Str.{chars};
ghost use Rattle.rendering_context.specs.Stretches as stretches;

use crate::locator::is_range_sign;
use texts::split_first;

/// What has come of a stretch.
#[derive(Clone, Copy)]
enum Stretch {
    /// White space alone.
    Empty,
    /// A word without a digit.
    Letters,
    /// A word with a digit.
    Digits,
    /// White space after such a word.
    Closed,
    /// What counts as no number.
    Wrong,
}

impl Stretch {
    /// What has come once the character has.
    fn next(self, c: char) -> Stretch
        ensures { result ≡ stretches.next_stretch self c }
    {
        if c.is_whitespace() {
            self.after_space()
        } else if is_range_sign(c) {
            self.after_sign()
        } else if c.is_ascii_digit() {
            self.after_digit()
        } else {
            self.after_letter()
        }
    }

    fn after_space(self) -> Stretch
        ensures { result ≡ stretches.after_space self }
    {
        match self {
            Stretch::Empty => Stretch::Empty,
            Stretch::Digits | Stretch::Closed => Stretch::Closed,
            Stretch::Letters | Stretch::Wrong => Stretch::Wrong,
        }
    }

    fn after_sign(self) -> Stretch
        ensures { result ≡ stretches.after_sign self }
    {
        match self {
            Stretch::Digits | Stretch::Closed => Stretch::Empty,
            Stretch::Empty | Stretch::Letters | Stretch::Wrong => Stretch::Wrong,
        }
    }

    fn after_digit(self) -> Stretch
        ensures { result ≡ stretches.after_digit self }
    {
        match self {
            Stretch::Empty | Stretch::Letters | Stretch::Digits => Stretch::Digits,
            Stretch::Closed | Stretch::Wrong => Stretch::Wrong,
        }
    }

    fn after_letter(self) -> Stretch
        ensures { result ≡ stretches.after_letter self }
    {
        match self {
            Stretch::Empty | Stretch::Letters => Stretch::Letters,
            Stretch::Digits => Stretch::Digits,
            Stretch::Closed | Stretch::Wrong => Stretch::Wrong,
        }
    }

    /// Whether a text may end here.
    fn is_numeric(self) -> bool
        ensures { result ≡ stretches.is_numeric_stretch self }
    {
        match self {
            Stretch::Digits | Stretch::Closed => true,
            Stretch::Empty | Stretch::Letters | Stretch::Wrong => false,
        }
    }
}

/// Whether the text counts as numbers.
pub fn is_numeric_text(text: &str) -> bool
    ensures { result ≡ stretches.is_numeric_text (chars text.now) }
{
    let mut stretch = Stretch::Empty;
    let mut rest = text;
    while let Some((c, after)) = split_first(rest) {
        stretch = stretch.next(c);
        rest = after;
    }
    stretch.is_numeric()
}
