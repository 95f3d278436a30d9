//! Values and where they stand in a source.

ghost use Rattle.std.specs.Prelude.{◌≡◌, ◌==◌, ◌-◌, ◌^◌};

use std::ops::Range;

/// A value and the bytes of its source where it stands.
#[derive(Debug, Clone, PartialEq, Eq, Drop)]
pub struct Spanned<T> {
    /// The value.
    pub v: T,
    /// From its first byte to the one after its last.
    pub span: Range<usize>,
}

impl<T> Spanned<T> {
    /// The value at the span.
    pub fn new(v: T, span: Range<usize>) -> Spanned<T>
        ensures value { result.v ≡ v }
        ensures span { result.span ≡ span }
    {
        Spanned { v, span }
    }

    /// The value, at the empty span before the first byte.
    pub fn zero(v: T) -> Spanned<T>
        ensures value { result.v ≡ v }
        ensures start { result.span.start ≡ 0 }
        ensures end { result.span.end ≡ 0 }
    {
        Spanned { v, span: 0..0 }
    }

    /// The value of no source.
    pub fn detached(v: T) -> Spanned<T>
        ensures value { result.v ≡ v }
        ensures start { result.span.start ≡ 2 ^ 64 - 1 }
        ensures end { result.span.end ≡ 2 ^ 64 - 1 }
    {
        Spanned {
            v,
            span: usize::MAX..usize::MAX,
        }
    }

    /// Whether the value is of no source: its span begins where no text has a byte.
    pub fn is_detached(&self) -> bool
        ensures { result ≡ (self.now.span.start == 2 ^ 64 - 1) }
    {
        self.span.start == usize::MAX
    }

    /// The value by reference, at its span.
    pub fn as_ref(&self) -> Spanned<&T>
        ensures value { result.v.now ≡ self.now.v }
        ensures span { result.span ≡ self.now.span }
    {
        Spanned {
            v: &self.v,
            span: self.span.start..self.span.end,
        }
    }

    /// What the function makes of the value, at its span.
    pub fn map<U, F: FnOnce(T) -> U>(self, f: F) -> Spanned<U>
        requires { F.pre f self.v }
        ensures value { F.post f self.v result.v }
        ensures span { result.span ≡ self.span }
    {
        Spanned {
            v: f(self.v),
            span: self.span,
        }
    }
}
