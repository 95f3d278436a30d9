//! Where a reader stands in its source.

ghost use Rattle.std.specs.Prelude.{◌≡◌, ◌≤◌, ◌-◌, length, drop};
ghost use Rattle.std.specs.Str.{IsCharBoundary};

/// A source, and what is left of it to read.
#[derive(Clone, Copy)]
pub(crate) struct Reader<'s> {
    pub(crate) source: &'s str,
    pub(crate) rest: &'s str,
    ghost within: { length rest.now ≤ length source.now },
    ghost tail: { drop (length source.now - length rest.now) source.now ≡ rest.now },
    ghost boundary: { IsCharBoundary source.now (length source.now - length rest.now) },
}
