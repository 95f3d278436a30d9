//! The trait of targets that texts are handed to, one after the other, and writers as such targets.

ghost use Rattle.std.specs.Prelude.{◌≡◌, ℕ, List, Ok};
ghost use Rattle.rendering_output.specs.Targets.{TakesUntilError};

use std::fmt;

/// A target that takes texts, one after the other. A call returns nothing: the target itself has to remember what went wrong.
pub trait TextTarget {
    /// How it changes by a text that it takes.
    ghost takes: { Self → List ℕ → Self → Type 0 };

    /// Takes a text.
    fn push_str(&mut self, text: &str)
        ensures { takes self.old text.now self.new };
}

/// A writer as a target, with the first error that it returned. What follows an error is not written.
#[derive(Drop)]
pub struct WriterTarget<'w, W> {
    writer: &'w mut W,
    result: fmt::Result,
}

impl<'w, W: fmt::Write> WriterTarget<'w, W> {
    /// The writer, without an error yet.
    pub fn new(writer: &'w mut W) -> WriterTarget<'w, W>
        ensures same_reference { result.writer.ghost_name ≡ writer.entry.ghost_name }
        ensures writer { result.writer.now ≡ writer.old }
        ensures result { result.result ≡ Ok tt }
    {
        WriterTarget {
            writer,
            result: Ok(()),
        }
    }

    /// The first error, if there was one.
    pub fn result(&self) -> fmt::Result
        ensures { result ≡ self.now.result }
    {
        self.result
    }
}

impl<W: fmt::Write> TextTarget for WriterTarget<'_, W> {
    ghost takes = { λ s text t. TakesUntilError W.write_str_gives s text t };

    fn push_str(&mut self, text: &str) {
        if self.result.is_ok() {
            self.result = self.writer.write_str(text);
        }
    }
}
