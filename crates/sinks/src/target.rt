//! Targets that texts are handed to, one after the other, and sinks as such targets.

ghost use Rattle.std.specs.Prelude.{◌≡◌, ℕ, List, Ok};
ghost use Rattle.sinks.specs.Targets.{TakesUntilFault};

use crate::sink::{Sink, SinkFault, write_all};

/// A target that takes texts, one after the other. A call returns nothing: the target itself remembers what went wrong, and
/// passes over the texts after it.
pub trait Target {
    /// How it changes by a text that it takes.
    ghost takes: { Self → List ℕ → Self → Type 0 };

    /// Takes a text.
    fn push_str(&mut self, text: &str)
        ensures { takes self.old text.now self.new };
}

/// A sink as a target, with the first fault of a call of `write`. What follows a fault is not written.
#[derive(Drop)]
pub struct SinkTarget<'s, W> {
    sink: &'s mut W,
    result: Result<(), SinkFault>,
}

impl<'s, W: Sink> SinkTarget<'s, W> {
    /// The sink, without a fault yet.
    pub fn new(sink: &'s mut W) -> SinkTarget<'s, W>
        ensures same_reference { result.sink.ghost_name ≡ sink.entry.ghost_name }
        ensures sink { result.sink.now ≡ sink.old }
        ensures result { result.result ≡ Ok tt }
    {
        SinkTarget {
            sink,
            result: Ok(()),
        }
    }

    /// The first fault, if there was one.
    pub fn result(&self) -> Result<(), SinkFault>
        ensures { result ≡ self.now.result }
    {
        self.result
    }
}

impl<W: Sink> Target for SinkTarget<'_, W> {
    ghost takes = { λ s text t. TakesUntilFault W.contents W.failures W.last_fault s text t };

    fn push_str(&mut self, text: &str) {
        if self.result.is_ok() {
            self.result = write_all(self.sink, text.as_bytes());
        }
    }
}
