//! A text in memory as a target that texts are handed to.

ghost use Rattle.std.specs.Prelude.{◌≡◌, [], Ok, IfOk, IsOk, string_bytes};
ghost use Rattle.biblatex_writing.specs.Targets.{TakesUntilFull};

use sinks::Target;
use std::alloc::{AllocError, Global};

/// A text in memory as a target. What follows a refused request for memory is not written.
#[derive(Drop)]
pub(crate) struct StringTarget {
    text: String,
    result: Result<(), AllocError>,
}

impl StringTarget {
    /// An empty text.
    pub(crate) fn new(alloc: Global) -> StringTarget
        ensures text { string_bytes result.text ≡ [] }
        ensures result { result.result ≡ Ok tt }
    {
        StringTarget {
            text: String::new(alloc),
            result: Ok(()),
        }
    }

    /// The text, where there was memory for all of it.
    pub(crate) fn into_text(self) -> Result<String, AllocError>
        ensures { IfOk result (λ s. IsOk self.result × (s ≡ self.text)) }
    {
        let StringTarget { text, result } = self;
        result?;
        Ok(text)
    }
}

impl Target for StringTarget {
    ghost takes = { λ s text t. TakesUntilFull s text t };

    fn push_str(&mut self, text: &str) {
        if self.result.is_ok() {
            self.result = self.text.push_str(text);
        }
    }
}
