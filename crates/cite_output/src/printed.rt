//! Targets that printed texts are handed to.

use rendering_output::TextTarget;
use sinks::Target;

/// A target, as one of printed texts.
#[derive(Drop)]
pub(crate) struct Printed<T> {
    pub(crate) target: T,
}

impl<T: Target> TextTarget for Printed<T> {
    ghost takes = { λ s text t. T.takes s.target text t.target };

    fn push_str(&mut self, text: &str) {
        self.target.push_str(text);
    }
}
