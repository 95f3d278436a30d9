//! Publishers.

ghost use Rattle.std.specs.Prelude.{◌≡◌};
ghost use Rattle.literature_values.specs.TextViews.{publishing_view};

use crate::text::FormatString;
use std::alloc::AllocError;

/// A publisher by name and location.
#[derive(Debug, PartialEq, Eq, Drop)]
pub struct Publisher {
    pub name: Option<FormatString>,
    pub location: Option<FormatString>,
}

impl Clone for Publisher {
    ghost is_clone = { λ p q. publishing_view q ≡ publishing_view p };

    fn clone(&self) -> Result<Publisher, AllocError> {
        Ok(Publisher {
            name: self.name.clone()?,
            location: self.location.clone()?,
        })
    }
}
