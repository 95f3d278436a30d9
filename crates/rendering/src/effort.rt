//! How many calls were made.

ghost use Rattle.std.specs.Prelude.{◌≡◌};
ghost use Rattle.laws.specs.Counts.{next_count};

use std::marker::Model;

/// How many calls of a style context were made; it stays at the greatest number that it holds.
#[derive(Debug, Drop)]
pub struct Effort {
    calls: u64,
}

impl Model for Effort {
    ghost use Rattle.std.specs.Prelude.{ℕ};

    ghost Value = { ℕ };

    ghost view = { λ e. e.calls };
}

impl Effort {
    /// The number of calls.
    pub fn count(&self) -> u64
        ensures { result ≡ self.now }
    {
        self.calls
    }

    /// Counts a call.
    pub(crate) fn count_one(&mut self)
        ensures { self.new ≡ next_count self.old }
    {
        self.calls = self.calls.saturating_add(1);
    }
}

impl Default for Effort {
    ghost is_default = { λ e. e ≡ 0 };

    fn default() -> Effort {
        Effort { calls: 0 }
    }
}
