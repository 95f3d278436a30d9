//! The words of a call.

ghost use Rattle.std.specs.Prelude.{◌≡◌, IfOk};
ghost use Rattle.laws.specs.Text.{characters};
ghost use Rattle.rendering_context.specs.Cites.{year_suffix_of};
ghost use Rattle.rendering_context.specs.Views.{state_view};

use rendering_context::DisambiguateState;
use rendering_locale::AskedLocales;
use std::alloc::{AllocError, Global};
use texts::empty_text;

/// The words of a call, which `StyleContext::words` gives.
#[derive(Drop)]
pub struct Words<'a> {
    /// The locales that are asked.
    pub locales: AskedLocales<'a>,
    /// Their close quotes inside which punctuation goes.
    pub quotes: Vec<&'a str>,
    /// Whether their language is English.
    pub are_english: bool,
}

/// The text of a year suffix; empty where there is none.
#[derive(Drop)]
pub struct YearSuffixText(pub String);

impl YearSuffixText {
    /// The year suffix of a state of disambiguation.
    ///
    /// # Errors
    /// Out of memory.
    pub fn new(alloc: Global, state: &DisambiguateState) -> Result<YearSuffixText, AllocError>
        ensures { IfOk result (λ l. characters l.0 ≡ year_suffix_of (state_view state.now)) }
    {
        let mut year_suffix = empty_text(alloc);
        state.push_suffix(&mut year_suffix)?;
        Ok(YearSuffixText(year_suffix))
    }
}
