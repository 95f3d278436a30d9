//! What a call has printed so far.

ghost use Rattle.std.specs.Prelude.{◌≡◌, IfOk, OnOk};
ghost use Rattle.rendering_leaves.specs.NodeSettings.{begun, noted, standing, with_printed};

use crate::suppressed::{add_variable, set_variables};
use rendering_page::Page;
use rendering_people::NameDisambiguationProperties;
use rendering_taxonomy::Variable;
use std::alloc::{AllocError, Global};
use std::marker::Model;

/// What a call has printed so far, and what it remembers of it. After an error nothing is known of it.
#[derive(Drop)]
pub struct State<'a> {
    pub page: Page<'a>,
    /// Whether the first date was printed.
    pub has_date: bool,
    /// The variables that are not printed again, each once.
    pub suppressed: Vec<Variable>,
    /// Whether the test `disambiguate` was evaluated.
    pub met_disambiguate: bool,
    /// What was printed of the first names by their options.
    pub names: Option<NameDisambiguationProperties>,
    /// Whether the label of the entry was printed.
    pub used_label: bool,
    /// Whether the number of the entry was printed.
    pub used_number: bool,
    /// Whether the style is a published one.
    pub is_published: bool,
    /// The variables that substitutes printed in a published style, each once.
    pub printed: Vec<Variable>,
}

impl<'a> Model for State<'a> {
    ghost use Rattle.rendering_leaves.specs.NodeSettings as settings;

    ghost Value = { settings.State };

    ghost view = { λ s. record { page = s.page; has_date = s.has_date; suppressed = s.suppressed.items; met_disambiguate = s.met_disambiguate; names = s.names; used = record { label = s.used_label; number = s.used_number }; is_published = s.is_published; printed = s.printed.items } };
}

impl<'a> State<'a> {
    /// The state before anything was appended.
    pub fn new(alloc: Global) -> State<'a>
        ensures { result ≡ begun }
    {
        State {
            page: Page::new(alloc),
            has_date: false,
            suppressed: Vec::new(alloc),
            met_disambiguate: false,
            names: None,
            used_label: false,
            used_number: false,
            is_published: false,
            printed: Vec::new(alloc),
        }
    }

    /// Remembers that the test `disambiguate` was evaluated, if `met`.
    pub fn note(&mut self, met: bool)
        ensures { self.new ≡ noted met self.old }
    {
        self.met_disambiguate = self.met_disambiguate || met;
    }

    /// Remembers that a substitute printed a variable, which is not printed again: at once, or in a published style once the
    /// substitute stands.
    ///
    /// # Errors
    /// Out of memory.
    pub fn suppress(&mut self, variable: Variable) -> Result<(), AllocError>
        ensures { OnOk result (self.new ≡ with_printed variable self.old) }
    {
        if self.is_published {
            add_variable(&mut self.printed, variable)
        } else {
            add_variable(&mut self.suppressed, variable)
        }
    }

    /// Remembers that a substitute stands: what was printed in it is not printed again.
    ///
    /// # Errors
    /// Out of memory.
    pub fn stand(&mut self) -> Result<(), AllocError>
        ensures { OnOk result (self.new ≡ standing self.old) }
    {
        if !self.is_published {
            return Ok(());
        }
        set_variables(&mut self.suppressed, &self.printed)
    }

    /// A copy. Texts that were made are copied, borrowed ones are not.
    ///
    /// # Errors
    /// Out of memory.
    pub fn copied(&self) -> Result<State<'a>, AllocError>
        ensures { IfOk result (λ s. s ≡ self.now) }
    {
        Ok(State {
            page: self.page.clone()?,
            has_date: self.has_date,
            suppressed: self.suppressed.clone()?,
            met_disambiguate: self.met_disambiguate,
            names: copied_names(&self.names)?,
            used_label: self.used_label,
            used_number: self.used_number,
            is_published: self.is_published,
            printed: self.printed.clone()?,
        })
    }
}

/// A copy of what was printed of names.
fn copied_names(
    names: &Option<NameDisambiguationProperties>,
) -> Result<Option<NameDisambiguationProperties>, AllocError>
    ensures { IfOk result (λ n. n ≡ names.now) }
{
    match names {
        Some(names) => Ok(Some(names.clone()?)),
        None => Ok(None),
    }
}
