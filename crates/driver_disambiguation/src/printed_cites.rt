//! Cites by the texts that they print.

ghost use Rattle.driver_disambiguation.specs.Numbered.{AreNumbered};

use crate::classes::classes;
use crate::hashed_text::HashedText;
use crate::numbers::{number_of, numbers_of};
use crate::round::{given_to_classes, names_given, some_prints_date};
use driver_names::{GivenState, Printed, plain_text};
use driver_requests::DriverError;
use rendering_context::DisambiguateState;
use rendering_tree::ElemChildren;
use std::alloc::{AllocError, Global};
use std::collections::BTreeMap;

/// Cites, each in the class of those that print the same text. The map from texts to classes is filled once; a cite that is printed again
/// is taken out of its class and put into the one of its new text.
pub struct PrintedCites {
    cites: Vec<Printed>,
    /// Of each cite the number of its class.
    numbers: Vec<usize>,
    /// The numbers of the classes of all texts.
    texts: BTreeMap<HashedText, usize>,
    ghost numbered: { AreNumbered texts numbers.items cites.items },
}

impl Drop for PrintedCites {
    fn drop(self) {
        let PrintedCites {
            cites: _,
            numbers: _,
            texts: _,
        } = self;
    }
}

impl PrintedCites {
    ghost use Rattle.std.specs.Prelude.{◌≡◌, ◌<◌, length, map, slice_index_or, slice_set, IfOk, OnOk};
    ghost use Rattle.laws.specs.Results.{Gives};
    ghost use Rattle.rendering_context.specs.Views.{state_view};
    ghost use Rattle.rendering_tree.specs.Views.{tree_view};
    ghost use Rattle.driver_requests.specs.Errors.{overflow_of};
    ghost use Rattle.driver_names.specs.Prints as prints;
    ghost use Rattle.driver_disambiguation.specs.CitesViews.{printed_cites_view};
    ghost use Rattle.driver_disambiguation.specs.Rounds as rounds;
    ghost use Rattle.driver_names.specs.Views.{given_states_view, printed_again, printed_view};
    ghost use Rattle.driver_disambiguation.specs.Views.{unless_beyond};

    /// Cites in classes by what they print.
    ///
    /// # Errors
    /// Out of memory.
    pub fn new(alloc: Global, cites: Vec<Printed>) -> Result<PrintedCites, AllocError>
        ensures { IfOk result (λ c. printed_cites_view c ≡ map printed_view cites.items) }
    {
        let mut texts = BTreeMap::new(alloc);
        let numbers = numbers_of(alloc, &mut texts, cites.as_slice())?;
        Ok(PrintedCites {
            cites,
            numbers,
            texts,
        })
    }

    /// All cites in their order.
    pub fn as_slice(&self) -> &[Printed]
        ensures { map printed_view result.now ≡ printed_cites_view self.now }
    {
        self.cites.as_slice()
    }

    /// All cites in their order, without their classes.
    pub fn into_cites(self) -> Vec<Printed>
        ensures { map printed_view result.items ≡ printed_cites_view self }
    {
        let PrintedCites {
            cites,
            numbers: _,
            texts: _,
        } = self;
        cites
    }

    /// What a round gives to the entries of cites, class by class.
    ///
    /// # Errors
    /// `Overflow` where more than 256 entries that print alike need year suffixes; `Memory` where a request for memory was refused.
    pub fn round_given(
        &self,
        alloc: Global,
        adds_names: bool,
        round: u8,
    ) -> Result<Vec<GivenState>, DriverError>
        ensures { Gives overflow_of (λ g. given_states_view g.items) result
            (unless_beyond (rounds.round_given adds_names round (printed_cites_view self.now))) }
    {
        let cites = self.cites.as_slice();
        let classes = classes(alloc, &self.texts, self.numbers.as_slice(), cites)?;
        given_to_classes(
            alloc,
            adds_names,
            some_prints_date(cites),
            round,
            classes.as_slice(),
        )
    }

    /// What names alone give to the entries of cites, class by class.
    ///
    /// # Errors
    /// Out of memory.
    pub fn names_given(
        &self,
        alloc: Global,
        adds_names: bool,
    ) -> Result<Vec<GivenState>, AllocError>
        ensures { IfOk result (λ g. given_states_view g.items
            ≡ rounds.names_given adds_names (printed_cites_view self.now)) }
    {
        let cites = self.cites.as_slice();
        let classes = classes(alloc, &self.texts, self.numbers.as_slice(), cites)?;
        names_given(alloc, adds_names, classes.as_slice())
    }

    /// Makes the cite at an index the one that prints a tree by another state.
    ///
    /// # Errors
    /// Out of memory.
    pub fn print_by(
        &mut self,
        alloc: Global,
        cite: usize,
        state: DisambiguateState,
        printed: ElemChildren,
    ) -> Result<(), AllocError>
        requires { cite < length (printed_cites_view self.old) }
        ensures { OnOk result ((d : prints.Printed)
            → printed_cites_view self.new ≡ slice_set (printed_cites_view self.old) cite
            (printed_again (slice_index_or (printed_cites_view self.old) cite d)
            (state_view state) (tree_view printed))) }
    {
        let text = plain_text(alloc, &printed)?;
        let number = number_of(alloc, &mut self.texts, text.as_str())?;
        self.numbers[cite] = number;
        self.cites[cite].set_print(state, printed, text);
        Ok(())
    }
}
