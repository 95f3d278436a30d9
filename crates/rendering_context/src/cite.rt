//! What is known of a cite beside its entry.

ghost use Rattle.std.specs.Prelude.{◌≡◌, ◌+◌, ◌++◌, false, IfOk, OnOk};
ghost use Rattle.std.specs.Option.{option_map, option_map_or};
ghost use Rattle.laws.specs.Text.{characters};
ghost use Rattle.rendering_context.specs.Cites.{year_suffix_of, state_rank, may_change, allows_suffix, greater_state};
ghost use Rattle.rendering_context.specs.Answering as answering;
ghost use Rattle.rendering_context.specs.Choosing.{is_chosen};
ghost use Rattle.rendering_context.specs.Views.{answer_view, answer_if, cite_properties_view, locator_view, state_view};
ghost use Rattle.rendering_taxonomy.specs.Kinds.{is_locator};

use crate::answer::{Answer, count, locator};
use crate::locator::SpecificLocator;
use crate::variables::is_locator;
use rendering_people::NameDisambiguationProperties;
use rendering_taxonomy::{IbidState, IdentifierUsage, Locator, PageRangeFormat};
use std::alloc::{AllocError, Global};

/// The state of disambiguation of a cite: none, more of its names, other branches of the style, or a year suffix.
#[derive(Debug, Default, PartialEq, Eq, Hash, Drop)]
pub enum DisambiguateState {
    #[default]
    None,
    NameDisambiguation(NameDisambiguationProperties),
    Choose,
    /// The index of the year suffix, from zero.
    YearSuffix(u8),
}

/// What is known of a cite beside its entry.
#[derive(Debug, Drop)]
pub struct CiteProperties<'a> {
    /// The number of the note that it stands in.
    pub note_number: Option<usize>,
    /// The number of the note in which its entry was cited first.
    pub first_note_number: Option<usize>,
    /// Whether it stands near that note.
    pub is_near_note: bool,
    /// Whether its entry was not cited before.
    pub is_first: bool,
    /// Its index in its request, from zero.
    pub initial_idx: usize,
    /// The part of the work that it cites. What the caller prints by itself is not looked at.
    pub locator: Option<SpecificLocator<'a, ()>>,
    /// The index of its entry among all that are cited, from zero.
    pub citation_number: usize,
    /// How it stands to the cite before it.
    pub ibid: IbidState,
    pub disambiguation: DisambiguateState,
    /// Which identifiers the entry's cites printed.
    pub identifier_usage: IdentifierUsage,
    /// How much of its first names is printed before cites are compared, where that is more than the style says.
    pub first_names: Option<&'a NameDisambiguationProperties>,
}

impl<'a> CiteProperties<'a> {
    /// The same cite as it stands where the one before it is of another entry.
    ///
    /// # Errors
    /// Out of memory.
    pub fn elsewhere(&self) -> Result<CiteProperties<'a>, AllocError>
        ensures { IfOk result (λ p. cite_properties_view p
            ≡ record (cite_properties_view self.now) { ibid = IbidState.Different }) }
    {
        Ok(CiteProperties {
            note_number: self.note_number,
            first_note_number: self.first_note_number,
            is_near_note: self.is_near_note,
            is_first: self.is_first,
            initial_idx: self.initial_idx,
            locator: self.plain_locator(),
            citation_number: self.citation_number,
            ibid: IbidState::Different,
            disambiguation: self.disambiguation.clone()?,
            identifier_usage: self.identifier_usage,
            first_names: self.first_names,
        })
    }

    fn plain_locator(&self) -> Option<SpecificLocator<'a, ()>>
        ensures { option_map locator_view result ≡ (cite_properties_view self.now).locator }
    {
        match &self.locator {
            Some(locator) => Some(locator.without_payload()),
            None => None,
        }
    }

    /// The number of its entry among all that are cited, counted from one.
    pub(crate) fn number_answer(&self, alloc: Global) -> Result<Answer<'a>, AllocError>
        ensures { IfOk result (λ a. answer_view a
            ≡ answering.of_count (self.now.citation_number + 1)) }
    {
        count(alloc, self.citation_number as u128 + 1)
    }

    /// The number of the note in which its entry was cited first, where it is known.
    pub(crate) fn first_note_answer(&self, alloc: Global) -> Result<Option<Answer<'a>>, AllocError>
        ensures { IfOk result (λ a. answer_if a
            ≡ answering.or_no_answer answering.of_count self.now.first_note_number) }
    {
        match self.first_note_number {
            Some(number) => Ok(Some(count(alloc, number as u128)?)),
            None => Ok(None),
        }
    }

    /// The locator as a node prints it in a style that shortens ranges of pages so, be it a published one or not, where there is one.
    pub(crate) fn locator_answer(
        &self,
        alloc: Global,
        format: Option<PageRangeFormat>,
        is_published: bool,
    ) -> Result<Option<Answer<'a>>, AllocError>
        ensures { IfOk result (λ a. answer_if a ≡ answering.or_no_answer
            (answering.of_locator format is_published) (cite_properties_view self.now).locator) }
    {
        match &self.locator {
            Some(cited) => locator(alloc, format, is_published, cited),
            None => Ok(None),
        }
    }

    /// Whether the locator is of more than one.
    pub(crate) fn has_plural_locator(&self) -> bool
        ensures { result ≡ option_map_or (λ l. answering.is_plural_payload l.payload)
            (cite_properties_view self.now).locator false }
    {
        match &self.locator {
            Some(locator) => locator.payload.is_plural(),
            None => false,
        }
    }

    /// Whether the locator spells a number.
    pub(crate) fn has_numeric_locator(&self, alloc: Global) -> Result<bool, AllocError>
        ensures { IfOk result (λ b. b ≡ option_map_or (λ l. answering.is_numeric_payload l.payload)
            (cite_properties_view self.now).locator false) }
    {
        match &self.locator {
            Some(locator) => locator.payload.is_numeric(alloc),
            None => Ok(false),
        }
    }

    /// Whether the locator has this label.
    pub(crate) fn has_locator(&self, label: Locator) -> bool
        ensures { result ≡ option_map_or (λ m. is_locator label m.label)
            (cite_properties_view self.now).locator false }
    {
        match &self.locator {
            Some(locator) => is_locator(label, locator.label),
            None => false,
        }
    }
}

impl DisambiguateState {
    /// Whether names and branches may still change it.
    pub fn may_change(&self) -> bool
        ensures { result ≡ may_change (state_view self.now) }
    {
        match self {
            DisambiguateState::None | DisambiguateState::NameDisambiguation(_) => true,
            DisambiguateState::Choose | DisambiguateState::YearSuffix(_) => false,
        }
    }

    /// Whether a year suffix may still be given.
    pub fn allows_suffix(&self) -> bool
        ensures { result ≡ allows_suffix (state_view self.now) }
    {
        match self {
            DisambiguateState::YearSuffix(_) => false,
            _ => true,
        }
    }

    /// The greater of two states: the one whose variant stands later in the list; of one variant the one that prints more of the names or
    /// has the greater index.
    pub fn max(self, other: DisambiguateState) -> DisambiguateState
        ensures { state_view result ≡ greater_state (state_view self) (state_view other) }
    {
        match (self, other) {
            (
                DisambiguateState::NameDisambiguation(one),
                DisambiguateState::NameDisambiguation(two),
            ) => { DisambiguateState::NameDisambiguation(one.max(two)) }
            (DisambiguateState::YearSuffix(one), DisambiguateState::YearSuffix(two)) => {
                DisambiguateState::YearSuffix(one.max(two))
            }
            (one, two) => { if two.rank() < one.rank() { one } else { two } }
        }
    }

    /// A copy.
    ///
    /// # Errors
    /// Out of memory.
    pub fn clone(&self) -> Result<DisambiguateState, AllocError>
        ensures { IfOk result (λ s. state_view s ≡ state_view self.now) }
    {
        match self {
            DisambiguateState::None => Ok(DisambiguateState::None),
            DisambiguateState::NameDisambiguation(names) => {
                Ok(DisambiguateState::NameDisambiguation(names.clone()?))
            }
            DisambiguateState::Choose => Ok(DisambiguateState::Choose),
            DisambiguateState::YearSuffix(index) => Ok(DisambiguateState::YearSuffix(*index)),
        }
    }

    /// Appends the year suffix, where there is one.
    ///
    /// # Errors
    /// Out of memory alone.
    pub fn push_suffix(&self, out: &mut String) -> Result<(), AllocError>
        ensures { OnOk result (characters out.new
            ≡ characters out.old ++ year_suffix_of (state_view self.now)) }
    {
        match self {
            DisambiguateState::YearSuffix(index) => rendering_numbers::push_year_suffix(
                out,
                u16::from(*index),
            ),
            _ => Ok(()),
        }
    }

    /// Whether the cite is to be disambiguated by branches.
    pub(crate) fn is_chosen(&self) -> bool
        ensures { result ≡ is_chosen (state_view self.now) }
    {
        matches!(self, DisambiguateState::Choose)
    }

    /// The index of its variant.
    fn rank(&self) -> u8
        ensures { result ≡ state_rank (state_view self.now) }
    {
        match self {
            DisambiguateState::None => 0,
            DisambiguateState::NameDisambiguation(_) => 1,
            DisambiguateState::Choose => 2,
            DisambiguateState::YearSuffix(_) => 3,
        }
    }
}
