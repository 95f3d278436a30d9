//! Cites with what is known of them from their indices.

ghost use Rattle.std.specs.Prelude.{◌≡◌, IfOk, is_some};
ghost use Rattle.std.specs.Option.{option_map};
ghost use Rattle.laws.specs.Counts.{next_count};
ghost use Rattle.rendering_context.specs.Views.{cite_properties_view, locator_view, state_view};
ghost use Rattle.rendering.specs.Purposes.{citation};
ghost use Rattle.rendering.specs.Views.{rendering_view};
ghost use Rattle.driver_rounds.specs.CitesInStep.{styled_view};
ghost use Rattle.driver_rounds.specs.FirstPrints.{has_suffix_date, printed_by, purpose_at_first};
ghost use Rattle.driver_rounds.specs.Views.{properties_with};

use driver_requests::{CitationItem, CiteFacts};
use rendering::{Effort, Rendering, StyleContext};
use rendering_context::{CiteProperties, DisambiguateState, SpecificLocator};
use rendering_entries::EntryLike;
use rendering_people::NameDisambiguationProperties;
use rendering_taxonomy::{CitePurpose, DateVariable, IbidState, IdentifierUsage};
use std::alloc::AllocError;

/// A cite with what is known of it from its index.
#[derive(Clone, Copy)]
pub struct NumberedCite<'n> {
    /// The index of its entry among all that are cited, from zero.
    pub entry: usize,
    /// Its index in its request, from zero.
    pub index: usize,
    pub note_number: Option<usize>,
    pub facts: CiteFacts,
    /// The number of its entry, from zero.
    pub number: usize,
    /// How it stands to the cite before it, as written.
    pub ibid: IbidState,
    /// How much of its first names is printed before cites are compared, where that is more than its style says.
    pub first_names: Option<&'n NameDisambiguationProperties>,
}

impl<'n> NumberedCite<'n> {
    /// What is known of it in a state of disambiguation.
    pub fn properties(
        self,
        state: DisambiguateState,
        locator: Option<SpecificLocator<'n, ()>>,
        ibid: IbidState,
        usage: IdentifierUsage,
    ) -> CiteProperties<'n>
        ensures { cite_properties_view result ≡ properties_with self.entry
            (state_view state) (option_map locator_view locator.entry) ibid usage }
    {
        CiteProperties {
            note_number: self.note_number,
            first_note_number: self.facts.first_note_number,
            is_near_note: self.facts.is_near_note,
            is_first: self.facts.is_first,
            initial_idx: self.index,
            locator,
            citation_number: self.number,
            ibid,
            disambiguation: state,
            identifier_usage: usage,
            first_names: self.first_names,
        }
    }
}

/// A cite with its item, and with the style that it is printed in.
#[derive_where(Clone, Copy)]
pub(crate) struct StyledCite<'r, 'c, T, P> {
    pub(crate) item: &'r CitationItem<'r, T, P>,
    pub(crate) context: &'c StyleContext<'c>,
    pub(crate) numbered: NumberedCite<'c>,
}

/// The purpose for which a cite is printed until states are final: a cite for its year is printed whole.
fn purpose_at_first(purpose: Option<CitePurpose>) -> Option<CitePurpose>
    ensures { result ≡ purpose_at_first purpose }
{
    match purpose {
        Some(CitePurpose::Year) => None,
        other => other,
    }
}

/// What a cite prints by a state, without its locator.
pub(crate) fn printed_by<T: EntryLike, P>(
    cite: StyledCite<'_, '_, T, P>,
    state: DisambiguateState,
    effort: &mut Effort,
) -> Result<Rendering, AllocError>
    ensures prints { IfOk result (λ r. rendering_view r
        ≡ printed_by (styled_view T.answers cite.entry) (state_view state)) }
    ensures effort { effort.new ≡ next_count effort.old }
{
    let numbered = cite.numbered;
    let properties = numbered.properties(state, None, numbered.ibid, IdentifierUsage::None);
    let purpose = purpose_at_first(cite.item.purpose);
    cite.context
        .citation(cite.item.entry, &properties, None, purpose, None, effort)
}

/// Whether an entry has a date that makes year suffixes possible.
pub(crate) fn has_suffix_date<T: EntryLike>(entry: &T) -> bool
    ensures { result ≡ has_suffix_date (T.answers entry.now) }
{
    has_date(entry, DateVariable::Issued)
        || has_date(entry, DateVariable::Accessed)
        || has_date(entry, DateVariable::AvailableDate)
        || has_date(entry, DateVariable::EventDate)
        || has_date(entry, DateVariable::Submitted)
        || has_date(entry, DateVariable::OriginalDate)
}

fn has_date<T: EntryLike>(entry: &T, variable: DateVariable) -> bool
    ensures { result ≡ is_some ((T.answers entry.now).date variable) }
{
    entry.resolve_date_variable(variable).is_some()
}
