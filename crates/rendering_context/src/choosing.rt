//! Which conditions are met.

ghost use Rattle.std.specs.Prelude.{◌≡◌, false, map, IfOk};
ghost use Rattle.std.specs.List.{list_all, list_any};
ghost use Rattle.std.specs.Option.{option_map_or};
ghost use Rattle.rendering_context.specs.Choosing as choosing;
ghost use Rattle.rendering_context.specs.Views.{context_view, cite_properties_view};
ghost use Rattle.rendering_style.specs.Views.{condition_view, test_view};

use crate::cite::CiteProperties;
use crate::context::Context;
use rendering_entries::EntryLike;
use rendering_style::{ChooseTest, Condition};
use rendering_taxonomy::{ChooseMatch, DateVariable, IbidState, TestPosition};
use std::alloc::AllocError;

impl<'s, 'a> Context<'s, 'a> {
    /// Whether the condition is met.
    ///
    /// # Errors
    /// Out of memory.
    pub fn is_met<E: EntryLike>(
        &self,
        entry: &'a E,
        condition: &Condition,
    ) -> Result<bool, AllocError>
        ensures { IfOk result (λ b. b ≡ choosing.is_met
            (context_view (E.answers entry.now) self.now) (condition_view condition.now)) }
    {
        let tests = condition.tests.as_slice();
        match condition.required {
            ChooseMatch::All => self.all_hold(entry, tests),
            ChooseMatch::Any => self.any_holds(entry, tests),
            ChooseMatch::None => Ok(!self.any_holds(entry, tests)?),
        }
    }

    fn all_hold<E: EntryLike>(&self, entry: &'a E, tests: &[ChooseTest]) -> Result<bool, AllocError>
        ensures { IfOk result (λ b. b
            ≡ list_all (choosing.holds (context_view (E.answers entry.now) self.now))
            (map test_view tests.now)) }
    {
        for test in tests {
            if !self.holds(entry, *test)? {
                return Ok(false);
            }
        }
        Ok(true)
    }

    /// Whether one of the tests holds.
    fn any_holds<E: EntryLike>(
        &self,
        entry: &'a E,
        tests: &[ChooseTest],
    ) -> Result<bool, AllocError>
        ensures { IfOk result (λ b. b
            ≡ list_any (choosing.holds (context_view (E.answers entry.now) self.now))
            (map test_view tests.now)) }
    {
        for test in tests {
            if self.holds(entry, *test)? {
                return Ok(true);
            }
        }
        Ok(false)
    }

    /// Whether the test holds. Tests see variables also where they are not printed again.
    fn holds<E: EntryLike>(&self, entry: &'a E, test: ChooseTest) -> Result<bool, AllocError>
        ensures { IfOk result (λ b. b
            ≡ choosing.holds (context_view (E.answers entry.now) self.now) (test_view test)) }
    {
        match test {
            ChooseTest::Type(kind) => Ok(entry.matches_entry_type(kind)),
            ChooseTest::Variable(variable) => self.has_answer(entry, variable),
            ChooseTest::IsNumeric(variable) => self.is_numeric(entry, variable),
            ChooseTest::IsUncertainDate(variable) => Ok(is_uncertain(entry, variable)),
            ChooseTest::Locator(label) => Ok(self.properties.has_locator(label)),
            ChooseTest::Position(position) => Ok(self.properties.is_at(position)),
            ChooseTest::Disambiguate => Ok(self.properties.disambiguation.is_chosen()),
        }
    }
}

impl CiteProperties<'_> {
    /// Whether the cite is at the position. A cite that repeats the one before it, is near the first note or is not the first of its
    /// entry is a subsequent one.
    fn is_at(&self, position: TestPosition) -> bool
        ensures { result ≡ choosing.is_at (cite_properties_view self.now) position }
    {
        match position {
            TestPosition::First => self.is_first,
            TestPosition::Subsequent => is_ibid(self.ibid) || self.is_near_note || !self.is_first,
            TestPosition::Ibid => is_ibid(self.ibid),
            TestPosition::IbidWithLocator => is_ibid_with_locator(self.ibid),
            TestPosition::NearNote => self.is_near_note,
        }
    }
}

/// Whether the cite before is of the same entry.
pub fn is_ibid(ibid: IbidState) -> bool
    ensures { result ≡ choosing.is_ibid ibid }
{
    match ibid {
        IbidState::Different => false,
        IbidState::IbidWithLocator | IbidState::Ibid => true,
    }
}

/// Whether the cite before is of the same entry and has another locator.
fn is_ibid_with_locator(ibid: IbidState) -> bool
    ensures { result ≡ choosing.is_ibid_with_locator ibid }
{
    match ibid {
        IbidState::Different | IbidState::Ibid => false,
        IbidState::IbidWithLocator => true,
    }
}

/// Whether the entry's date is uncertain.
fn is_uncertain<E: EntryLike>(entry: &E, variable: DateVariable) -> bool
    ensures { result
        ≡ option_map_or (λ d. d.approximate) ((E.answers entry.now).date variable) false }
{
    match entry.resolve_date_variable(variable) {
        Some(date) => date.approximate,
        None => false,
    }
}

/// Whether a condition has the test `disambiguate`.
pub fn asks_disambiguate(condition: &Condition) -> bool
    ensures { result ≡ choosing.asks_disambiguate (condition_view condition.now) }
{
    for test in &condition.tests {
        if is_disambiguate(*test) {
            return true;
        }
    }
    false
}

/// Whether a test is `disambiguate`.
fn is_disambiguate(test: ChooseTest) -> bool
    ensures { result ≡ choosing.is_disambiguate (test_view test) }
{
    match test {
        ChooseTest::Disambiguate => true,
        _ => false,
    }
}
