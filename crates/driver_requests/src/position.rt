//! How cites stand to those before them.

ghost use Rattle.std.specs.Prelude.{◌≡◌, ◌&&◌, Bool, ℕ, Some, bytes_eq, chars, IfSome};
ghost use Rattle.std.specs.Option.{option_eq, option_map};
ghost use Rattle.rendering_entries.specs.Answers.{Answers};
ghost use Rattle.rendering_taxonomy.specs.Kinds as kinds;
ghost use Rattle.driver_requests.specs.Positions.{follows_several, ibid_after, ibid_at, ibid_of_same_entry};
ghost use Rattle.driver_requests.specs.Requests.{Item, is_payload, is_specific_locator};
ghost use Rattle.driver_requests.specs.Views.{item_view, last_view, request_locator_view, request_payload_view};

use crate::item::CitationItem;
use rendering_context::{LocatorPayload, SpecificLocator};
use rendering_taxonomy::{IbidState, Locator};

/// The cite before another one.
#[derive_where(Clone, Copy)]
pub struct LastCite<'r, T, P> {
    pub item: &'r CitationItem<'r, T, P>,
    /// The index of its entry among all that are cited, from zero.
    pub entry: usize,
    /// Its index in its request, from zero.
    pub index: usize,
}

/// How an item stands to the cite before it, which counts or not, by its index in its request and the index of its entry. Where ibid is to
/// follow citations of one cite, it does not repeat one of several.
pub fn ibid_of<T, P: PartialEq>(
    last: Option<LastCite<'_, T, P>>,
    counts: bool,
    after_one: bool,
    index: usize,
    item: &CitationItem<'_, T, P>,
    entry: usize,
) -> IbidState
    ensures { (answers : T → Answers) (counting : Item P → Bool)
        → IfSome last.entry (λ l. counts ≡ counting (last_view answers l).1) → result
        ≡ ibid_at P.eq counting after_one index (option_map (last_view answers) last.entry)
        (item_view (λ e. entry) answers item.now) }
{
    match last {
        Some(last) => {
            if may_not_repeat(after_one, index, last.index) {
                IbidState::Different
            } else {
                ibid_after(last.item, last.entry, counts, item, entry)
            }
        }
        None => IbidState::Different,
    }
}

/// Whether an item at an index in its request may not repeat the cite before it, which has an index in its own.
fn may_not_repeat(after_one: bool, index: usize, before: usize) -> bool
    ensures { result ≡ (after_one && follows_several index before) }
{
    after_one && index == 0 && before != 0
}

/// How an item of an entry stands to one of another or the same entry, which counts or not.
fn ibid_after<T, P: PartialEq>(
    last: &CitationItem<'_, T, P>,
    last_entry: usize,
    counts: bool,
    item: &CitationItem<'_, T, P>,
    entry: usize,
) -> IbidState
    ensures { (answers : T → Answers) (counting : Item P → Bool)
        → counts ≡ counting (item_view (λ e. last_entry) answers last.now) → result
        ≡ ibid_after P.eq counting (Some (item_view (λ e. last_entry) answers last.now))
        (item_view (λ e. entry) answers item.now) }
{
    if counts && last_entry == entry {
        ibid_of_same_entry(last, item)
    } else {
        IbidState::Different
    }
}

/// How a cite stands to one of the same entry.
fn ibid_of_same_entry<T, P: PartialEq>(
    last: &CitationItem<'_, T, P>,
    item: &CitationItem<'_, T, P>,
) -> IbidState
    ensures { (index : T → ℕ) (answers : T → Answers) → result ≡ ibid_of_same_entry P.eq
        (item_view index answers last.now) (item_view index answers item.now) }
{
    if is_same_locator(&last.locator, &item.locator) {
        IbidState::Ibid
    } else if item.locator.is_none() {
        IbidState::Different
    } else {
        IbidState::IbidWithLocator
    }
}

/// Whether two locators are one, or neither is there.
fn is_same_locator<P: PartialEq>(
    last: &Option<SpecificLocator<'_, P>>,
    locator: &Option<SpecificLocator<'_, P>>,
) -> bool
    ensures { result ≡ option_eq (is_specific_locator P.eq)
        (option_map request_locator_view last.now) (option_map request_locator_view locator.now) }
{
    match (last, locator) {
        (Some(last), Some(locator)) => is_specific_locator(last, locator),
        (None, None) => true,
        _ => false,
    }
}

/// Whether two locators are one.
fn is_specific_locator<P: PartialEq>(
    last: &SpecificLocator<'_, P>,
    locator: &SpecificLocator<'_, P>,
) -> bool
    ensures { result ≡ is_specific_locator P.eq
        (request_locator_view last.now) (request_locator_view locator.now) }
{
    is_locator(last.label, locator.label) && is_payload(&last.payload, &locator.payload)
}

/// Whether two labels are one.
fn is_locator(label: Locator, other: Locator) -> bool
    ensures { result ≡ kinds.is_locator label other }
{
    label == other
}

/// Whether two payloads are one. The caller decides of its own.
fn is_payload<P: PartialEq>(last: &LocatorPayload<'_, P>, payload: &LocatorPayload<'_, P>) -> bool
    ensures { result
        ≡ is_payload P.eq (request_payload_view last.now) (request_payload_view payload.now) }
{
    match (last, payload) {
        (LocatorPayload::Str(last), LocatorPayload::Str(text)) => is_text(last, text),
        (LocatorPayload::Transparent(last), LocatorPayload::Transparent(own)) => {
            last.payload == own.payload
        }
        _ => false,
    }
}

/// Whether two texts are one.
fn is_text(text: &str, other: &str) -> bool
    ensures { result ≡ bytes_eq (chars text.now) (chars other.now) }
{
    text == other
}
