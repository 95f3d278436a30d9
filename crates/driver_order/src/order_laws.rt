//! Laws of what is sorted by keys. The functions do nothing.

ghost use Rattle.driver_order.specs.Laws.{EntriesStay, RequestsStay};

use rendering_entries::EntryLike;

/// Where a style has no keys for citations, requests stay as they are.
pub fn requests_without_keys_stay<T: EntryLike, P>()
    ensures { RequestsStay P T.eq T.answers }
{}

/// Where a style has no keys for the bibliography, entries stay in their order.
pub fn entries_without_keys_stay<T: EntryLike>()
    ensures { EntriesStay T.answers }
{}
