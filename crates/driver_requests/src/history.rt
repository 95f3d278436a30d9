//! How entries stand after some requests.

ghost use Rattle.std.specs.Prelude.{◌≡◌, ◌<◌, ℕ, [], ◌∷◌, All, true, length, option_map, unwrap_or, OnOk};
ghost use Rattle.driver_requests.specs.History.{cited_by_note, cited_in, facts_from, is_within, noted_if, noted_in, after_request};
ghost use Rattle.driver_requests.specs.HistoryViews.{GivesFacts, facts_view, history_at, note_of};

use std::alloc::{AllocError, Global};

/// What is known of a cite from its index alone.
#[derive(Clone, Copy, Debug, PartialEq, Eq)]
pub struct CiteFacts {
    /// The number of the note that cited the entry first. Outside of notes there is none.
    pub first_note_number: Option<usize>,
    /// Whether an earlier note near this one cites the entry.
    pub is_near_note: bool,
    /// Whether no earlier cite is of the entry.
    pub is_first: bool,
}

/// How an entry stands after some requests: whether they cite it, the number of the first note that does, and the index of the last
/// one among the requests.
#[derive(Clone, Copy)]
pub(crate) struct History {
    pub(crate) is_cited: bool,
    pub(crate) first_note: Option<usize>,
    pub(crate) last_note: Option<usize>,
}

/// An entry that nothing cites.
pub(crate) const UNCITED: History = History {
    is_cited: false,
    first_note: None,
    last_note: None,
};

/// The index of a request among them all, the number of the note that it stands in, and how many requests before it are near.
#[derive(Clone, Copy)]
pub(crate) struct RequestNote {
    pub(crate) index: usize,
    pub(crate) number: Option<usize>,
    pub(crate) distance: usize,
}

impl History {
    /// The history of the entry once it is cited.
    fn cited(self) -> History
        ensures { result ≡ record self { is_cited = true } }
    {
        History {
            is_cited: true,
            first_note: self.first_note,
            last_note: self.last_note,
        }
    }

    /// The history of the entry once it is cited in the note of that number, in the request at that index.
    fn noted(self, index: usize, number: usize) -> History
        ensures { result ≡ cited_by_note index number self }
    {
        History {
            is_cited: self.is_cited,
            first_note: Some(self.first_note.unwrap_or(number)),
            last_note: Some(index),
        }
    }

    /// What is known of a cite of the entry.
    fn facts(self, note: RequestNote) -> CiteFacts
        ensures { facts_view result ≡ facts_from note.index note.number note.distance self }
    {
        CiteFacts {
            first_note_number: first_note(self.first_note, note.number),
            is_near_note: note.number.is_some() && is_within(note, self.last_note),
            is_first: !self.is_cited,
        }
    }
}

/// The number of the first note, which is the one of the cite where no earlier one cites the entry.
fn first_note(first: Option<usize>, number: Option<usize>) -> Option<usize>
    ensures { result ≡ option_map (λ n. unwrap_or first n) number }
{
    match number {
        Some(number) => Some(first.unwrap_or(number)),
        None => None,
    }
}

/// Whether the last note that cites an entry is near.
fn is_within(note: RequestNote, last: Option<usize>) -> bool
    ensures { result ≡ is_within note.index note.distance last }
{
    match last {
        Some(last) => note.index.saturating_sub(last) <= note.distance,
        None => false,
    }
}

/// The history of the entry at the index.
fn history_at(histories: &[History], entry: usize) -> History
    requires { entry < length histories.now }
    ensures { result ≡ history_at histories.now entry }
{
    histories[entry]
}

/// Notes that the entry at the index is cited.
fn cite(histories: &mut [History], entry: usize)
    requires { entry < length histories.old }
    ensures { (q : ℕ)
        → history_at histories.new q ≡ cited_in (entry ∷ []) q (history_at histories.old q) }
{
    let history = history_at(histories, entry).cited();
    histories[entry] = history;
}

/// Notes that the entry at the index is cited in the note of that number, in the request at that index.
fn note_cite(histories: &mut [History], entry: usize, index: usize, number: usize)
    requires { entry < length histories.old }
    ensures { (q : ℕ) → history_at histories.new q
        ≡ noted_in index number (entry ∷ []) q (history_at histories.old q) }
{
    let history = history_at(histories, entry).noted(index, number);
    histories[entry] = history;
}

/// Notes that the entries at the indices are cited in the note of that number, in the request at that index.
fn note_each(histories: &mut [History], entries: &[usize], index: usize, number: usize)
    requires { All (λ p. p < length histories.old) entries.now }
    ensures { (q : ℕ) → history_at histories.new q
        ≡ noted_in index number entries.now q (history_at histories.old q) }
{
    for entry in entries {
        note_cite(histories, *entry, index, number);
    }
}

/// What is known of the cites of the entries at the indices, which are cited one after the other.
fn cite_each(
    alloc: Global,
    histories: &mut [History],
    entries: &[usize],
    note: RequestNote,
) -> Result<Vec<CiteFacts>, AllocError>
    requires { All (λ p. p < length histories.old) entries.now }
    ensures facts { GivesFacts note entries.now histories.old result }
    ensures cited { OnOk result ((q : ℕ)
        → history_at histories.new q ≡ cited_in entries.now q (history_at histories.old q)) }
{
    let mut facts = Vec::new(alloc);
    for entry in entries {
        let history = history_at(histories, *entry);
        facts.push(history.facts(note))?;
        cite(histories, *entry);
    }
    Ok(facts)
}

/// What is known of the cites of a request, and how entries stand after it.
pub(crate) fn facts_in(
    alloc: Global,
    histories: &mut [History],
    entries: &[usize],
    note: RequestNote,
) -> Result<Vec<CiteFacts>, AllocError>
    requires { All (λ p. p < length histories.old) entries.now }
    ensures facts { GivesFacts note entries.now histories.old result }
    ensures after_request { OnOk result ((q : ℕ)
        → history_at histories.new q ≡ after_request note.index (note_of note entries.now) q
        (history_at histories.old q)) }
{
    let facts = cite_each(alloc, histories, entries, note)?;
    note_if(histories, entries, note);
    Ok(facts)
}

/// Notes that the entries at the indices are cited in the note that the request stands in, if it stands in one.
fn note_if(histories: &mut [History], entries: &[usize], note: RequestNote)
    requires { All (λ p. p < length histories.old) entries.now }
    ensures { (q : ℕ) → history_at histories.new q
        ≡ noted_if note.index note.number entries.now q (history_at histories.old q) }
{
    if let Some(number) = note.number {
        note_each(histories, entries, note.index, number);
    }
}
