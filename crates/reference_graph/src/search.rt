//! The search through the references.

ghost use Rattle.std.specs.Prelude.{◌≡◌, ◌-◌, ◌<◌, ◌≤◌, ◌↔◌, ℕ, [], length, map, Contains, IfOk, IsTrue, MatchOption, slice_index};
ghost use Rattle.reference_graph.specs.References.{lists, references_of};
ghost use Rattle.reference_graph.specs.Search.{search_view, begun, entered, left, finished, written, last, visit_of, unread_of, is_new};
ghost use Rattle.reference_graph.specs.Invariant.{IsInvariant, Rising, IsRing, IsCutTo, IsMet, IsStep, FollowsTo};

use std::alloc::{AllocError, Global};

/// Where a number is in the search.
#[derive(Clone, Copy)]
pub(crate) enum Visit {
    /// Not met yet.
    New,
    /// On the path, at this index.
    At(usize),
    /// Ordered, and so is all that it leads to.
    Done,
}

/// A search, depth first. The numbers of the path stand in groups side by side: those of a group reach each other, and
/// reach those of the groups after.
#[derive(Drop)]
pub(crate) struct Search {
    /// Where each number is in the search.
    pub visits: Vec<Visit>,
    /// How many references of each number are not read yet; the last ones are read first.
    pub unread: Vec<usize>,
    /// The numbers that are met and not ordered.
    pub path: Vec<usize>,
    /// The indices on the path of the numbers that are being read, each met from the one before it.
    pub reading: Vec<usize>,
    /// The indices on the path at which the groups begin.
    pub starts: Vec<usize>,
    /// The numbers that are ordered.
    pub order: Vec<usize>,
    /// For each number whether it is ordered and reaches itself.
    pub circular: Vec<bool>,
}

impl Search {
    /// A search that has met nothing.
    pub fn new(alloc: Global, references: &[Vec<usize>]) -> Result<Search, AllocError>
        ensures { IfOk result (λ s. search_view s ≡ begun (lists references.now)) }
    {
        Ok(Search {
            visits: vec![in alloc; Visit::New; references.len()]?,
            unread: lengths(alloc, references)?,
            path: Vec::new(alloc),
            reading: Vec::new(alloc),
            starts: Vec::new(alloc),
            order: Vec::new(alloc),
            circular: vec![in alloc; false; references.len()]?,
        })
    }

    /// Whether the number is not met yet.
    pub fn is_new(&self, number: usize) -> bool
        ensures { result ≡ is_new (visit_of (search_view self.now) number) }
    {
        matches!(self.visits.get(number), Some(Visit::New))
    }

    /// Puts the number last on the path, in a group of its own, to be read next.
    pub fn enter(&mut self, number: usize) -> Result<(), AllocError>
        requires { number < length self.old.visits.items }
        ensures { IfOk result (λ _. search_view self.new ≡ entered (search_view self.old) number) }
    {
        let index = self.path.len();
        self.path.push(number)?;
        self.reading.push(index)?;
        self.starts.push(index)?;
        self.visits[number] = Visit::At(index);
        Ok(())
    }

    /// Meets a number that another refers to, or makes one group from its group on.
    pub fn follow(&mut self, number: usize) -> Result<(), AllocError>
        requires { Rising self.old.starts.items }
        ensures { IfOk result (λ _. FollowsTo (visit_of (search_view self.old) number)
            (search_view self.old) number (search_view self.new)) }
    {
        match self.visits.get(number).copied() {
            Some(Visit::New) => self.enter(number)?,
            Some(Visit::At(index)) => cut_to(&mut self.starts, index),
            Some(Visit::Done) | None => {}
        }
        Ok(())
    }

    /// Orders the last group, which begins at the index, and marks it or not; its first number is read.
    pub fn finish(&mut self, start: usize, circular: bool) -> Result<(), AllocError>
        requires start { start ≤ length self.old.path.items }
        requires there { (i : ℕ) → i < length self.old.path.items
            → slice_index self.old.path.items i < length self.old.visits.items }
        requires marks { length self.old.circular.items ≡ length self.old.visits.items }
        ensures { IfOk result (λ _. search_view self.new
            ≡ finished (left (search_view self.old)) start circular) }
    {
        self.order.extend_from_slice(&self.path[start..])?;
        write_each(&mut self.visits, &self.path[start..], Visit::Done);
        write_each(&mut self.circular, &self.path[start..], circular);
        self.path.truncate(start);
        let _ = self.starts.pop();
        let _ = self.reading.pop();
        Ok(())
    }

    /// The number at the index, which was met last, is read whole; its group is, if it begins with it.
    pub fn leave(&mut self, references: &[Vec<usize>], index: usize) -> Result<(), AllocError>
        requires holds { IsInvariant (lists references.now) (search_view self.old) }
        requires some { 0 < length self.old.reading.items }
        requires last { index ≡ last self.old.reading.items }
        requires whole { unread_of (search_view self.old) (slice_index self.old.path.items index)
            ≡ 0 }
        ensures { IfOk result (λ _.
            IsStep (lists references.now) (search_view self.old) (search_view self.new)) }
    {
        if ends_in(&self.starts, index) {
            let circular = is_ring(references, self, index);
            return self.finish(index, circular);
        }
        let _ = self.reading.pop();
        Ok(())
    }

    /// Reads one more reference of the number at the index, which was met last, or leaves it.
    pub fn step(&mut self, references: &[Vec<usize>], index: usize) -> Result<(), AllocError>
        requires holds { IsInvariant (lists references.now) (search_view self.old) }
        requires some { 0 < length self.old.reading.items }
        requires last { index ≡ last self.old.reading.items }
        ensures { IfOk result (λ _.
            IsStep (lists references.now) (search_view self.old) (search_view self.new)) }
    {
        let number = self.path[index];
        let unread = self.unread[number];
        if unread == 0 {
            return self.leave(references, index);
        }
        self.follow(reference_at(references, number, unread - 1))?;
        self.unread[number] = unread - 1;
        Ok(())
    }

    /// Orders the number and all that it leads to.
    pub fn visit(&mut self, references: &[Vec<usize>], number: usize) -> Result<(), AllocError>
        requires there { number < length references.now }
        requires holds { IsInvariant (lists references.now) (search_view self.old) }
        requires free { self.old.path.items ≡ [] }
        ensures holds { IfOk result (λ _.
            IsInvariant (lists references.now) (search_view self.new)) }
        ensures free { IfOk result (λ _. self.new.path.items ≡ []) }
        ensures met { IfOk result (λ _. (v : ℕ) → IsMet (search_view self.old) v
            → IsMet (search_view self.new) v) }
        ensures itself { IfOk result (λ _. IsMet (search_view self.new) number) }
    {
        if !self.is_new(number) {
            return Ok(());
        }
        self.enter(number)?;
        while let Some(index) = last_of(&self.reading) {
            self.step(references, index)?;
        }
        Ok(())
    }
}

/// How many references each number has.
fn lengths(alloc: Global, references: &[Vec<usize>]) -> Result<Vec<usize>, AllocError>
    ensures { IfOk result (λ v. v.items ≡ map (λ r. length r.items) references.now) }
{
    references
        .iter()
        .map(|list| list.as_slice().len())
        .collect(alloc)
}

/// Takes away the starts of groups after the index.
fn cut_to(starts: &mut Vec<usize>, index: usize)
    requires { Rising starts.old.items }
    ensures { IsCutTo index starts.old.items starts.new.items }
{
    while let Some(start) = last_of(starts) {
        if start <= index {
            break;
        }
        let _ = starts.pop();
    }
}

fn last_of(numbers: &[usize]) -> Option<usize>
    ensures { MatchOption result (length numbers.now ≡ 0) (λ x. (0 < length numbers.now)
        × (x ≡ last numbers.now)) }
{
    numbers.last().copied()
}

/// Whether the number is the last of the numbers.
fn ends_in(numbers: &[usize], number: usize) -> bool
    ensures { IsTrue result ↔ ((0 < length numbers.now) × (last numbers.now ≡ number)) }
{
    match last_of(numbers) {
        Some(last) => last == number,
        None => false,
    }
}

/// The reference of the number at the index.
fn reference_at(references: &[Vec<usize>], number: usize, index: usize) -> usize
    requires there { number < length references.now }
    requires some { index < length (references_of (lists references.now) number) }
    ensures { result ≡ slice_index (references_of (lists references.now) number) index }
{
    references[number][index]
}

/// Writes the value at each of the indices.
fn write_each<T: Copy>(values: &mut [T], indices: &[usize], value: T)
    requires { (i : ℕ) → i < length indices.now → slice_index indices.now i < length values.old }
    ensures { values.new ≡ written indices.now value values.old }
{
    for index in indices {
        values[*index] = value;
    }
}

/// Whether the number stands in the list.
fn refers_to(list: &[usize], number: usize) -> bool
    ensures { IsTrue result ↔ Contains list.now number }
{
    list.contains(&number)
}

/// Whether the last group, which begins at the index, is a ring.
fn is_ring(references: &[Vec<usize>], search: &Search, start: usize) -> bool
    requires start { start < length search.now.path.items }
    requires there { slice_index search.now.path.items start < length references.now }
    ensures { IsTrue result ↔ IsRing (lists references.now) (search_view search.now) start }
{
    if search.path.len() - start > 1 {
        return true;
    }
    let number = search.path[start];
    refers_to(&references[number], number)
}
