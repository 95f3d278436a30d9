//! Text that is joined to chunks of one kind each.

ghost use Rattle.std.specs.Prelude.{◌≡◌, ◌++◌, ◌∷◌, [], true, ℕ, max, if◌then◌else◌, List, IfOk, OnOk, Some, reverse, string_bytes};
ghost use Rattle.std.specs.Str.{chars};
ghost use Rattle.biblatex_text.specs.Raw.{At};
ghost use Rattle.biblatex_content.specs.Styled.{Member, Letter, Math, letters};
ghost use Rattle.biblatex_content.specs.Parted.{is_full, kind_of, is_apart, are_parted, last_kind, IsTurned, IsReady, IsLastOrNone};
ghost use Rattle.biblatex_content.specs.Spans.{all_at, kind_in, chunk_spans, member_spans, spans_with};
ghost use Rattle.biblatex_content.specs.Views.{members, joined, styled};
ghost use Rattle.laws.specs.Text.{characters, is_filled};

use crate::chunk::{Chunk, Chunks, Kind, Span};
use biblatex_text::Spanned;
use std::alloc::{AllocError, Global};
use std::mem;
use texts::{empty_text, has_text, push_character, push_text, take_text};

/// Room for a short run, in bytes.
const SHORT_RUN: usize = 48;

/// Chunks that are finished, and text of a kind that was begun, with where it stands.
#[derive(Drop)]
pub(crate) struct Joining {
    alloc: Global,
    chunks: Chunks,
    run: String,
    kind: Kind,
    span: Span,
}

/// A chunk of text of the kind.
pub(crate) fn chunk_of(kind: Kind, text: String) -> Chunk
    ensures members { members result ≡ letters kind (characters text) }
    ensures kind { kind_of result ≡ Some kind }
    ensures full { is_full result ≡ is_filled (characters text) }
{
    match kind {
        Kind::Normal => Chunk::Normal(text),
        Kind::Verbatim => Chunk::Verbatim(text),
    }
}

/// Makes room in an empty text for so many bytes, and for a short run.
pub(crate) fn make_room(text: &mut String, count: usize) -> Result<(), AllocError>
    ensures { OnOk result (string_bytes text.new ≡ string_bytes text.old) }
{
    if text.is_empty() {
        return text.reserve(count.max(SHORT_RUN));
    }
    Ok(())
}

/// Appends a text to a text of a run, with room for a short one.
fn push_text_to_run(text: &mut String, more: &str) -> Result<(), AllocError>
    ensures { OnOk result (characters text.new ≡ characters text.old ++ chars more.now) }
{
    make_room(text, more.len())?;
    push_text(text, more)
}

/// Appends a character to a text of a run, with room for a short one.
fn push_to_run(text: &mut String, c: char) -> Result<(), AllocError>
    ensures { OnOk result (characters text.new ≡ characters text.old ++ c ∷ []) }
{
    make_room(text, SHORT_RUN)?;
    push_character(text, c)
}

impl Joining {
    /// Nothing has been joined.
    pub(crate) fn new(alloc: Global) -> Joining
        ensures joined { joined result ≡ [] }
        ensures spans { (ms : List (At Member)) → spans_with result ms ≡ member_spans ms }
        ensures ready { IsReady result }
    {
        Joining {
            alloc,
            chunks: Vec::new(alloc),
            run: empty_text(alloc),
            kind: Kind::Normal,
            span: 0..0,
        }
    }

    pub(crate) fn allocator(&self) -> Global
        ensures { result ≡ self.now.alloc }
    {
        self.alloc
    }

    /// Appends a chunk after the finished ones, at the bytes from the start to the end.
    #[tactic(auto, using(crate::proofs::PartedNeighbours::last_kind_after, crate::proofs::PartedNeighbours::parted_after))]
    fn push_chunk(&mut self, chunk: Chunk, start: usize, end: usize) -> Result<(), AllocError>
        ensures chunks { OnOk result (styled self.new.chunks.items
            ≡ styled self.old.chunks.items ++ members chunk) }
        ensures spans { OnOk result (chunk_spans self.new.chunks.items
            ≡ chunk_spans self.old.chunks.items ++ (start, end) ∷ []) }
        ensures run { self.new.run ≡ self.old.run }
        ensures kind { self.new.kind ≡ self.old.kind }
        ensures last { OnOk result (last_kind self.new.chunks.items ≡ kind_of chunk) }
        ensures parted { OnOk result (are_parted self.old.chunks.items ≡ true → is_full chunk ≡ true
            → is_apart (last_kind self.old.chunks.items) (kind_of chunk) ≡ true
            → are_parted self.new.chunks.items ≡ true) }
    {
        if self.chunks.is_empty() {
            self.chunks.reserve_exact(1)?;
        }
        Ok(self.chunks.push(Spanned::new(chunk, start..end))?)
    }

    /// Makes a chunk of the text that was begun.
    fn close_run(&mut self) -> Result<(), AllocError>
        ensures styled { OnOk result (joined self.new ≡ joined self.old) }
        ensures spans { OnOk result (chunk_spans self.new.chunks.items ≡ spans_with self.old []) }
        ensures run { OnOk result (characters self.new.run ≡ []) }
        ensures kind { self.new.kind ≡ self.old.kind }
        ensures parted { IsReady self.old → OnOk result (are_parted self.new.chunks.items ≡ true) }
        ensures last { IsReady self.old
            → OnOk result (IsLastOrNone self.old.kind (last_kind self.new.chunks.items)) }
    {
        if !has_text(self.run.as_str()) {
            return Ok(());
        }
        let run = take_text(self.alloc, &mut self.run);
        self.push_chunk(chunk_of(self.kind, run), self.span.start, self.span.end)?;
        Ok(())
    }

    /// Makes a chunk of the text that was begun, unless it is of the kind.
    fn turn(&mut self, kind: Kind) -> Result<(), AllocError>
        ensures styled { OnOk result (joined self.new ≡ joined self.old) }
        ensures kind { OnOk result (self.new.kind ≡ kind) }
        ensures spans { OnOk result ((m : At Member) (ms : List (At Member)) → kind_in m.v
            ≡ Some kind → spans_with self.new (m ∷ ms) ≡ spans_with self.old (m ∷ ms)) }
        ensures turned { IsReady self.old → OnOk result (IsTurned self.new) }
    {
        if self.kind != kind {
            self.close_run()?;
            self.kind = kind;
        }
        Ok(())
    }

    /// Extends the span of the text that was begun to the end of the span, or begins one at the span.
    fn reach(&mut self, span: &Span)
        ensures start { self.new.span.start ≡ (if is_filled (characters self.old.run)
            then self.old.span.start else span.now.start) }
        ensures end { self.new.span.end ≡ (if is_filled (characters self.old.run)
            then max self.old.span.end span.now.end else span.now.end) }
        ensures chunks { self.new.chunks ≡ self.old.chunks }
        ensures run { self.new.run ≡ self.old.run }
        ensures kind { self.new.kind ≡ self.old.kind }
    {
        if has_text(self.run.as_str()) {
            self.span.end = self.span.end.max(span.end);
        } else {
            self.span = span.start..span.end;
        }
    }

    /// Appends a character of the kind, which stands at the span.
    pub(crate) fn push_at(&mut self, span: &Span, kind: Kind, c: char) -> Result<(), AllocError>
        ensures joined { OnOk result (joined self.new ≡ joined self.old ++ Letter kind c ∷ []) }
        ensures spans { OnOk result ((ms : List (At Member))
            → spans_with self.new ms ≡ spans_with self.old
            (record { v = Letter kind c; start = span.now.start; end = span.now.end } ∷ ms)) }
        ensures ready { IsReady self.old → OnOk result (IsReady self.new) }
    {
        self.turn(kind)?;
        self.reach(span);
        push_to_run(&mut self.run, c)?;
        Ok(())
    }

    /// Appends a text of the kind, which stands at the span.
    #[tactic(auto, using(crate::proofs::PartedNeighbours::filled_after))]
    pub(crate) fn push_str_at(
        &mut self,
        span: &Span,
        kind: Kind,
        text: &str,
    ) -> Result<(), AllocError>
        requires { is_filled (chars text.now) ≡ true }
        ensures joined { OnOk result (joined self.new
            ≡ joined self.old ++ letters kind (chars text.now)) }
        ensures spans { OnOk result ((ms : List (At Member)) → spans_with self.new ms ≡ spans_with
            self.old (all_at span.now.start span.now.end (letters kind (chars text.now)) ++ ms)) }
        ensures ready { IsReady self.old → OnOk result (IsReady self.new) }
    {
        self.turn(kind)?;
        self.reach(span);
        push_text_to_run(&mut self.run, text)?;
        Ok(())
    }

    /// Appends a character of the kind.
    pub(crate) fn push(&mut self, kind: Kind, c: char) -> Result<(), AllocError>
        ensures styled { OnOk result (joined self.new ≡ joined self.old ++ Letter kind c ∷ []) }
        ensures ready { IsReady self.old → OnOk result (IsReady self.new) }
    {
        self.turn(kind)?;
        push_to_run(&mut self.run, c)
    }

    /// Appends a text of the kind.
    pub(crate) fn push_str(&mut self, kind: Kind, text: &str) -> Result<(), AllocError>
        ensures { OnOk result (joined self.new ≡ joined self.old ++ letters kind (chars text.now)) }
    {
        self.turn(kind)?;
        push_text_to_run(&mut self.run, text)
    }

    /// Appends characters of the kind, of which the first is the last of the list.
    pub(crate) fn push_reversed(&mut self, kind: Kind, mut cs: Vec<char>) -> Result<(), AllocError>
        ensures { OnOk result (joined self.new
            ≡ joined self.old ++ letters kind (reverse cs.items)) }
    {
        while let Some(c) = cs.pop() {
            self.push(kind, c)?;
        }
        Ok(())
    }

    /// Appends a math piece, which stands at the span.
    pub(crate) fn push_math(&mut self, span: &Span, text: String) -> Result<(), AllocError>
        ensures styled { OnOk result (joined self.new
            ≡ joined self.old ++ Math (characters text) ∷ []) }
        ensures spans { OnOk result ((ms : List (At Member))
            → spans_with self.new ms ≡ spans_with self.old
            (record { v = Math (characters text); start = span.now.start; end = span.now.end }
            ∷ ms)) }
        ensures ready { IsReady self.old → OnOk result (IsReady self.new) }
    {
        self.close_run()?;
        self.push_chunk(Chunk::Math(text), span.start, span.end)
    }

    /// The chunks of what was joined.
    pub(crate) fn into_chunks(mut self) -> Result<Chunks, AllocError>
        ensures styled { IfOk result (λ cs. styled cs.items ≡ joined self) }
        ensures spans { IfOk result (λ cs. chunk_spans cs.items ≡ spans_with self []) }
        ensures parted { IsReady self → IfOk result (λ cs. are_parted cs.items ≡ true) }
    {
        self.close_run()?;
        Ok(self.chunks)
    }
}
