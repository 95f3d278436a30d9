//! Tidying: blanks become spaces, of neighbouring spaces the first stays, and none stays at an end.

ghost use Rattle.std.specs.Prelude.{◌≡◌, ◌<◌, ◌++◌, ◌∷◌, [], true, length, List, IfOk, OnOk};
ghost use Rattle.std.specs.Str.{chars, IsUtf8};
ghost use Rattle.biblatex_text.specs.Raw.{At};
ghost use Rattle.biblatex_text.specs.declared.spanned.Spanned.{Spanned};
ghost use Rattle.biblatex_content.specs.declared.tidy.Gap.TheVariants.{Nothing};
ghost use Rattle.biblatex_tex.specs.Character.{is_blank};
ghost use Rattle.biblatex_content.specs.Styled.{Member, Letter, Math, letters};
ghost use Rattle.biblatex_content.specs.Parted.{IsReady};
ghost use Rattle.biblatex_content.specs.Spans.{all_at, spanned, spanned_in, member_spans, tidied_at, spans_with, owed_at, spans_to_come, AreDone};
ghost use Rattle.biblatex_content.specs.Tidy.{tidied, is_tidy, stays, spaced_after, is_tidy_from, is_tidy_after, owed, to_come, EndsTidily};
ghost use Rattle.biblatex_content.specs.Views.{joined, styled, members};
ghost use Rattle.laws.specs.Text.{characters, is_filled};

use crate::chunk::{Chunk, Chunks, Kind, Span};
use crate::joining::Joining;
use crate::parted::are_parted;
use biblatex_tex::is_blank;
use biblatex_text::Spanned;
use std::alloc::{AllocError, Global};
use texts::{has_text, split_first};

/// What stands between the last member that is no blank and the next one.
#[derive(Clone, Copy)]
pub(crate) enum Gap {
    /// No such member has come yet.
    Start,
    /// Nothing.
    Nothing,
    /// A space of the kind.
    Space(Kind),
}

/// A content that is being tidied, and where the space of the gap stands, if it is one.
#[derive(Drop)]
struct Tidying {
    contents: Joining,
    gap: Gap,
    space: Span,
}

impl Tidying {
    fn new(alloc: Global) -> Tidying
        ensures to_come { (ms : List Member) → to_come result ms ≡ tidied ms }
        ensures spans { (ms : List (At Member))
            → spans_to_come result ms ≡ member_spans (tidied_at ms) }
        ensures ready { IsReady result.contents }
    {
        Tidying {
            contents: Joining::new(alloc),
            gap: Gap::Start,
            space: 0..0,
        }
    }

    /// Makes a space of a gap that is one.
    fn close_gap(&mut self) -> Result<(), AllocError>
        ensures written { OnOk result (joined self.new.contents
            ≡ joined self.old.contents ++ owed self.old.gap) }
        ensures spans { OnOk result ((ms : List (At Member))
            → spans_with self.new.contents ms ≡ spans_with self.old.contents
            (owed_at self.old.space.start self.old.space.end self.old.gap ++ ms)) }
        ensures gap { OnOk result (self.new.gap ≡ Nothing) }
        ensures ready { IsReady self.old.contents → OnOk result (IsReady self.new.contents) }
    {
        if let Gap::Space(kind) = self.gap {
            self.contents.push_at(&self.space, kind, ' ')?;
        }
        self.gap = Gap::Nothing;
        Ok(())
    }

    fn push_blank(&mut self, span: &Span, kind: Kind, c: char)
        requires { is_blank c ≡ true }
        ensures to_come { (ms : List Member)
            → to_come self.new ms ≡ to_come self.old (Letter kind c ∷ ms) }
        ensures spans { (ms : List (At Member)) → spans_to_come self.new ms ≡ spans_to_come self.old
            (record { v = Letter kind c; start = span.now.start; end = span.now.end } ∷ ms) }
        ensures contents { self.new.contents ≡ self.old.contents }
    {
        match self.gap {
            Gap::Nothing => {
                self.gap = Gap::Space(kind);
                self.space = span.start..span.end;
            }
            Gap::Start | Gap::Space(_) => {}
        }
    }

    /// Appends a character of the kind.
    fn push(&mut self, span: &Span, kind: Kind, c: char) -> Result<(), AllocError>
        ensures to_come { OnOk result ((ms : List Member)
            → to_come self.new ms ≡ to_come self.old (Letter kind c ∷ ms)) }
        ensures spans { OnOk result ((ms : List (At Member))
            → spans_to_come self.new ms ≡ spans_to_come self.old
            (record { v = Letter kind c; start = span.now.start; end = span.now.end } ∷ ms)) }
        ensures ready { IsReady self.old.contents → OnOk result (IsReady self.new.contents) }
    {
        if is_blank(c) {
            self.push_blank(span, kind, c);
            return Ok(());
        }
        self.close_gap()?;
        self.contents.push_at(span, kind, c)
    }

    /// Appends a text of the kind that tidying leaves as it is.
    fn push_tidy(&mut self, span: &Span, kind: Kind, text: &str) -> Result<(), AllocError>
        requires { is_tidy true (chars text.now) ≡ true }
        ensures to_come { OnOk result ((ms : List Member)
            → to_come self.new ms ≡ to_come self.old (letters kind (chars text.now) ++ ms)) }
        ensures spans { OnOk result ((ms : List (At Member))
            → spans_to_come self.new ms ≡ spans_to_come self.old
            (all_at span.now.start span.now.end (letters kind (chars text.now)) ++ ms)) }
        ensures ready { IsReady self.old.contents → OnOk result (IsReady self.new.contents) }
    {
        self.close_gap()?;
        self.contents.push_str_at(span, kind, text)?;
        Ok(())
    }

    /// Appends what stands first in a text of the kind, and returns what follows it: all that tidying leaves as it is, or else
    /// a character.
    fn push_prefix<'t>(
        &mut self,
        span: &Span,
        kind: Kind,
        text: &'t str,
    ) -> Result<&'t str, AllocError>
        ensures to_come { IfOk result (λ rest. (ms : List Member)
            → to_come self.new (letters kind (chars rest.now) ++ ms)
            ≡ to_come self.old (letters kind (chars text.now) ++ ms)) }
        ensures spans { IfOk result (λ rest. (ms : List (At Member)) → spans_to_come self.new
            (all_at span.now.start span.now.end (letters kind (chars rest.now)) ++ ms)
            ≡ spans_to_come self.old
            (all_at span.now.start span.now.end (letters kind (chars text.now)) ++ ms)) }
        ensures ready { IsReady self.old.contents
            → IfOk result (λ rest. IsReady self.new.contents) }
        ensures utf8 { IfOk result (λ rest. IsUtf8 rest.now) }
        ensures shorter { is_filled (chars text.now) ≡ true
            → IfOk result (λ rest. length (chars rest.now) < length (chars text.now)) }
    {
        let (prefix, rest) = split_tidy(text);
        if has_text(prefix) {
            self.push_tidy(span, kind, prefix)?;
            return Ok(rest);
        }
        match split_first(text) {
            Some((c, rest)) => {
                self.push(span, kind, c)?;
                Ok(rest)
            }
            None => Ok(text),
        }
    }

    /// Appends a text of the kind.
    fn push_str(&mut self, span: &Span, kind: Kind, text: &str) -> Result<(), AllocError>
        ensures to_come { OnOk result ((ms : List Member)
            → to_come self.new ms ≡ to_come self.old (letters kind (chars text.now) ++ ms)) }
        ensures spans { OnOk result ((ms : List (At Member))
            → spans_to_come self.new ms ≡ spans_to_come self.old
            (all_at span.now.start span.now.end (letters kind (chars text.now)) ++ ms)) }
        ensures ready { IsReady self.old.contents → OnOk result (IsReady self.new.contents) }
    {
        let mut rest = text;
        while has_text(rest) {
            rest = self.push_prefix(span, kind, rest)?;
        }
        Ok(())
    }

    fn push_math(&mut self, span: &Span, text: String) -> Result<(), AllocError>
        ensures to_come { OnOk result ((ms : List Member)
            → to_come self.new ms ≡ to_come self.old (Math (characters text) ∷ ms)) }
        ensures spans { OnOk result ((ms : List (At Member))
            → spans_to_come self.new ms ≡ spans_to_come self.old
            (record { v = Math (characters text); start = span.now.start; end = span.now.end }
            ∷ ms)) }
        ensures ready { IsReady self.old.contents → OnOk result (IsReady self.new.contents) }
    {
        self.close_gap()?;
        self.contents.push_math(span, text)
    }

    fn push_chunk(&mut self, chunk: Spanned<Chunk>) -> Result<(), AllocError>
        ensures to_come { OnOk result ((ms : List Member)
            → to_come self.new ms ≡ to_come self.old (members chunk.v ++ ms)) }
        ensures spans { OnOk result ((ms : List (At Member))
            → spans_to_come self.new ms ≡ spans_to_come self.old (spanned_in chunk ++ ms)) }
        ensures ready { IsReady self.old.contents → OnOk result (IsReady self.new.contents) }
    {
        let Spanned { v, span } = chunk;
        match v {
            Chunk::Normal(text) => self.push_str(&span, Kind::Normal, text.as_str()),
            Chunk::Verbatim(text) => self.push_str(&span, Kind::Verbatim, text.as_str()),
            Chunk::Math(text) => self.push_math(&span, text),
        }
    }
}

/// The chunks, tidied.
pub(crate) fn tidy(alloc: Global, chunks: Chunks) -> Result<Joining, AllocError>
    ensures joined { IfOk result (λ c. joined c ≡ tidied (styled chunks.items)) }
    ensures spans { IfOk result (λ c. spans_with c []
        ≡ member_spans (tidied_at (spanned chunks.items))) }
    ensures ready { IfOk result IsReady }
{
    let mut tidying = Tidying::new(alloc);
    for chunk in chunks {
        tidying.push_chunk(chunk)?;
    }
    Ok(tidying.contents)
}

/// Where the longest prefix ends that tidying leaves as it is; at the start, where there is none.
fn tidy_end(text: &str) -> usize
    ensures { EndsTidily text.now result }
{
    let mut end = 0;
    let mut is_after_space = true;
    for (i, c) in text.char_indices() {
        if !is_blank(c) {
            is_after_space = false;
            continue;
        }
        if is_after_space {
            return end;
        }
        if c != ' ' {
            return i;
        }
        end = i;
        is_after_space = true;
    }
    if is_after_space {
        return end;
    }
    text.len()
}

/// The longest prefix that tidying leaves as it is, and what follows it.
fn split_tidy(text: &str) -> (&str, &str)
    ensures parts { chars text.now ≡ chars result.0.now ++ chars result.1.now }
    ensures utf8 { IsUtf8 result.1.now }
    ensures tidy { is_filled (chars result.0.now) ≡ true
        → is_tidy true (chars result.0.now) ≡ true }
{
    text.split_at(tidy_end(text))
}

/// Whether the byte is a blank, each of which is ASCII.
#[inline(always)]
fn is_blank_byte(byte: u8) -> bool
    ensures { result ≡ is_blank byte }
{
    matches!(byte, b' ' | b'\t' | b'\n' | b'\x0c' | b'\r')
}

/// Whether tidying leaves the byte as it is, after a space, or at the start, or not.
#[inline(always)]
fn stays(is_after_space: bool, byte: u8) -> bool
    ensures { result ≡ stays is_after_space byte }
{
    !is_blank_byte(byte) || (byte == b' ' && !is_after_space)
}

/// Whether a space, or the start, stands after bytes that tidying leaves as they are, where it stands before them or not; none
/// where it does not.
fn after_bytes(is_after_space: bool, bytes: &[u8]) -> Option<bool>
    ensures { result ≡ spaced_after is_after_space bytes.now }
{
    let mut is_after = is_after_space;
    for &byte in bytes {
        if !stays(is_after, byte) {
            return None;
        }
        is_after = byte == b' ';
    }
    Some(is_after)
}

/// The same of a text.
fn after_text(is_after_space: bool, text: &str) -> Option<bool>
    ensures { result ≡ spaced_after is_after_space (chars text.now) }
{
    after_bytes(is_after_space, text.as_bytes())
}

/// The same of a chunk.
fn after_chunk(is_after_space: bool, chunk: &Chunk) -> Option<bool>
    ensures { (ms : List Member) → is_tidy_from is_after_space (members chunk.now ++ ms)
        ≡ is_tidy_after result ms }
{
    match chunk {
        Chunk::Normal(text) => after_text(is_after_space, text.as_str()),
        Chunk::Verbatim(text) => after_text(is_after_space, text.as_str()),
        Chunk::Math(_) => Some(false),
    }
}

/// Whether tidying leaves the text that the chunks spell as it is, where it is not empty.
fn are_tidy(chunks: &[Spanned<Chunk>]) -> bool
    ensures { result ≡ is_tidy_from true (styled chunks.now) }
{
    let mut is_after_space = true;
    for chunk in chunks {
        match after_chunk(is_after_space, &chunk.v) {
            Some(ends) => is_after_space = ends,
            None => return false,
        }
    }
    !is_after_space
}

/// Whether tidying leaves the chunks as they are, where there are any.
pub(crate) fn are_done(chunks: &[Spanned<Chunk>]) -> bool
    ensures { result ≡ true → AreDone chunks.now }
{
    are_parted(chunks) && are_tidy(chunks)
}
