//! An entry and a page on which it is printed.

ghost use Rattle.std.specs.Prelude.{◌≡◌, OnOk};
ghost use Rattle.std.specs.Str.{chars};
ghost use Rattle.literature_values.specs.TextViews.{chunks_view as chunks_of};
ghost use Rattle.rendering_writing.specs.Views.{writing_context_view};
ghost use Rattle.rendering_writing.specs.Writing.{chunks_pushed, link_pushed, space_ensured, text_pushed, transparent_pushed};

use crate::writing::WritingContext;
use literature_values::ChunkedString;
use rendering_entries::EntryLike;
use rendering_nodes::Walk;
use std::alloc::AllocError;
use std::fmt;

/// What an entry is printed from, the entry, and the page on which it is printed. After an error nothing is known of what stands on
/// the page.
#[derive(Drop)]
pub struct Context<'w, 's, 'a, E> {
    pub walk: Walk<'s, 'a>,
    pub entry: &'a E,
    pub writing: &'w mut WritingContext<'a>,
}

impl<'a, E: EntryLike> Context<'_, '_, 'a, E> {
    /// Appends a space. Nothing is appended where the page is empty, or where the last text ends in a space.
    ///
    /// # Errors
    /// Out of memory.
    pub fn ensure_space(&mut self) -> Result<(), AllocError>
        ensures same_reference { self.new.writing.ghost_name ≡ self.old.writing.ghost_name }
        ensures around { (self.new.walk ≡ self.old.walk) × (self.new.entry ≡ self.old.entry) }
        ensures ok { OnOk result (self.new.writing.now ≡ space_ensured self.old.writing.now) }
    {
        self.writing.ensure_space()
    }

    /// Appends a copy of an ordinary text.
    ///
    /// # Errors
    /// Out of memory.
    pub fn push_str(&mut self, text: &str) -> Result<(), AllocError>
        ensures same_reference { self.new.writing.ghost_name ≡ self.old.writing.ghost_name }
        ensures around { (self.new.walk ≡ self.old.walk) × (self.new.entry ≡ self.old.entry) }
        ensures ok { OnOk result (self.new.writing.now
            ≡ text_pushed (writing_context_view (E.answers self.old.entry.now) self.old)
            (chars text.now) self.old.writing.now) }
    {
        let text = String::from_str(self.walk.context.alloc, text)?;
        self.writing.push_made(self.walk.context.quotes, text)
    }

    /// Appends a text in pieces: formulas, texts as they are, and ordinary texts.
    ///
    /// # Errors
    /// Out of memory.
    pub fn push_chunked(&mut self, text: &'a ChunkedString) -> Result<(), AllocError>
        ensures same_reference { self.new.writing.ghost_name ≡ self.old.writing.ghost_name }
        ensures around { (self.new.walk ≡ self.old.walk) × (self.new.entry ≡ self.old.entry) }
        ensures ok { OnOk result (self.new.writing.now
            ≡ chunks_pushed (writing_context_view (E.answers self.old.entry.now) self.old)
            (chunks_of text.now) self.old.writing.now) }
    {
        self.writing.push_chunks(self.walk.context.quotes, text)
    }

    /// Appends a link from a text to an address.
    ///
    /// # Errors
    /// Out of memory.
    pub fn push_link(&mut self, text: &'a str, url: &'a str) -> Result<(), AllocError>
        ensures same_reference { self.new.writing.ghost_name ≡ self.old.writing.ghost_name }
        ensures around { (self.new.walk ≡ self.old.walk) × (self.new.entry ≡ self.old.entry) }
        ensures ok { OnOk result (self.new.writing.now
            ≡ link_pushed (writing_context_view (E.answers self.old.entry.now) self.old)
            (chars text.now) (chars url.now) self.old.writing.now) }
    {
        self.writing.push_link(text, url)
    }

    /// Appends a locator of the caller's own, by the index of its cite in its request, from zero.
    ///
    /// # Errors
    /// Out of memory.
    pub fn push_transparent(&mut self, cite_idx: usize) -> Result<(), AllocError>
        ensures same_reference { self.new.writing.ghost_name ≡ self.old.writing.ghost_name }
        ensures around { (self.new.walk ≡ self.old.walk) × (self.new.entry ≡ self.old.entry) }
        ensures ok { OnOk result (self.new.writing.now
            ≡ transparent_pushed (writing_context_view (E.answers self.old.entry.now) self.old)
            cite_idx self.old.writing.now) }
    {
        self.writing.push_transparent(cite_idx)
    }
}

impl<'a, E: EntryLike> fmt::Write for Context<'_, '_, 'a, E> {
    ghost write_str_gives = { λ x text y. y.writing.now
        ≡ text_pushed (writing_context_view (E.answers x.entry.now) x) (chars text) x.writing.now };

    /// Appends a copy of an ordinary text.
    fn write_str(&mut self, text: &str) -> fmt::Result {
        match self.push_str(text) {
            Ok(()) => Ok(()),
            Err(AllocError) => Err(fmt::Error),
        }
    }
}
