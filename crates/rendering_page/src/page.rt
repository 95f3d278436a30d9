//! Pages.

ghost use Rattle.std.specs.Prelude.{◌≡◌, ◌++◌, true, false, List, ℕ, OnOk, Some, map};
ghost use Rattle.std.specs.Str.{bytes_eq, chars};
ghost use Rattle.laws.specs.Text.{characters, is_filled};
ghost use Rattle.literature_values.specs.TextViews.{chunk_view as chunk_of, chunks_view as chunks_of};
ghost use Rattle.rendering_tree.specs.Metas.{Meta};
ghost use Rattle.rendering_tree.specs.Tokens.{formula, link, transparent};
ghost use Rattle.rendering_tree.specs.Views.{meta_view};
ghost use Rattle.rendering_page.specs.Marks.{begins_nothing};
ghost use Rattle.rendering_page.specs.Pages.{Manner as Manners, Quotes, before_mark, before_prefix, begun, empty_page, empty_page_by, ended, ended_as, append_as_written, append_further, append_normal, append_to_join, is_joined, is_repeated, prints, append_quote, append_space, append_token, append_verbatim};
ghost use Rattle.rendering_page.specs.Joints.{joined};
ghost use Rattle.rendering_page.specs.Pieces.{append_pieces, chunk_by, chunk_piece, chunk_pieces, each_piece, further_by, further_piece, append_piece};
ghost use Rattle.rendering_page.specs.PageCharacters.{page_text};
ghost use Rattle.rendering_page.specs.Views as views;
ghost use Rattle.rendering_page.specs.Views.{pieces_view, words_view, quotes_view};

use crate::appending::{
    append, append_after_quote, append_in_manner, append_words, begin, begin_made, is_element,
    last_piece, last_pieces, push_piece,
};
use crate::copies::copied_pieces;
use crate::joining::join;
use crate::manner::{Frame, Manner, is_joined, uncased};
use crate::marks::{cut_prefix, cut_to_mark, is_begun, is_known_by, prints};
use crate::page_characters::{push_shown, show_the_same};
use crate::page_end::{ends_in, ends_spaced};
use crate::piece::{Link, Piece, Words, no_words};
use crate::tail::is_punctuation;
use literature_values::{ChunkKind, ChunkedString, StringChunk};
use rendering_cases::{applies, cased_chunks};
use rendering_taxonomy::{Formatting, PageRule};
use rendering_tree::ElemMeta;
use std::alloc::{AllocError, Global};
use std::marker::Model;
use std::mem;
use texts::{has_text, split_first};

/// A page to which texts and elements are appended, one after the other.
///
/// An ordinary text changes the end of the text that is last: the characters at the end of the page that look alike, whatever
/// begins or ends after them. White space at its end goes before white space and `. , ] )`; an end that a text without letters
/// would repeat goes; and after a close quote a first `. , ; ! ?` goes inside it. Texts that are appended as they are change
/// nothing, and after a formula, a link or a locator of the caller's own there is no last text. `quotes` are the close quotes
/// inside which punctuation goes, in the order in which they are tried; none where it stays outside.
///
/// A page by the rule `Joined` has its texts as they are appended until `join` is called: then the first character of each meets the last
/// one of the text before it. So an element that prints nothing changes nothing before it.
///
/// Texts are borrowed until the tree is made; those that were made are taken over. A text costs its own length, what it cuts, and
/// the marks after the last text. After an error nothing is known of what stands on the page.
pub struct Page<'a> {
    pieces: Vec<Piece<'a>>,
    after_quote: bool,
    rule: PageRule,
    /// Whether what was begun last is known to have printed something.
    is_known_to_print: bool,
}

impl Drop for Page<'_> {
    fn drop(self) {
        let Page {
            pieces: _,
            after_quote: _,
            rule: _,
            is_known_to_print: _,
        } = self;
    }
}

impl<'a> Model for Page<'a> {
    ghost use Rattle.rendering_page.specs.Pages as pages;

    ghost Value = { pages.Page };

    ghost use Rattle.std.specs.Prelude.{◌≡◌, true};
    ghost use Rattle.rendering_page.specs.Marks.{known_to_print};
    ghost use Rattle.rendering_page.specs.Views.{pieces_view};

    ghost view = { λ p. record {
      tokens = pieces_view p.pieces.items;
      after_quote = p.after_quote;
      rule = p.rule;
    } };

    ghost invariant = { λ p. known_to_print p.is_known_to_print (pieces_view p.pieces.items)
        ≡ true };
}

impl<'a> Clone for Page<'a> {
    ghost is_clone = { λ p q. q ≡ p };

    /// A copy of the page. Texts that were made are copied, borrowed ones are not.
    ///
    /// # Errors
    /// Out of memory.
    fn clone(&self) -> Result<Page<'a>, AllocError> {
        Ok(Page {
            pieces: copied_pieces(&self.pieces)?,
            after_quote: self.after_quote,
            rule: self.rule,
            is_known_to_print: false,
        })
    }
}

impl<'a> Page<'a> {
    /// A page to which nothing was appended, and on which texts stand as they are written.
    pub fn new(alloc: Global) -> Page<'a>
        ensures { result ≡ empty_page }
    {
        Page::with_rule(alloc, PageRule::AsWritten)
    }

    /// A page to which nothing was appended, by a rule.
    pub fn with_rule(alloc: Global, rule: PageRule) -> Page<'a>
        ensures { result ≡ empty_page_by rule }
    {
        Page {
            pieces: Vec::new(alloc),
            after_quote: false,
            rule,
            is_known_to_print: false,
        }
    }

    /// Appends an ordinary text; an empty one is none.
    ///
    /// # Errors
    /// Out of memory.
    pub fn push_text(
        &mut self,
        quotes: &[&str],
        manner: Manner,
        text: &'a str,
    ) -> Result<(), AllocError>
        ensures { OnOk result (self.new ≡ append_normal (quotes_view quotes.now)
            (views.manner_view manner) (chars text.now) self.old) }
    {
        self.append_text(quotes, manner, Words::Borrowed(text))
    }

    /// Appends an ordinary text that was made; an empty one is none.
    ///
    /// # Errors
    /// Out of memory.
    pub fn push_made(
        &mut self,
        quotes: &[&str],
        manner: Manner,
        text: String,
    ) -> Result<(), AllocError>
        ensures { OnOk result (self.new ≡ append_normal (quotes_view quotes.now)
            (views.manner_view manner) (characters text) self.old) }
    {
        self.append_text(quotes, manner, Words::Made(text))
    }

    /// Appends a text as it is; an empty one is none.
    ///
    /// # Errors
    /// Out of memory.
    pub fn push_verbatim(&mut self, formatting: Formatting, text: &'a str) -> Result<(), AllocError>
        ensures { OnOk result (self.new ≡ append_verbatim formatting (chars text.now) self.old) }
    {
        self.append_verbatim_text(formatting, Words::Borrowed(text))
    }

    /// Appends the close quote of a node, an ordinary text; punctuation that is appended next goes inside. An empty one is none.
    ///
    /// # Errors
    /// Out of memory.
    #[tactic(auto, using(crate::proofs::PagesAppending::append_closing, crate::proofs::PagesAppending::append_closing_written))]
    pub fn push_close_quote(
        &mut self,
        quotes: &[&str],
        manner: Manner,
        text: &'a str,
    ) -> Result<(), AllocError>
        ensures { OnOk result (self.new ≡ append_quote (quotes_view quotes.now)
            (views.manner_view manner) (chars text.now) self.old) }
    {
        if has_text(text) {
            let words = Words::Borrowed(text);
            if is_joined(self.rule) {
                return self.append_link(manner.formatting, words, no_words());
            }
            self.append_as_written(quotes, manner, words)?;
            self.after_quote = true;
        }
        Ok(())
    }

    /// Appends a formula.
    ///
    /// # Errors
    /// Out of memory.
    pub fn push_markup(&mut self, text: &'a str) -> Result<(), AllocError>
        ensures { OnOk result (self.new ≡ append_token (formula (chars text.now)) self.old) }
    {
        self.push(Piece::Markup(Words::Borrowed(text)))
    }

    /// Appends a link from a text to an address.
    ///
    /// # Errors
    /// Out of memory.
    pub fn push_link(
        &mut self,
        formatting: Formatting,
        text: &'a str,
        url: &'a str,
    ) -> Result<(), AllocError>
        ensures { OnOk result (self.new
            ≡ append_token (link formatting (chars text.now) (chars url.now)) self.old) }
    {
        self.append_link(formatting, Words::Borrowed(text), Words::Borrowed(url))
    }

    /// Appends a link from a text to an address that were made.
    ///
    /// # Errors
    /// Out of memory.
    pub fn push_made_link(
        &mut self,
        formatting: Formatting,
        text: String,
        url: String,
    ) -> Result<(), AllocError>
        ensures { OnOk result (self.new
            ≡ append_token (link formatting (characters text) (characters url)) self.old) }
    {
        self.append_link(formatting, Words::Made(text), Words::Made(url))
    }

    /// Appends a locator of the caller's own, by the index of its cite in its request, from zero.
    ///
    /// # Errors
    /// Out of memory.
    pub fn push_transparent(
        &mut self,
        formatting: Formatting,
        cite_idx: usize,
    ) -> Result<(), AllocError>
        ensures { OnOk result (self.new ≡ append_token (transparent formatting cite_idx) self.old) }
    {
        self.push(Piece::Transparent {
            formatting,
            cite_idx,
        })
    }

    /// Begins an element.
    ///
    /// # Errors
    /// Out of memory.
    pub fn begin(&mut self, frame: &Frame<'a>) -> Result<(), AllocError>
        ensures { OnOk result (self.new ≡ begun (views.frame_view frame.now) self.old) }
    {
        self.is_known_to_print = false;
        begin(&mut self.pieces, frame)
    }

    /// Begins an element that stands for what was made on the way, whatever the frame says that it stands for.
    ///
    /// # Errors
    /// Out of memory.
    pub fn begin_element(&mut self, frame: &Frame<'a>, meta: ElemMeta) -> Result<(), AllocError>
        ensures { OnOk result (self.new ≡ begun
            (record (views.frame_view frame.now) { meta = Some (meta_view meta) }) self.old) }
    {
        self.is_known_to_print = false;
        begin_made(&mut self.pieces, frame, meta)
    }

    /// Ends the element that was begun last. Where it has printed nothing but white space, it is removed with its affixes.
    ///
    /// # Errors
    /// Out of memory.
    pub fn end(&mut self, quotes: &[&str], frame: &Frame<'a>) -> Result<(), AllocError>
        ensures { OnOk result (self.new
            ≡ ended (quotes_view quotes.now) (views.frame_view frame.now) self.old) }
    {
        if !self.finds_printed() {
            return self.undo();
        }
        let is_part = is_element(frame);
        if !has_text(frame.suffix) {
            return self.end_without_suffix(is_part);
        }
        self.end_as(quotes, frame.manner, frame.suffix, is_part)
    }

    /// Ends the element that was begun last and stands for what was made on the way.
    ///
    /// # Errors
    /// Out of memory.
    pub fn end_element(&mut self, quotes: &[&str], frame: &Frame<'a>) -> Result<(), AllocError>
        ensures { (m : Meta) → OnOk result (self.new ≡ ended (quotes_view quotes.now)
            (record (views.frame_view frame.now) { meta = Some m }) self.old) }
    {
        if !self.finds_printed() {
            return self.undo();
        }
        if !has_text(frame.suffix) {
            return self.end_without_suffix(true);
        }
        self.end_as(quotes, frame.manner, frame.suffix, true)
    }

    /// Appends a space in the default formatting, after all elements. Nothing is appended where the page is empty, or where the last text
    /// ends in a space, be it one that does not break.
    ///
    /// # Errors
    /// Out of memory.
    pub fn ensure_space(&mut self) -> Result<(), AllocError>
        ensures { OnOk result (self.new ≡ append_space self.old) }
    {
        if !is_begun(&self.pieces) || ends_spaced(&self.pieces) {
            return Ok(());
        }
        self.push_verbatim(Formatting::plain(), " ")
    }

    /// Appends a text in pieces: formulas, texts as they are, and ordinary texts, which have the case of one text. What stays in the case
    /// that it has is not copied.
    ///
    /// # Errors
    /// Out of memory.
    pub fn push_chunks(
        &mut self,
        quotes: &[&str],
        manner: Manner,
        chunks: &'a [StringChunk],
    ) -> Result<(), AllocError>
        ensures { OnOk result (self.new ≡ append_pieces (quotes_view quotes.now)
            (chunk_pieces (views.manner_view manner) (map chunk_of chunks.now)) self.old) }
    {
        if applies(manner.text_case, manner.is_english) {
            return self.push_cased_chunks(quotes, manner, chunks);
        }
        self.push_each_chunk(quotes, uncased(manner), chunks)
    }

    /// Appends a text in pieces that were made.
    ///
    /// # Errors
    /// Out of memory.
    pub fn push_made_chunks(
        &mut self,
        quotes: &[&str],
        manner: Manner,
        chunks: ChunkedString,
    ) -> Result<(), AllocError>
        ensures { OnOk result (self.new ≡ append_pieces (quotes_view quotes.now)
            (chunk_pieces (views.manner_view manner) (chunks_of chunks)) self.old) }
    {
        if applies(manner.text_case, manner.is_english) {
            return self.push_cased_chunks(quotes, manner, &chunks.0);
        }
        self.push_each_made_chunk(quotes, uncased(manner), chunks)
    }

    /// Whether what was begun last and has not ended has printed anything but white space.
    pub fn has_printed(&self) -> bool
        ensures { result ≡ prints 0 self.now.tokens }
    {
        self.is_known_to_print || prints(&self.pieces)
    }

    /// Whether two pages show the same characters, however they look and whatever element they stand in.
    pub fn has_text_of(&self, other: &Page<'_>) -> bool
        ensures { result ≡ bytes_eq (page_text self.now.tokens) (page_text other.now.tokens) }
    {
        show_the_same(&self.pieces, &other.pieces)
    }

    /// Appends the characters of the page in the order of reading: its texts, formulas, and the texts of its links.
    ///
    /// # Errors
    /// Out of memory.
    pub fn push_to(&self, output: &mut String) -> Result<(), AllocError>
        ensures { OnOk result (characters output.new
            ≡ characters output.old ++ page_text self.now.tokens) }
    {
        push_shown(output, &self.pieces)
    }

    /// Joins the texts of a page that joins them, once all are appended: the first character of each meets the last one of the text before
    /// it, be it in a quote. `inside` is whether punctuation goes inside quotes. A page by the other rule is as it was.
    ///
    /// # Errors
    /// Out of memory.
    pub fn join(&mut self, inside: bool) -> Result<(), AllocError>
        ensures { OnOk result (self.new ≡ joined inside self.old) }
    {
        if is_joined(self.rule) {
            self.is_known_to_print = false;
            let alloc = *self.pieces.allocator();
            let pieces = mem::replace(&mut self.pieces, Vec::new(alloc));
            self.pieces = join(pieces, inside)?;
        }
        Ok(())
    }

    /// Whether its texts are joined.
    pub fn is_joined(&self) -> bool
        ensures { result ≡ is_joined self.now.rule }
    {
        is_joined(self.rule)
    }

    /// What stands on the page, piece by piece, in the order of reading.
    pub fn into_pieces(self) -> Vec<Piece<'a>>
        ensures { pieces_view result.items ≡ self.entry.tokens }
    {
        let Page {
            pieces,
            after_quote: _,
            rule: _,
            is_known_to_print: _,
        } = self;
        pieces
    }

    /// Whether what was begun last has printed anything but white space. What is found is remembered, so that the pieces of what is inside
    /// are looked at once.
    fn finds_printed(&mut self) -> bool
        ensures printed { result ≡ prints 0 self.old.tokens }
        ensures page { self.new ≡ self.old }
    {
        if !self.is_known_to_print {
            self.is_known_to_print = prints(&self.pieces);
        }
        self.is_known_to_print
    }

    /// Appends an ordinary text.
    fn append_text(
        &mut self,
        quotes: &[&str],
        manner: Manner,
        words: Words<'a>,
    ) -> Result<(), AllocError>
        ensures { OnOk result (self.new ≡ append_normal (quotes_view quotes.now)
            (views.manner_view manner) (words_view words.entry) self.old) }
    {
        if is_joined(self.rule) {
            return self.append_to_join(manner, words);
        }
        self.append_as_written(quotes, manner, words)
    }

    /// Appends a text as it is written.
    fn append_as_written(
        &mut self,
        quotes: &[&str],
        manner: Manner,
        words: Words<'a>,
    ) -> Result<(), AllocError>
        ensures { OnOk result (self.new ≡ append_as_written (quotes_view quotes.now)
            (views.manner_view manner) (words_view words.entry) self.old) }
    {
        let Some((first, _)) = split_first(words.as_str()) else {
            return Ok(());
        };
        let after_quote = self.after_quote;
        self.after_quote = false;
        self.is_known_to_print = false;
        if after_quote && is_punctuation(first) {
            return append_after_quote(&mut self.pieces, quotes, manner, first, words);
        }
        append(&mut self.pieces, manner, words)?;
        self.is_known_to_print = is_known_by(manner, first);
        Ok(())
    }

    /// Appends a text to be joined with what stands before it.
    #[tactic(auto, using(crate::proofs::PagesAppending::append_filled))]
    fn append_to_join(&mut self, manner: Manner, words: Words<'a>) -> Result<(), AllocError>
        ensures { OnOk result (self.new
            ≡ append_to_join (views.manner_view manner) (words_view words.entry) self.old) }
    {
        if !has_text(words.as_str()) {
            return Ok(());
        }
        self.is_known_to_print = false;
        push_piece(&mut self.pieces, Piece::Mark)?;
        push_piece(&mut self.pieces, Piece::Unmark)?;
        append_in_manner(&mut self.pieces, manner, words)
    }

    /// Appends an ordinary text that goes on with the one before it.
    fn append_further(
        &mut self,
        quotes: &[&str],
        manner: Manner,
        words: Words<'a>,
    ) -> Result<(), AllocError>
        ensures { OnOk result (self.new ≡ append_further (quotes_view quotes.now)
            (views.manner_view manner) (words_view words.entry) self.old) }
    {
        if is_joined(self.rule) {
            self.is_known_to_print = false;
            return append_in_manner(&mut self.pieces, manner, words);
        }
        self.append_as_written(quotes, manner, words)
    }

    /// Appends what is no text.
    fn push(&mut self, piece: Piece<'a>) -> Result<(), AllocError>
        ensures { OnOk result (self.new ≡ record self.old {
          tokens = views.with_piece self.old.tokens piece.entry;
          after_quote = false;
        }) }
    {
        self.is_known_to_print = false;
        push_piece(&mut self.pieces, piece)?;
        self.after_quote = false;
        Ok(())
    }

    /// Appends a piece with which nothing begins.
    #[tactic(auto, using(crate::proofs::PagesMarks::known_push))]
    fn push_end(&mut self, piece: Piece<'a>) -> Result<(), AllocError>
        requires { begins_nothing piece ≡ true }
        ensures { OnOk result (self.new
            ≡ record self.old { tokens = views.with_piece self.old.tokens piece.entry }) }
    {
        push_piece(&mut self.pieces, piece)?;
        Ok(())
    }

    /// Appends a text in pieces, in the case of a manner.
    fn push_cased_chunks(
        &mut self,
        quotes: &[&str],
        manner: Manner,
        chunks: &[StringChunk],
    ) -> Result<(), AllocError>
        ensures { OnOk result (self.new ≡ append_pieces (quotes_view quotes.now)
            (chunk_pieces (views.manner_view manner) (map chunk_of chunks.now)) self.old) }
    {
        let alloc = *self.pieces.allocator();
        let cased = cased_chunks(alloc, chunks, manner.text_case, manner.is_english)?;
        self.push_each_made_chunk(quotes, uncased(manner), cased)
    }

    /// Appends pieces of a text, each by itself.
    fn push_each_chunk(
        &mut self,
        quotes: &[&str],
        manner: Manner,
        chunks: &'a [StringChunk],
    ) -> Result<(), AllocError>
        ensures { OnOk result (self.new ≡ append_pieces (quotes_view quotes.now)
            (each_piece (views.manner_view manner) (map chunk_of chunks.now)) self.old) }
    {
        let Some((first, rest)) = chunks.split_first() else {
            return Ok(());
        };
        self.push_chunk(quotes, manner, first)?;
        for chunk in rest {
            self.push_further_chunk(quotes, manner, chunk)?;
        }
        Ok(())
    }

    /// Appends pieces of a text that were made, each by itself.
    fn push_each_made_chunk(
        &mut self,
        quotes: &[&str],
        manner: Manner,
        chunks: ChunkedString,
    ) -> Result<(), AllocError>
        ensures { OnOk result (self.new ≡ append_pieces (quotes_view quotes.now)
            (each_piece (views.manner_view manner) (chunks_of chunks)) self.old) }
    {
        let mut chunks = chunks.0.into_iter();
        let Some(first) = chunks.next() else {
            return Ok(());
        };
        self.push_made_chunk(quotes, manner, first)?;
        for chunk in chunks {
            self.push_further_made_chunk(quotes, manner, chunk)?;
        }
        Ok(())
    }

    /// Appends a piece of a text.
    fn push_chunk(
        &mut self,
        quotes: &[&str],
        manner: Manner,
        chunk: &'a StringChunk,
    ) -> Result<(), AllocError>
        ensures { OnOk result (self.new ≡ append_piece (quotes_view quotes.now) self.old
            (chunk_piece (views.manner_view manner) (chunk_of chunk.now))) }
    {
        let words = Words::Borrowed(chunk.value.as_str());
        self.append_chunk(quotes, manner, chunk.kind, words)
    }

    /// Appends a piece of a text that was made.
    fn push_made_chunk(
        &mut self,
        quotes: &[&str],
        manner: Manner,
        chunk: StringChunk,
    ) -> Result<(), AllocError>
        ensures { OnOk result (self.new ≡ append_piece (quotes_view quotes.now) self.old
            (chunk_piece (views.manner_view manner) (chunk_of chunk))) }
    {
        let StringChunk { value, kind } = chunk;
        self.append_chunk(quotes, manner, kind, Words::Made(value))
    }

    /// Appends a piece of a text by its kind.
    fn append_chunk(
        &mut self,
        quotes: &[&str],
        manner: Manner,
        kind: ChunkKind,
        words: Words<'a>,
    ) -> Result<(), AllocError>
        ensures { OnOk result (self.new ≡ append_piece (quotes_view quotes.now) self.old
            (chunk_by kind (views.manner_view manner) (words_view words.entry))) }
    {
        match kind {
            ChunkKind::Normal => self.append_text(quotes, manner, words),
            ChunkKind::Verbatim => self.append_verbatim_text(manner.formatting, words),
            ChunkKind::Math => self.push(Piece::Markup(words)),
        }
    }

    /// Appends a piece that goes on with a text.
    fn push_further_chunk(
        &mut self,
        quotes: &[&str],
        manner: Manner,
        chunk: &'a StringChunk,
    ) -> Result<(), AllocError>
        ensures { OnOk result (self.new ≡ append_piece (quotes_view quotes.now) self.old
            (further_piece (views.manner_view manner) (chunk_of chunk.now))) }
    {
        let words = Words::Borrowed(chunk.value.as_str());
        self.append_further_chunk(quotes, manner, chunk.kind, words)
    }

    /// Appends a piece that goes on with a text and was made.
    fn push_further_made_chunk(
        &mut self,
        quotes: &[&str],
        manner: Manner,
        chunk: StringChunk,
    ) -> Result<(), AllocError>
        ensures { OnOk result (self.new ≡ append_piece (quotes_view quotes.now) self.old
            (further_piece (views.manner_view manner) (chunk_of chunk))) }
    {
        let StringChunk { value, kind } = chunk;
        self.append_further_chunk(quotes, manner, kind, Words::Made(value))
    }

    /// Appends a piece that goes on with a text, by its kind.
    fn append_further_chunk(
        &mut self,
        quotes: &[&str],
        manner: Manner,
        kind: ChunkKind,
        words: Words<'a>,
    ) -> Result<(), AllocError>
        ensures { OnOk result (self.new ≡ append_piece (quotes_view quotes.now) self.old
            (further_by kind (views.manner_view manner) (words_view words.entry))) }
    {
        match kind {
            ChunkKind::Normal => self.append_further(quotes, manner, words),
            ChunkKind::Verbatim | ChunkKind::Math => {
                self.append_chunk(quotes, manner, kind, words)
            }
        }
    }

    /// Appends a text as it is.
    fn append_verbatim_text(
        &mut self,
        formatting: Formatting,
        words: Words<'a>,
    ) -> Result<(), AllocError>
        ensures { OnOk result (self.new
            ≡ append_verbatim formatting (words_view words.entry) self.old) }
    {
        if has_text(words.as_str()) {
            self.is_known_to_print = false;
            append_words(&mut self.pieces, formatting, words)?;
            self.after_quote = false;
        }
        Ok(())
    }

    /// Appends a link from a text to an address.
    fn append_link(
        &mut self,
        formatting: Formatting,
        text: Words<'a>,
        url: Words<'a>,
    ) -> Result<(), AllocError>
        ensures { OnOk result (self.new ≡ append_token
            (link formatting (words_view text.entry) (words_view url.entry)) self.old) }
    {
        let link = Link {
            formatting,
            text,
            url,
        };
        let alloc = *self.pieces.allocator();
        let link = Box::new(alloc, link)?;
        self.push(Piece::Link(link))
    }

    /// Ends what an element contains that has printed something, with its suffix, and the element, which is part of the tree or is
    /// only marked.
    fn end_as(
        &mut self,
        quotes: &[&str],
        manner: Manner,
        suffix: &'a str,
        is_element: bool,
    ) -> Result<(), AllocError>
        ensures { OnOk result (self.new ≡ ended_as (quotes_view quotes.now)
            (views.manner_view manner) (chars suffix.now) is_element self.old) }
    {
        if self.is_repeated(suffix) {
            return self.push_end(last_pieces(is_element));
        }
        self.push_end(Piece::Unmark)?;
        self.push_text(quotes, uncased(manner), suffix)?;
        self.push_end(last_piece(is_element))
    }

    /// Ends what an element without a suffix contains that has printed something, and the element.
    #[tactic(auto, using(crate::proofs::PagesAppending::ended_without))]
    fn end_without_suffix(&mut self, is_element: bool) -> Result<(), AllocError>
        ensures { (quotes : Quotes) (m : Manners) (suffix : List ℕ) → is_filled suffix ≡ false
            → OnOk result (self.new ≡ ended_as quotes m suffix is_element self.old) }
    {
        self.push_end(last_pieces(is_element))
    }

    /// Whether a suffix is left out as the last text ends with it.
    fn is_repeated(&self, suffix: &str) -> bool
        ensures { result ≡ is_repeated (chars suffix.now) self.now }
    {
        !is_joined(self.rule) && ends_in(&self.pieces, suffix)
    }

    /// Removes the element that was begun last, with its prefix.
    fn undo(&mut self) -> Result<(), AllocError>
        ensures { OnOk result (self.new
            ≡ record self.old { tokens = before_prefix (before_mark 0 self.old.tokens) }) }
    {
        self.is_known_to_print = false;
        cut_to_mark(&mut self.pieces)?;
        cut_prefix(&mut self.pieces)
    }
}
