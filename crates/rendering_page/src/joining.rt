//! The texts of a page, joined where they meet.

ghost use Rattle.std.specs.Prelude.{◌≡◌, ◌&&◌, ◌∷◌, [], false, not, true, Bool, List, ℕ, IfOk, OnOk};
ghost use Rattle.std.specs.Str.{chars};
ghost use Rattle.laws.specs.Text.{is_filled};
ghost use Rattle.rendering_tree.specs.Tokens.{last_backwards, with_letters};
ghost use Rattle.rendering_page.specs.Joints.{all_joined, ends_by, is_in_place, is_left_out, is_replaced, is_gap, is_taken_inside, joining, nothing_joined, with_after_gap, with_first, with_inside, with_met, with_quote, with_room, without_gap, without_last};
ghost use Rattle.rendering_page.specs.Joints as specs;
ghost use Rattle.rendering_page.specs.JoiningPieces.{with_all, with_bounds, with_piece_alone, with_text};
ghost use Rattle.rendering_page.specs.Views.{link_view, pieces_view, with_piece, words_view};

use crate::appending::push_piece;
use crate::cutting::cut;
use crate::joints::{goes_inside, is_left_out, is_replaced, is_stop, takes_place};
use crate::page_end::last_character;
use crate::piece::{Link, Piece, Words};
use rendering_taxonomy::Formatting;
use std::alloc::{AllocError, Global};
use std::marker::Model;
use texts::{empty_text, has_text, push_character, split_first};

/// What of a page is joined so far.
struct Joining<'a> {
    /// What stands before a close quote, or all of it.
    done: Vec<Piece<'a>>,
    /// A close quote, and what begins and ends after it, with one space after the quote.
    held: Vec<Piece<'a>>,
    /// Whether there is a close quote.
    is_quoted: bool,
    /// Whether there is such a space.
    is_spaced: bool,
    /// Whether the last piece is part of a text.
    is_text: bool,
}

impl Drop for Joining<'_> {
    fn drop(self) {
        let Joining {
            done: _,
            held: _,
            is_quoted: _,
            is_spaced: _,
            is_text: _,
        } = self;
    }
}

impl<'a> Model for Joining<'a> {
    ghost use Rattle.rendering_page.specs.Joints as joints;

    ghost Value = { joints.Joining };

    ghost use Rattle.rendering_page.specs.Views.{pieces_view};

    ghost view = { λ j. record {
      done = pieces_view j.done.items;
      held = pieces_view j.held.items;
      is_quoted = j.is_quoted;
      is_spaced = j.is_spaced;
      is_text = j.is_text;
    } };
}

/// Pieces of which the texts are joined. `inside` is whether punctuation goes inside quotes.
#[tactic(auto, using(crate::proofs::JoiningSteps::joining_all))]
pub(crate) fn join<'a>(pieces: Vec<Piece<'a>>, inside: bool) -> Result<Vec<Piece<'a>>, AllocError>
    ensures { IfOk result (λ v. pieces_view v.items
        ≡ all_joined (joining inside (pieces_view pieces.entry.items) nothing_joined)) }
{
    let mut joining = Joining::new(*pieces.allocator());
    for piece in pieces {
        joining.take(inside, piece)?;
    }
    joining.finish()
}

impl<'a> Joining<'a> {
    /// Nothing.
    fn new(alloc: Global) -> Joining<'a>
        ensures { result ≡ nothing_joined }
    {
        Joining {
            done: Vec::new(alloc),
            held: Vec::new(alloc),
            is_quoted: false,
            is_spaced: false,
            is_text: false,
        }
    }

    /// All pieces.
    fn finish(mut self) -> Result<Vec<Piece<'a>>, AllocError>
        ensures { IfOk result (λ v. pieces_view v.items ≡ all_joined self.entry) }
    {
        self.release()?;
        let Joining {
            done,
            held: _,
            is_quoted: _,
            is_spaced: _,
            is_text: _,
        } = self;
        Ok(done)
    }

    /// A piece more.
    #[tactic(auto, using(crate::proofs::JoiningSteps::piece_of_bounds))]
    fn take(&mut self, inside: bool, piece: Piece<'a>) -> Result<(), AllocError>
        ensures { OnOk result (self.new ≡ joining inside (with_piece [] piece.entry) self.old) }
    {
        match piece {
            Piece::Text { formatting, words } => self.take_text(inside, formatting, words),
            Piece::Link(link) => self.take_link(link),
            Piece::Markup(text) => self.put(Piece::Markup(text)),
            Piece::Transparent {
                formatting,
                cite_idx,
            } => self.put(Piece::Transparent {
                formatting,
                cite_idx,
            }),
            bound => self.put_bound(bound),
        }
    }

    /// A text, or more of one.
    #[tactic(auto, using(crate::proofs::JoiningSteps::text_more, crate::proofs::JoiningSteps::text_begun))]
    fn take_text(
        &mut self,
        inside: bool,
        formatting: Formatting,
        words: Words<'a>,
    ) -> Result<(), AllocError>
        ensures { OnOk result (self.new
            ≡ joining inside (with_letters formatting (words_view words.entry) []) self.old) }
    {
        let Some((first, _)) = split_first(words.as_str()) else {
            return Ok(());
        };
        if self.is_text {
            return self.put_text(formatting, words);
        }
        self.begin(inside, formatting, first, words)
    }

    /// A text that begins, after the space that stands after a close quote or elsewhere.
    fn begin(
        &mut self,
        inside: bool,
        formatting: Formatting,
        first: char,
        words: Words<'a>,
    ) -> Result<(), AllocError>
        ensures { (cs : List ℕ) → words_view words.entry ≡ first ∷ cs → OnOk result
            (self.new ≡ with_text formatting cs (with_first inside formatting first self.old)) }
    {
        if self.is_spaced {
            return self.meet_gap(inside, formatting, first, words);
        }
        self.meet(inside, formatting, first, words)
    }

    /// A text that begins after the space that stands after a close quote.
    fn meet_gap(
        &mut self,
        inside: bool,
        formatting: Formatting,
        first: char,
        words: Words<'a>,
    ) -> Result<(), AllocError>
        ensures { (cs : List ℕ) → words_view words.entry ≡ first ∷ cs → OnOk result
            (self.new ≡ with_text formatting cs (with_after_gap inside formatting first self.old)) }
    {
        if is_left_out(' ', first) {
            return self.go_on(formatting, words);
        }
        if is_replaced(' ', first) {
            self.cut_gap();
            return self.meet(inside, formatting, first, words);
        }
        self.put_text(formatting, words)
    }

    /// Cuts the space after a close quote.
    fn cut_gap(&mut self)
        ensures { self.new ≡ without_gap self.old }
    {
        self.is_spaced = false;
        cut(&mut self.held, 1);
    }

    /// A text that meets what stands before it.
    fn meet(
        &mut self,
        inside: bool,
        formatting: Formatting,
        first: char,
        words: Words<'a>,
    ) -> Result<(), AllocError>
        ensures { (cs : List ℕ) → words_view words.entry ≡ first ∷ cs → OnOk result
            (self.new ≡ with_text formatting cs (with_met inside formatting first self.old)) }
    {
        if self.takes_place(first) {
            return self.put_in_place(formatting, words);
        }
        self.make_room(first);
        if self.leaves_out(first) {
            return self.go_on(formatting, words);
        }
        if self.takes_inside(inside, first) {
            return self.go_inside(formatting, first, words);
        }
        self.put_text(formatting, words)
    }

    /// A text of which the first character takes the place of the last one.
    fn put_in_place(&mut self, formatting: Formatting, words: Words<'a>) -> Result<(), AllocError>
        ensures { OnOk result (self.new
            ≡ with_text formatting (words_view words.entry) (without_last self.old)) }
    {
        self.cut_last();
        self.put_text(formatting, words)
    }

    /// A text without its first character, which is left out.
    fn go_on(&mut self, formatting: Formatting, words: Words<'a>) -> Result<(), AllocError>
        ensures { (c : ℕ) (cs : List ℕ) → words_view words.entry ≡ c ∷ cs → OnOk result
            (self.new ≡ with_text formatting cs (record self.old { is_text = true })) }
    {
        self.is_text = true;
        self.put_text(formatting, words.without_first())
    }

    /// A text of which the first character goes inside the close quote.
    fn go_inside(
        &mut self,
        formatting: Formatting,
        first: char,
        words: Words<'a>,
    ) -> Result<(), AllocError>
        ensures { (cs : List ℕ) → words_view words.entry ≡ first ∷ cs → OnOk result
            (self.new ≡ with_text formatting cs (with_inside formatting first self.old)) }
    {
        self.put_inside(formatting, first)?;
        self.put_text(formatting, words.without_first())
    }

    /// Whether a character goes inside the close quote.
    fn takes_inside(&self, inside: bool, first: char) -> bool
        ensures { result ≡ is_taken_inside inside first self.now }
    {
        inside && self.is_quoted && goes_inside(first)
    }

    /// Whether a character is a full stop that takes the place of the last one.
    fn takes_place(&self, first: char) -> bool
        ensures { result ≡ is_in_place first self.now }
    {
        match last_character(&self.done) {
            Some(before) => takes_place(self.is_quoted, before, first),
            None => false,
        }
    }

    /// Cuts the last character whose place this one takes.
    fn make_room(&mut self, first: char)
        ensures { self.new ≡ with_room first self.old }
    {
        if self.is_replaced_by(first) {
            self.cut_last();
        }
    }

    /// Cuts the last character.
    fn cut_last(&mut self)
        ensures { self.new ≡ without_last self.old }
    {
        cut(&mut self.done, 1);
    }

    /// Whether this character takes the place of the last one, which is another one.
    fn is_replaced_by(&self, first: char) -> bool
        ensures { result
            ≡ ends_by (λ before. is_replaced before first) (last_backwards self.now.done) }
    {
        match last_character(&self.done) {
            Some(before) => is_replaced(before, first),
            None => false,
        }
    }

    /// Whether this character is left out after the last one.
    fn leaves_out(&self, first: char) -> bool
        ensures { result
            ≡ ends_by (λ before. is_left_out before first) (last_backwards self.now.done) }
    {
        match last_character(&self.done) {
            Some(before) => is_left_out(before, first),
            None => false,
        }
    }

    /// Whether punctuation is last.
    fn is_stopped(&self) -> bool
        ensures { result ≡ ends_by specs.is_stop (last_backwards self.now.done) }
    {
        match last_character(&self.done) {
            Some(before) => is_stop(before),
            None => false,
        }
    }

    /// A character inside the close quote, unless punctuation stands there.
    fn put_inside(&mut self, formatting: Formatting, c: char) -> Result<(), AllocError>
        ensures { OnOk result (self.new ≡ with_inside formatting c self.old) }
    {
        self.is_text = true;
        if self.is_stopped() {
            return Ok(());
        }
        let mut text = empty_text(*self.done.allocator());
        push_character(&mut text, c)?;
        let words = Words::Made(text);
        push_piece(&mut self.done, Piece::Text { formatting, words })
    }

    /// A text after all, if it is one.
    fn put_text(&mut self, formatting: Formatting, words: Words<'a>) -> Result<(), AllocError>
        ensures { OnOk result (self.new
            ≡ with_text formatting (words_view words.entry) self.old) }
    {
        let Some((first, rest)) = split_first(words.as_str()) else {
            return Ok(());
        };
        if self.is_gap(first, rest) {
            return self.put_gap(formatting, words);
        }
        self.put_all(formatting, words)
    }

    /// Whether a character, and nothing more, is the first space after a close quote.
    fn is_gap(&self, first: char, rest: &str) -> bool
        ensures { result ≡ not (is_filled (chars rest.now)) && is_gap first self.now }
    {
        !has_text(rest) && (!self.is_spaced && (self.is_quoted && first == ' '))
    }

    /// A text after a close quote, with which the quote is still met.
    fn put_gap(&mut self, formatting: Formatting, words: Words<'a>) -> Result<(), AllocError>
        ensures { OnOk result (self.new ≡ record self.old {
          held = with_letters formatting (words_view words.entry) self.old.held;
          is_spaced = true;
          is_text = true;
        }) }
    {
        self.is_spaced = true;
        self.is_text = true;
        let gap = Piece::Text { formatting, words };
        push_piece(&mut self.held, gap)
    }

    /// A text after all.
    fn put_all(&mut self, formatting: Formatting, words: Words<'a>) -> Result<(), AllocError>
        ensures { OnOk result (self.new ≡ with_all formatting (words_view words.entry) self.old) }
    {
        self.release()?;
        self.is_text = true;
        push_piece(&mut self.done, Piece::Text { formatting, words })
    }

    /// A link, or a close quote.
    #[tactic(auto, using(crate::proofs::JoiningSteps::link_alone, crate::proofs::JoiningSteps::link_quote))]
    fn take_link(&mut self, link: Box<Link<'a>>) -> Result<(), AllocError>
        ensures { (inside : Bool) → OnOk result (self.new
            ≡ joining inside (link_view link.entry.value ∷ []) self.old) }
    {
        if has_text(link.url.as_str()) {
            return self.put(Piece::Link(link));
        }
        let Link {
            formatting,
            text,
            url: _,
        } = Box::into_inner(link);
        self.hold(formatting, text)
    }

    /// A close quote.
    fn hold(&mut self, formatting: Formatting, words: Words<'a>) -> Result<(), AllocError>
        ensures { OnOk result (self.new
            ≡ with_quote formatting (words_view words.entry) self.old) }
    {
        self.release()?;
        self.is_quoted = true;
        self.is_spaced = false;
        self.is_text = false;
        push_piece(&mut self.held, Piece::Text { formatting, words })
    }

    /// What is no text, after all.
    fn put(&mut self, piece: Piece<'a>) -> Result<(), AllocError>
        ensures { OnOk result (self.new ≡ with_piece_alone piece.entry self.old) }
    {
        self.release()?;
        self.is_text = false;
        push_piece(&mut self.done, piece)
    }

    /// The start or the end of something, after a close quote if there is one.
    fn put_bound(&mut self, piece: Piece<'a>) -> Result<(), AllocError>
        ensures { OnOk result (self.new ≡ with_bounds piece.entry self.old) }
    {
        self.is_text = false;
        if self.is_quoted {
            return push_piece(&mut self.held, piece);
        }
        push_piece(&mut self.done, piece)
    }

    /// Lets a close quote, and what stands after it, be done.
    #[tactic(auto, using(crate::proofs::JoiningSteps::pieces_after))]
    fn release(&mut self) -> Result<(), AllocError>
        ensures { OnOk result (self.new
            ≡ record self.old
            { done = all_joined self.old; held = []; is_quoted = false; is_spaced = false }) }
    {
        self.is_quoted = false;
        self.is_spaced = false;
        self.done.append(&mut self.held)
    }
}
