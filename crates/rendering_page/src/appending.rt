//! What is appended to a page.

ghost use Rattle.std.specs.Prelude.{◌≡◌, ◌∷◌, ◌++◌, ◌<◌, [], true, false, List, ℕ, Bool, OnErr, OnOk, length, Option, Some, None, vec_capacity, vec_len};
ghost use Rattle.std.specs.Option.{option_map};
ghost use Rattle.std.specs.Str.{chars};
ghost use Rattle.rendering_tree.specs.Tokens.{Token, mark, opening, unmark, with_letters};
ghost use Rattle.rendering_tree.specs.Views.{meta_view};
ghost use Rattle.rendering_page.specs.Marks.{begins_nothing};
ghost use Rattle.rendering_page.specs.Pages as pages;
ghost use Rattle.rendering_page.specs.Tail.{remaining, stripped};
ghost use Rattle.rendering_taxonomy.specs.declared.page.PageRule.{PageRule};
ghost use Rattle.rendering_page.specs.Views as views;
ghost use Rattle.rendering_page.specs.Views.{words_view, quotes_view, pieces_view};

use crate::cutting::put_before;
use crate::manner::{Frame, Manner};
use crate::page_end::ends_in;
use crate::piece::{Piece, Words};
use crate::tail::{length, make_room, stripped};
use rendering_cases::{applies, cased_text};
use rendering_taxonomy::Formatting;
use rendering_tree::ElemMeta;
use std::alloc::AllocError;
use texts::has_text;

/// Appends a piece. Where there is room, as there mostly is, no call is made.
#[inline(always)]
pub(crate) fn push_piece<'a>(
    pieces: &mut Vec<Piece<'a>>,
    piece: Piece<'a>,
) -> Result<(), AllocError>
    ensures pushed { OnOk result (pieces.new.items ≡ pieces.old.items ++ piece.entry ∷ []) }
    ensures same { OnErr result (pieces.new.items ≡ pieces.old.items) }
{
    if pieces.len() == pieces.capacity() {
        reserve_one(pieces)?;
    }
    pieces.push_reserved(piece);
    Ok(())
}

/// Makes room for a piece more, and as many as there are.
#[cold]
#[inline(never)]
fn reserve_one(pieces: &mut Vec<Piece<'_>>) -> Result<(), AllocError>
    ensures items { pieces.new.items ≡ pieces.old.items }
    ensures index { OnOk result (vec_len pieces.new < vec_capacity pieces.new) }
{
    pieces.reserve(1)?;
    Ok(())
}

/// Appends a text as it is.
pub(crate) fn append_words<'a>(
    pieces: &mut Vec<Piece<'a>>,
    formatting: Formatting,
    words: Words<'a>,
) -> Result<(), AllocError>
    ensures { OnOk result (pieces_view pieces.new.items
        ≡ with_letters formatting (words_view words.entry) (pieces_view pieces.old.items)) }
{
    if has_text(words.as_str()) {
        push_piece(pieces, Piece::Text { formatting, words })?;
    }
    Ok(())
}

/// Appends a text after what remains of the page.
#[inline(always)]
pub(crate) fn append<'a>(
    pieces: &mut Vec<Piece<'a>>,
    manner: Manner,
    words: Words<'a>,
) -> Result<(), AllocError>
    ensures { OnOk result (pieces_view pieces.new.items ≡ with_letters manner.formatting
        (pages.in_manner (views.manner_view manner) (words_view words.entry))
        (remaining (words_view words.entry) (pieces_view pieces.old.items))) }
{
    make_room(pieces, words.as_str());
    if changes(manner) {
        return append_in_manner(pieces, manner, words);
    }
    append_words(pieces, manner.formatting, words)
}

/// Whether a manner changes any text: there is a case for it, or full stops go.
#[inline(always)]
fn changes(manner: Manner) -> bool
    ensures { result ≡ false
        → (cs : List ℕ) → pages.in_manner (views.manner_view manner) cs ≡ cs }
{
    if applies(manner.text_case, manner.is_english) {
        return true;
    }
    manner.strips_periods
}

/// Appends a text as a manner has it. A text that stays in the case that it has is not copied.
#[inline(never)]
pub(crate) fn append_in_manner<'a>(
    pieces: &mut Vec<Piece<'a>>,
    manner: Manner,
    words: Words<'a>,
) -> Result<(), AllocError>
    ensures { OnOk result (pieces_view pieces.new.items ≡ with_letters manner.formatting
        (pages.in_manner (views.manner_view manner) (words_view words.entry))
        (pieces_view pieces.old.items)) }
{
    if applies(manner.text_case, manner.is_english) {
        return append_cased(pieces, manner, words.as_str());
    }
    append_uncased(pieces, manner, words)
}

/// Appends a text in the case of a manner.
fn append_cased<'a>(
    pieces: &mut Vec<Piece<'a>>,
    manner: Manner,
    text: &str,
) -> Result<(), AllocError>
    ensures { OnOk result (pieces_view pieces.new.items ≡ with_letters manner.formatting
        (pages.in_manner (views.manner_view manner) (chars text.now))
        (pieces_view pieces.old.items)) }
{
    let alloc = *pieces.allocator();
    let cased = cased_text(alloc, text, manner.text_case, manner.is_english)?;
    append_uncased(pieces, manner, Words::Made(cased))
}

/// Appends a text in the case that it has.
#[inline(always)]
fn append_uncased<'a>(
    pieces: &mut Vec<Piece<'a>>,
    manner: Manner,
    words: Words<'a>,
) -> Result<(), AllocError>
    ensures { OnOk result (pieces_view pieces.new.items ≡ with_letters manner.formatting
        (pages.stripped_if manner.strips_periods (words_view words.entry))
        (pieces_view pieces.old.items)) }
{
    if manner.strips_periods {
        return append_stripped(pieces, manner.formatting, words.as_str());
    }
    append_words(pieces, manner.formatting, words)
}

/// Appends a text without its full stops, but for those after a full stop.
fn append_stripped<'a>(
    pieces: &mut Vec<Piece<'a>>,
    formatting: Formatting,
    text: &str,
) -> Result<(), AllocError>
    ensures { OnOk result (pieces_view pieces.new.items
        ≡ with_letters formatting (stripped (chars text.now)) (pieces_view pieces.old.items)) }
{
    let words = stripped(*pieces.allocator(), text)?;
    append_words(pieces, formatting, Words::Made(words))
}

/// Appends a text that begins with punctuation, after a close quote: its first character goes inside a quote that ends the last
/// text.
pub(crate) fn append_after_quote<'a>(
    pieces: &mut Vec<Piece<'a>>,
    quotes: &[&str],
    manner: Manner,
    first: char,
    words: Words<'a>,
) -> Result<(), AllocError>
    ensures { (cs : List ℕ) (b : Bool) (r : PageRule) → words_view words.entry ≡ first ∷ cs
        → OnOk result (pieces_view pieces.new.items ≡ (pages.punctuated (views.manner_view manner)
        first cs (pages.quote_at_end (quotes_view quotes.now) (pieces_view pieces.old.items))
        (record { tokens = pieces_view pieces.old.items; after_quote = b; rule = r })).tokens) }
{
    match quote_at_end(pieces, quotes) {
        Some(count) => {
            put_before(pieces, count, first)?;
            append(pieces, manner, words.without_first())
        }
        None => append(pieces, manner, words),
    }
}

/// How many characters the first of these quotes has that ends the last text.
fn quote_at_end(pieces: &[Piece<'_>], quotes: &[&str]) -> Option<usize>
    ensures { result
        ≡ option_map length (pages.quote_at_end (quotes_view quotes.now) (pieces_view pieces.now)) }
{
    for quote in quotes {
        if has_text(quote) && ends_in(pieces, quote) {
            return Some(length(quote));
        }
    }
    None
}

/// Appends where an element begins, its prefix and a mark.
pub(crate) fn begin<'a>(pieces: &mut Vec<Piece<'a>>, frame: &Frame<'a>) -> Result<(), AllocError>
    ensures { OnOk result (pieces_view pieces.new.items
        ≡ mark ∷ with_letters frame.now.manner.formatting (chars frame.now.prefix.now)
        (pages.first_token (views.frame_view frame.now).display (views.frame_view frame.now).meta
        ∷ pieces_view pieces.old.items)) }
{
    reserve(pieces)?;
    if has_text(frame.prefix) {
        return begin_with_prefix(pieces, first_piece(frame), frame);
    }
    push_piece(pieces, first_pieces(frame))
}

/// Appends where an element begins that stands for `meta`, its prefix and a mark.
pub(crate) fn begin_made<'a>(
    pieces: &mut Vec<Piece<'a>>,
    frame: &Frame<'a>,
    meta: ElemMeta,
) -> Result<(), AllocError>
    ensures { OnOk result (pieces_view pieces.new.items
        ≡ mark ∷ with_letters frame.now.manner.formatting (chars frame.now.prefix.now)
        (opening frame.now.display (Some (meta_view meta)) ∷ pieces_view pieces.old.items)) }
{
    reserve(pieces)?;
    let display = frame.display;
    if has_text(frame.prefix) {
        return begin_with_prefix(pieces, Piece::MadeOpening { display, meta }, frame);
    }
    push_piece(pieces, Piece::MadeBegin { display, meta })
}

/// Makes room for as many pieces as a short page has, such as that of a cite.
fn reserve(pieces: &mut Vec<Piece<'_>>) -> Result<(), AllocError>
    ensures { OnOk result (pieces.new.items ≡ pieces.old.items) }
{
    let room = 24;
    if pieces.capacity() < room {
        pieces.reserve(room)?;
    }
    Ok(())
}

/// Appends where an element begins, its prefix and a mark.
fn begin_with_prefix<'a>(
    pieces: &mut Vec<Piece<'a>>,
    first: Piece<'a>,
    frame: &Frame<'a>,
) -> Result<(), AllocError>
    ensures { OnOk result (pieces_view pieces.new.items
        ≡ mark ∷ with_letters frame.now.manner.formatting (chars frame.now.prefix.now)
        (views.with_piece (pieces_view pieces.old.items) first.entry)) }
{
    pieces.push(first)?;
    append_words(
        pieces,
        frame.manner.formatting,
        Words::Borrowed(frame.prefix),
    )?;
    pieces.push(Piece::Mark)?;
    Ok(())
}

/// Where an element begins.
fn first_piece<'a>(frame: &Frame<'a>) -> Piece<'a>
    ensures { (ts : List Token) → views.with_piece ts result ≡ pages.first_token
        (views.frame_view frame.now).display (views.frame_view frame.now).meta ∷ ts }
{
    match (frame.meta, frame.display) {
        (Some(meta), display) => Piece::Opening {
            display,
            meta: Some(meta),
        },
        (None, Some(display)) => Piece::Opening {
            display: Some(display),
            meta: None,
        },
        (None, None) => Piece::Mark,
    }
}

/// Where an element without a prefix begins, and what it contains.
fn first_pieces<'a>(frame: &Frame<'a>) -> Piece<'a>
    ensures { (ts : List Token) → views.with_piece ts result ≡ mark ∷ pages.first_token
        (views.frame_view frame.now).display (views.frame_view frame.now).meta ∷ ts }
{
    match (frame.meta, frame.display) {
        (Some(meta), display) => Piece::Begin {
            display,
            meta: Some(meta),
        },
        (None, Some(display)) => Piece::Begin {
            display: Some(display),
            meta: None,
        },
        (None, None) => Piece::BareBegin,
    }
}

/// Whether an element is part of the tree, and not only marked.
pub(crate) fn is_element(frame: &Frame<'_>) -> bool
    ensures { pages.end_token result
        ≡ pages.last_token (views.frame_view frame.now).display (views.frame_view frame.now).meta }
{
    match (frame.meta, frame.display) {
        (Some(_), _) | (None, Some(_)) => true,
        (None, None) => false,
    }
}

/// Where an element ends that is part of the tree, or is only marked.
pub(crate) fn last_piece<'a>(is_element: bool) -> Piece<'a>
    ensures token { (ts : List Token)
        → views.with_piece ts result ≡ pages.end_token is_element ∷ ts }
    ensures end { begins_nothing result ≡ true }
{
    if is_element {
        Piece::Closing
    } else {
        Piece::Unmark
    }
}

/// Where what such an element contains ends, and the element.
pub(crate) fn last_pieces<'a>(is_element: bool) -> Piece<'a>
    ensures tokens { (ts : List Token)
        → views.with_piece ts result ≡ pages.end_token is_element ∷ unmark ∷ ts }
    ensures end { begins_nothing result ≡ true }
{
    if is_element {
        Piece::End
    } else {
        Piece::BareEnd
    }
}
