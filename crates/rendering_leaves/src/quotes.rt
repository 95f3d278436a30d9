//! The quotes round what a node prints.

ghost use Rattle.std.specs.Prelude.{◌≡◌, OnOk};
ghost use Rattle.rendering_context.specs.Views.{context_view};
ghost use Rattle.rendering_entries.specs.Answers.{Answers};
ghost use Rattle.rendering_leaves.specs.NodeSettings.{append};
ghost use Rattle.rendering_leaves.specs.Quoted.{close_term, open_term};
ghost use Rattle.rendering_leaves.specs.Values.{quote_after, quote_before};
ghost use Rattle.rendering_page.specs.Pieces.{append_pieces};
ghost use Rattle.rendering_page.specs.Views.{quotes_view, manner_view};

use crate::state::State;
use rendering_context::Context;
use rendering_page::{Manner, Page};
use rendering_taxonomy::OtherTerm;
use std::alloc::AllocError;

/// Appends the quote before what a node prints, where it stands in quotes, or in quotes inside others.
///
/// # Errors
/// Out of memory.
pub fn push_quote_before<'a>(
    context: &Context<'_, 'a>,
    manner: Manner,
    quotes: bool,
    inside: bool,
    state: &mut State<'a>,
) -> Result<(), AllocError>
    ensures { (a : Answers) → OnOk result (state.new ≡ append (context_view a context.now)
        (quote_before (context_view a context.now) (manner_view manner) quotes inside) state.old) }
{
    append_before(context, manner, quotes, inside, &mut state.page)
}

/// Appends the quote after what a node prints, where it stands in quotes, or in quotes inside others.
///
/// # Errors
/// Out of memory.
pub fn push_quote_after<'a>(
    context: &Context<'_, 'a>,
    manner: Manner,
    quotes: bool,
    inside: bool,
    state: &mut State<'a>,
) -> Result<(), AllocError>
    ensures { (a : Answers) → OnOk result (state.new ≡ append (context_view a context.now)
        (quote_after (context_view a context.now) (manner_view manner) quotes inside) state.old) }
{
    append_after(context, manner, quotes, inside, &mut state.page)
}

/// Appends the quote before what a node prints.
pub(crate) fn append_before<'a>(
    context: &Context<'_, 'a>,
    manner: Manner,
    quotes: bool,
    inside: bool,
    page: &mut Page<'a>,
) -> Result<(), AllocError>
    ensures { (a : Answers) → OnOk result (page.new ≡ append_pieces
        (quotes_view context.now.quotes.now) (quote_before (context_view a context.now)
        (manner_view manner) quotes inside) page.old) }
{
    if !quotes {
        return Ok(());
    }
    let text = context.locales.quote_text(open_term(inside));
    page.push_text(context.quotes, manner, text)
}

/// Appends the quote after what a node prints.
pub(crate) fn append_after<'a>(
    context: &Context<'_, 'a>,
    manner: Manner,
    quotes: bool,
    inside: bool,
    page: &mut Page<'a>,
) -> Result<(), AllocError>
    ensures { (a : Answers) → OnOk result (page.new ≡ append_pieces
        (quotes_view context.now.quotes.now) (quote_after (context_view a context.now)
        (manner_view manner) quotes inside) page.old) }
{
    if !quotes {
        return Ok(());
    }
    let text = context.locales.quote_text(close_term(inside));
    page.push_close_quote(context.quotes, manner, text)
}

/// The open quote, which is another one inside quotes.
pub(crate) fn open_term(inside: bool) -> OtherTerm
    ensures { result ≡ open_term inside }
{
    if inside {
        OtherTerm::OpenInnerQuote
    } else {
        OtherTerm::OpenQuote
    }
}

/// The close quote, which is another one inside quotes.
pub(crate) fn close_term(inside: bool) -> OtherTerm
    ensures { result ≡ close_term inside }
{
    if inside {
        OtherTerm::CloseInnerQuote
    } else {
        OtherTerm::CloseQuote
    }
}
