//! Links that hold the end of the prefix before them.

ghost use Rattle.std.specs.Prelude.{◌≡◌, None, IfOk};
ghost use Rattle.std.specs.Option.{option_and_then, option_map};
ghost use Rattle.std.specs.Str.{chars};
ghost use Rattle.laws.specs.Text.{spelled};
ghost use Rattle.rendering_context.specs.Answering.{address};
ghost use Rattle.rendering_context.specs.Views.{answer_if, answer_view};
ghost use Rattle.rendering_leaves.specs.Links.{before_end, before_link, linked_answer, look_before, whole_address};
ghost use Rattle.rendering_leaves.specs.Values.{frame};
ghost use Rattle.rendering_page.specs.Views.{frame_view, manner_view};
ghost use Rattle.rendering_style.specs.Views.{look_view, text_look_view};

use crate::node_frame::frame_of;
use rendering_context::Answer;
use rendering_page::{Frame, Manner, split_last};
use rendering_style::{Look, TextLook};
use std::alloc::AllocError;

/// What of the prefix of a text stands before its link, which holds the rest: in a published style the prefix ends in what the address
/// has before its text, and no quote stands between.
pub(crate) fn before_link<'a>(
    is_published: bool,
    look: &'a TextLook,
    answer: &Option<Answer<'_>>,
) -> Option<&'a str>
    ensures { option_map spelled result
        ≡ before_link is_published (text_look_view look.now) (answer_if answer.now) }
{
    match answer {
        Some(answer) => before_answer(is_published, look, answer),
        None => None,
    }
}

/// What of the prefix of a text stands before the link of an answer, where that is one.
fn before_answer<'a>(is_published: bool, look: &'a TextLook, answer: &Answer<'_>) -> Option<&'a str>
    ensures { option_map spelled result
        ≡ before_link is_published (text_look_view look.now) (answer_view answer.now) }
{
    match answer {
        Answer::Address { text, url } => {
            before_address(is_published, look, text.as_str(), url.as_str())
        }
        Answer::Text(_)
        | Answer::YearSuffix(_)
        | Answer::Number(_)
        | Answer::Locator(_)
        | Answer::Pages(_)
        | Answer::Transparent => None,
    }
}

/// What of the prefix of a text stands before the link from a text to its address.
fn before_address<'a>(
    is_published: bool,
    look: &'a TextLook,
    text: &str,
    url: &str,
) -> Option<&'a str>
    ensures { option_map spelled result ≡ before_link is_published (text_look_view look.now)
        (address (chars text.now) (chars url.now)) }
{
    if is_published && !look.quotes {
        return before_start(look.look.prefix.as_str(), text, url);
    }
    None
}

/// What of a prefix stands before what an address has before its text, where the prefix ends in that.
fn before_start<'t>(prefix: &'t str, text: &str, url: &str) -> Option<&'t str>
    ensures { option_map spelled result
        ≡ option_and_then (λ start. before_end start (chars prefix.now))
        (before_end (chars text.now) (chars url.now)) }
{
    match before_end(text, url) {
        Some(start) => before_end(start, prefix),
        None => None,
    }
}

/// What stands before an end of a text; none where the text has another one.
#[tactic(auto, using(crate::proofs::LinksHeld::one_less, crate::proofs::LinksHeld::another_end, crate::proofs::LinksHeld::no_end, crate::proofs::LinksHeld::all_passed))]
fn before_end<'t>(end: &str, text: &'t str) -> Option<&'t str>
    ensures { option_map spelled result ≡ before_end (chars end.now) (chars text.now) }
{
    let mut before = text;
    let mut rest = end;
    while let Some((c, leading)) = split_last(rest) {
        match split_last(before) {
            Some((last, shorter)) if c == last => before = shorter,
            Some(_) => return None,
            None => return None,
        }
        rest = leading;
    }
    Some(before)
}

/// An answer whose link shows all of its address where it holds the end of a prefix.
pub(crate) fn linked_answer<'a>(
    before: Option<&str>,
    answer: Option<Answer<'a>>,
) -> Result<Option<Answer<'a>>, AllocError>
    ensures { IfOk result (λ h. answer_if h
        ≡ linked_answer (option_map spelled before.entry) (answer_if answer.entry)) }
{
    match before {
        Some(_) => whole_address_if(answer),
        None => Ok(answer),
    }
}

/// An answer, if there is one, whose link shows all of its address.
fn whole_address_if<'a>(answer: Option<Answer<'a>>) -> Result<Option<Answer<'a>>, AllocError>
    ensures { IfOk result (λ h. answer_if h ≡ whole_address (answer_if answer.entry)) }
{
    match answer {
        Some(answer) => Ok(Some(whole_address(answer)?)),
        None => Ok(None),
    }
}

/// An answer whose link shows all of its address.
fn whole_address<'a>(answer: Answer<'a>) -> Result<Answer<'a>, AllocError>
    ensures { IfOk result (λ h. answer_view h ≡ whole_address (answer_view answer.entry)) }
{
    match answer {
        Answer::Address { text: _, url } => {
            let text = url.clone()?;
            Ok(Answer::Address { text, url })
        }
        Answer::Text(text) => Ok(Answer::Text(text)),
        Answer::YearSuffix(suffix) => Ok(Answer::YearSuffix(suffix)),
        Answer::Number(number) => Ok(Answer::Number(number)),
        Answer::Locator(text) => Ok(Answer::Locator(text)),
        Answer::Pages(pages) => Ok(Answer::Pages(pages)),
        Answer::Transparent => Ok(Answer::Transparent),
    }
}

/// The element of a text node, of which the prefix may end before a link; whatever it stands for.
pub(crate) fn frame_before<'a>(manner: Manner, before: Option<&'a str>, look: &'a Look) -> Frame<'a>
    ensures { frame_view result ≡ frame (manner_view manner) None
        (look_before (option_map spelled before.entry) (look_view look.now)) }
{
    let whole = frame_of(manner, look);
    match before {
        Some(prefix) => Frame { prefix, ..whole },
        None => whole,
    }
}
