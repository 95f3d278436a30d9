//! How texts and elements are appended.

ghost use Rattle.std.specs.Prelude.{◌≡◌};
ghost use Rattle.rendering_page.specs.Pages as pages;
ghost use Rattle.rendering_page.specs.Pieces.{chunk_pieces, each_piece};
ghost use Rattle.rendering_page.specs.Views.{manner_view};

use rendering_taxonomy::{Display, Formatting, PageRule, TextCase};
use rendering_tree::ElemMeta;

/// How the texts of a node are appended.
#[derive(Clone, Copy)]
pub struct Manner {
    /// How they look.
    pub formatting: Formatting,
    /// Whether their full stops go, but for those after a full stop.
    pub strips_periods: bool,
    /// The case of their letters, where they do not stay as they are.
    pub text_case: Option<TextCase>,
    /// Whether they are in English, in which alone titles are capitalised.
    pub is_english: bool,
}

/// An element, as it begins and ends.
#[derive(Clone, Copy)]
pub struct Frame<'a> {
    /// Where it stands.
    pub display: Option<Display>,
    /// What it stands for. An element without this and without a display is no part of the tree, but has affixes.
    pub meta: Option<&'a ElemMeta>,
    /// How its affixes are appended.
    pub manner: Manner,
    /// The text before what it contains, appended as it is.
    pub prefix: &'a str,
    /// The text after what it contains, an ordinary text; none where the last text ends with it.
    pub suffix: &'a str,
}

/// Whether texts in a case stay so inside another one: those in capitals in a case of words.
fn stays_inside(outer: TextCase, inner: TextCase) -> bool
    ensures { result ≡ pages.stays_inside outer inner }
{
    match inner {
        TextCase::Uppercase => is_of_words(outer),
        _ => false,
    }
}

/// Whether a case is one of words, which changes no word with a capital.
fn is_of_words(case: TextCase) -> bool
    ensures { result ≡ pages.is_of_words case }
{
    matches!(
        case,
        TextCase::CapitalizeFirst | TextCase::CapitalizeAll | TextCase::Title
    )
}

/// A case inside another one: what is around texts counts, unless it would change nothing.
fn case_inside(outer: Option<TextCase>, inner: Option<TextCase>) -> Option<TextCase>
    ensures { result ≡ pages.case_inside outer inner }
{
    match (outer, inner) {
        (None, inner) => inner,
        (Some(outer), None) => Some(outer),
        (Some(outer), Some(inner)) => {
            if stays_inside(outer, inner) {
                Some(inner)
            } else {
                Some(outer)
            }
        }
    }
}

/// The same in a case, inside the one that there is already.
pub fn with_case(manner: Manner, text_case: Option<TextCase>) -> Manner
    ensures { manner_view result ≡ pages.with_case text_case (manner_view manner) }
{
    Manner {
        text_case: case_inside(manner.text_case, text_case),
        ..manner
    }
}

/// The same in the case that texts have: each is appended as it is, but for its full stops, and so is each piece of a text.
pub fn uncased(manner: Manner) -> Manner
    ensures uncased { manner_view result ≡ pages.uncased (manner_view manner) }
    ensures texts { (cs : _) → pages.in_manner (manner_view result) cs
        ≡ pages.stripped_if manner.strips_periods cs }
    ensures pieces { (ks : _) → chunk_pieces (manner_view result) ks
        ≡ each_piece (manner_view result) ks }
{
    Manner {
        text_case: None,
        ..manner
    }
}

/// Whether texts are joined by what punctuation they have.
pub fn is_joined(rule: PageRule) -> bool
    ensures { result ≡ pages.is_joined rule }
{
    matches!(rule, PageRule::Joined)
}
