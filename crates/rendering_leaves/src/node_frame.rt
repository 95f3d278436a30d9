//! How nodes look, and the elements round them.

ghost use Rattle.std.specs.Prelude.{◌≡◌, [], None};
ghost use Rattle.rendering_leaves.specs.Values.{date_manner, frame, look_manner, number_manner, text_manner};
ghost use Rattle.rendering_page.specs.Views.{manner_view, frame_view};
ghost use Rattle.rendering_style.specs.Views.{date_node_view, look_view, number_node_view, text_look_view};

use rendering_page::{Frame, Manner, with_case};
use rendering_style::{Date, Look, Number, TextLook};
use texts::no_text;

/// How the texts of a node with that look are appended, inside what is around it.
pub fn look_manner(manner: Manner, look: &Look) -> Manner
    ensures { manner_view result ≡ look_manner (manner_view manner) (look_view look.now) }
{
    Manner {
        formatting: look.formatting.over(manner.formatting),
        ..manner
    }
}

/// How the texts of a text node with that look are appended, inside what is around it, whose case comes first; their full stops may be
/// left out.
pub fn text_manner(manner: Manner, look: &TextLook) -> Manner
    ensures { manner_view result ≡ text_manner (manner_view manner) (text_look_view look.now) }
{
    let inside = Manner {
        strips_periods: manner.strips_periods || look.strip_periods,
        ..look_manner(manner, &look.look)
    };
    with_case(inside, look.text_case)
}

/// How the texts of a number node are appended, inside what is around it, whose case comes first.
pub(crate) fn number_manner(manner: Manner, node: &Number) -> Manner
    ensures { manner_view result ≡ number_manner (manner_view manner) (number_node_view node.now) }
{
    with_case(look_manner(manner, &node.look), node.text_case)
}

/// How the texts of a date node are appended, inside what is around it, whose case comes first.
pub(crate) fn date_manner(manner: Manner, node: &Date) -> Manner
    ensures { manner_view result ≡ date_manner (manner_view manner) (date_node_view node.now) }
{
    with_case(look_manner(manner, &node.look), node.text_case)
}

/// An element with the display and the affixes of a node, which look as what is around the node; whatever it stands for.
pub fn frame_of<'a>(manner: Manner, look: &'a Look) -> Frame<'a>
    ensures { frame_view result ≡ frame (manner_view manner) None (look_view look.now) }
{
    Frame {
        display: look.display,
        meta: None,
        manner,
        prefix: look.prefix.as_str(),
        suffix: look.suffix.as_str(),
    }
}

/// An element without display and affixes; whatever it stands for.
pub(crate) fn bare_frame<'a>(manner: Manner) -> Frame<'a>
    ensures { frame_view result ≡ record
        { display = None; meta = None; manner = manner_view manner; prefix = []; suffix = [] } }
{
    Frame {
        display: None,
        meta: None,
        manner,
        prefix: no_text(),
        suffix: no_text(),
    }
}
