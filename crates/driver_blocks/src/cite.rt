//! Cites of one citation, before and after they are arranged.

ghost use Rattle.std.specs.Prelude.{◌≡◌, None};
ghost use Rattle.std.specs.Option.{option_map};
ghost use Rattle.rendering_style.specs.Views.{citation_layout_view};
ghost use Rattle.laws.specs.Text.{spelled};
ghost use Rattle.driver_blocks.specs.Blocks.{inside_delimiter};
ghost use Rattle.driver_blocks.specs.Views.{before_view};

use driver_requests::Suffix;
use rendering_style::Citation;
use rendering_taxonomy::CollapseVerdict;
use rendering_tree::Elem;

/// A cite of a request as it is gathered and collapsed.
#[derive(Clone, Copy)]
pub struct Gathered<'a> {
    /// Its index among the cites of its request, from zero.
    pub cite: usize,
    /// The names in what it prints without its locator, and its number, where it prints that.
    pub names: Option<&'a Elem>,
    pub number: Option<usize>,
    pub is_shown: bool,
    pub has_locator: bool,
    /// The year suffix of its entry.
    pub suffix: Option<Suffix>,
}

/// A cite in its citation: whether it is shown, what stands before it where another one is shown before, and what collapsing leaves
/// of it.
#[derive(Clone, Copy)]
pub struct Arranged<'a> {
    pub cite: Gathered<'a>,
    pub is_shown: bool,
    pub before: Before,
    pub verdict: Option<CollapseVerdict>,
}

/// What stands before a cite.
#[derive(Clone, Copy, Debug, PartialEq, Eq)]
pub enum Before {
    /// The delimiter of the layout.
    Layout,
    /// What stands between the cites of a block.
    Inside,
    /// What stands after what was collapsed.
    AfterCollapse,
    /// What stands between year suffixes.
    YearSuffix,
    /// An en dash.
    Dash,
}

impl Before {
    /// The text of it in a style.
    pub fn text<'s>(self, style: &'s Citation) -> Option<&'s str>
        ensures { option_map spelled result ≡ before_view (citation_layout_view style.now) self }
    {
        let layout = style.layout.delimiter.as_deref();
        match self {
            Before::Layout => layout,
            Before::Inside => inside(style),
            Before::AfterCollapse => style.after_collapse_delimiter.as_deref().or(layout),
            Before::YearSuffix => style.year_suffix_delimiter.as_deref().or(inside(style)),
            Before::Dash => Some("\u{2013}"),
        }
    }
}

/// What stands between the cites of a block.
fn inside(style: &Citation) -> Option<&str>
    ensures { option_map spelled result ≡ inside_delimiter (citation_layout_view style.now) }
{
    style
        .cite_group_delimiter
        .as_deref()
        .or(style.layout.delimiter.as_deref())
}

/// A cite that prints all.
pub(crate) fn uncollapsed<'a>(before: Before, cite: Gathered<'a>) -> Arranged<'a>
    ensures { result ≡ (record
        { cite = cite.entry; is_shown = cite.entry.is_shown; before = before; verdict = None }) }
{
    Arranged {
        cite,
        is_shown: cite.is_shown,
        before,
        verdict: None,
    }
}
