//! Date nodes.

ghost use Rattle.std.specs.Prelude.{◌≡◌, not, ◌&&◌, ◌||◌, None, OnOk};
ghost use Rattle.std.specs.Cow.{cow_value};
ghost use Rattle.std.specs.Option.{option_map};
ghost use Rattle.std.specs.Str.{chars};
ghost use Rattle.laws.specs.Text.{spelled};
ghost use Rattle.rendering_context.specs.Views.{context_view};
ghost use Rattle.rendering_dates.specs.Dates.{cut_to};
ghost use Rattle.rendering_dates.specs.Views.{shape_view};
ghost use Rattle.rendering_entries.specs.Answers.{Answers};
ghost use Rattle.rendering_leaves.specs.Parts.{day_in, in_date};
ghost use Rattle.rendering_leaves.specs.Values.{date_frame, date_inside, date_manner, date_suffix, append_leaf, prints_year, shape_of};
ghost use Rattle.rendering_leaves.specs.Views.{setting_view};
ghost use Rattle.rendering_page.specs.Pieces.{append_pieces};
ghost use Rattle.rendering_page.specs.Views.{frame_view, manner_view, quotes_view};
ghost use Rattle.rendering_style.specs.Nodes as nodes;
ghost use Rattle.rendering_style.specs.Views.{date_node_view};

use crate::date_shape::{date_shape, prints_year};
use crate::entry_identifiers::own_year_suffix;
use crate::node_frame::{bare_frame, date_manner, frame_of};
use crate::node_setting::{NodeSetting, SpecialForm};
use crate::state::State;
use crate::suppression::suppress_in_substitute;
use literature_values::Date as Day;
use rendering_context::Context;
use rendering_dates::DateStyle;
use rendering_entries::EntryLike;
use rendering_page::{Frame, Manner, Page, uncased};
use rendering_style::Date;
use rendering_taxonomy::Variable;
use rendering_tree::ElemMeta;
use std::alloc::AllocError;
use std::borrow::Cow;
use texts::no_text;

/// Appends a date node: the date of its variable, with the year suffix of the first date, in a published style of the first one that
/// prints a year.
///
/// # Errors
/// Out of memory.
pub fn push_date<'a, E: EntryLike>(
    context: &Context<'_, 'a>,
    entry: &'a E,
    setting: &NodeSetting<'a>,
    node: &'a Date,
    state: &mut State<'a>,
) -> Result<(), AllocError>
    ensures { OnOk result (state.new ≡ append_leaf (context_view (E.answers entry.now) context.now)
        (setting_view setting.now) (nodes.date (date_node_view node.now)) state.old) }
{
    let day = context.date(entry, &state.suppressed, node.variable);
    let has_date = state.has_date;
    let is_passed_over = is_passed_over(context, node, state.is_published);
    let year_suffix = date_suffix(context, is_passed_over, has_date);
    append_answer(context, setting, node, year_suffix, day, &mut state.page)?;
    suppress_in_substitute(setting, Variable::Date(node.variable), state)?;
    state.has_date = has_date_after(is_passed_over, has_date);
    Ok(())
}

/// Whether a date is no first one: in a published style a date without a year.
fn is_passed_over(context: &Context<'_, '_>, node: &Date, is_published: bool) -> bool
    ensures { (a : Answers) → result ≡ (is_published
        && not (prints_year (context_view a context.now) (date_node_view node.now))) }
{
    is_published && !prints_year(context, node)
}

/// Whether the first date was printed, after a date.
fn has_date_after(is_passed_over: bool, has_date: bool) -> bool
    ensures { result ≡ (not is_passed_over || has_date) }
{
    !is_passed_over || has_date
}

/// The year suffix of a date, which only the first date has that is not passed over.
fn date_suffix<'a>(context: &Context<'_, 'a>, is_passed_over: bool, has_date: bool) -> &'a str
    ensures { (a : Answers) → spelled result
        ≡ date_suffix (context_view a context.now) (is_passed_over || has_date) }
{
    if is_passed_over || has_date {
        no_text()
    } else {
        own_year_suffix(context)
    }
}

/// Appends a date in a date node, with a year suffix. Without a date nothing is appended.
fn append_answer<'a>(
    context: &Context<'_, 'a>,
    setting: &NodeSetting<'a>,
    node: &'a Date,
    year_suffix: &'a str,
    day: Option<Cow<'a, Day>>,
    page: &mut Page<'a>,
) -> Result<(), AllocError>
    ensures { (a : Answers)
        → OnOk result (page.new ≡ append_pieces (quotes_view context.now.quotes.now)
        (day_in (context_view a context.now) (setting_view setting.now) (date_node_view node.now)
        (chars year_suffix.now) (option_map cow_value day.entry)) page.old) }
{
    match day {
        Some(Cow::Borrowed(day)) => append_day(context, setting, node, year_suffix, day, page),
        Some(Cow::Owned(day)) => append_day(context, setting, node, year_suffix, &day, page),
        None => Ok(()),
    }
}

/// Appends a date in the element of a date node.
fn append_day<'a>(
    context: &Context<'_, 'a>,
    setting: &NodeSetting<'a>,
    node: &'a Date,
    year_suffix: &'a str,
    day: &Day,
    page: &mut Page<'a>,
) -> Result<(), AllocError>
    ensures { (a : Answers)
        → OnOk result (page.new ≡ append_pieces (quotes_view context.now.quotes.now)
        (in_date (context_view a context.now) (setting_view setting.now)
        (date_node_view node.now) (chars year_suffix.now) day.now) page.old) }
{
    let frame = date_frame(setting, node);
    page.begin_element(&frame, ElemMeta::Date)?;
    append_date_parts(context, setting, node, year_suffix, day, page)?;
    page.end_element(context.quotes, &frame)?;
    Ok(())
}

/// The element of a date node. A date whose year suffix alone is printed has no affixes.
fn date_frame<'a>(setting: &NodeSetting<'a>, node: &'a Date) -> Frame<'a>
    ensures { frame_view result ≡ record (date_frame (setting_view setting.now)
        (setting_view setting.now).form (date_node_view node.now)) { meta = None } }
{
    match setting.form {
        SpecialForm::SuffixOnly => Frame {
            display: node.look.display,
            ..bare_frame(setting.manner)
        },
        _ => frame_of(setting.manner, &node.look),
    }
}

/// Appends the year suffix alone, as it is, where it is all that is wanted, else the parts of a date.
fn append_date_parts<'a>(
    context: &Context<'_, 'a>,
    setting: &NodeSetting<'a>,
    node: &'a Date,
    year_suffix: &'a str,
    day: &Day,
    page: &mut Page<'a>,
) -> Result<(), AllocError>
    ensures { (a : Answers) → OnOk result (page.new ≡ append_pieces
        (quotes_view context.now.quotes.now) (date_inside (context_view a context.now)
        (date_manner (manner_view setting.now.manner) (date_node_view node.now))
        (setting_view setting.now).form (date_node_view node.now) (chars year_suffix.now) day.now)
        page.old) }
{
    let manner = date_manner(setting.manner, node);
    match setting.form {
        SpecialForm::SuffixOnly => page.push_text(context.quotes, uncased(manner), year_suffix),
        _ => date_style(context, manner, node).push_date(page, year_suffix, day),
    }
}

/// How the parts of a date node are appended.
fn date_style<'s, 'a>(
    context: &Context<'s, 'a>,
    manner: Manner,
    node: &'a Date,
) -> DateStyle<'s, 'a>
    ensures quotes { result.quotes.now ≡ context.now.quotes.now }
    ensures locales { result.locales.now ≡ context.now.locales.now }
    ensures manner { manner_view result.manner ≡ manner_view manner }
    ensures shape { (a : Answers) → shape_view result.shape
        ≡ cut_to node.now.parts (shape_of (context_view a context.now) (date_node_view node.now)) }
{
    DateStyle {
        alloc: context.alloc,
        quotes: context.quotes,
        locales: context.locales,
        manner,
        shape: date_shape(context, node),
    }
}
