//! The values of keys, of variables and of what macros print.

ghost use Rattle.std.specs.Prelude.{◌≡◌, [], map, IfOk};
ghost use Rattle.std.specs.Option.{option_map};
ghost use Rattle.rendering_leaves.specs.Views.{setting_view};
ghost use Rattle.rendering_names.specs.Views.{names_around_view, overriding_view, resolved_options_view};
ghost use Rattle.rendering_nodes.specs.Views.{macros_of, walk_context};
ghost use Rattle.rendering_style.specs.Opening.{opened_nodes};
ghost use Rattle.rendering_style.specs.StyleViews.{style_view};
ghost use Rattle.rendering_style.specs.Views.{node_view, sort_key_view};
ghost use Rattle.rendering_sorting.specs.Printed.{goes_behind, key_options, key_setting, key_value, own_options, printed_text};
ghost use Rattle.rendering_context.specs.Answering.{answer_to, date_answer};
ghost use Rattle.rendering_taxonomy.specs.declared.date.LongShortForm.TheVariants.{Long};
ghost use Rattle.rendering_sorting.specs.Values.{of_answer, of_date, of_people, of_text, value_of_variable};
ghost use Rattle.rendering_sorting.specs.Views.{value_view};

use crate::key::SortValue;
use crate::names::people_value;
use crate::values::{date_value, text_value, value_of_answer};
use rendering_entries::EntryLike;
use rendering_leaves::{NodeSetting, SpecialForm, State};
use rendering_names::{NamesAround, OverridingOptions, ResolvedNameOptions};
use rendering_nodes::Walk;
use rendering_page::plain_manner;
use rendering_style::{Node, SortKey, SortTarget};
use rendering_taxonomy::{DateVariable, LongShortForm, NameAsSortOrder, NameVariable, Variable};
use std::alloc::{AllocError, Global};
use texts::empty_text;

/// The value of a key, where an entry has one: of the answer to its variable, or of what its macro prints from there. What the key says of
/// names goes over what their nodes say, and that over what the layout says. Particles of the people of a variable go behind their family names, unless the layout says that
/// they do not.
///
/// # Errors
/// Out of memory.
pub fn key_value<'a, E: EntryLike>(
    walk: &Walk<'_, 'a>,
    entry: &'a E,
    key: &'a SortKey,
    layout: &ResolvedNameOptions<'a>,
) -> Result<Option<SortValue>, AllocError>
    ensures { IfOk result (λ v. option_map value_view v
        ≡ key_value (walk_context (E.answers entry.now) walk.now) (style_view walk.now.style.now)
        (resolved_options_view layout.now) (sort_key_view key.now)) }
{
    match &key.target {
        SortTarget::Variable(variable) => {
            value_of_variable(walk, entry, *variable, goes_behind(layout))
        }
        SortTarget::Macro(name) => match walk.style.macro_named(name.as_str()) {
            Some(nodes) => printed_value(walk, entry, &key_setting(key, layout), nodes),
            None => Ok(None),
        },
    }
}

/// Whether the particles of names go behind the family names.
fn goes_behind(options: &ResolvedNameOptions<'_>) -> bool
    ensures { result ≡ goes_behind (resolved_options_view options.now) }
{
    options.demote_non_dropping_particle.unwrap_or(true)
}

/// The value that the answer to a variable is sorted by, where there is one.
fn value_of_variable<'a, E: EntryLike>(
    walk: &Walk<'_, 'a>,
    entry: &'a E,
    variable: Variable,
    goes_behind: bool,
) -> Result<Option<SortValue>, AllocError>
    ensures { IfOk result (λ v. option_map value_view v ≡ value_of_variable
        (walk_context (E.answers entry.now) walk.now) goes_behind variable) }
{
    match variable {
        Variable::Name(variable) => {
            value_of_people(walk.context.alloc, entry, variable, goes_behind)
        }
        Variable::Date(variable) => value_of_date(walk, entry, variable),
        _ => answered_value(walk, entry, variable),
    }
}

/// The value of the people of a variable.
fn value_of_people<E: EntryLike>(
    alloc: Global,
    entry: &E,
    variable: NameVariable,
    goes_behind: bool,
) -> Result<Option<SortValue>, AllocError>
    ensures { IfOk result (λ v. option_map value_view v
        ≡ of_people goes_behind ((E.answers entry.now).people variable)) }
{
    let people = entry.resolve_name_variable(alloc, variable)?;
    people_value(alloc, &people, goes_behind)
}

/// The value of the date of a variable.
fn value_of_date<'a, E: EntryLike>(
    walk: &Walk<'_, 'a>,
    entry: &'a E,
    variable: DateVariable,
) -> Result<Option<SortValue>, AllocError>
    ensures { IfOk result (λ v. option_map value_view v ≡ option_map of_date
        (date_answer (walk_context (E.answers entry.now) walk.now) [] variable)) }
{
    match walk.context.date(entry, &[], variable) {
        Some(date) => Ok(Some(date_value(walk.context.alloc, &date)?)),
        None => Ok(None),
    }
}

/// The value of the answer to a text or number variable, or to that of the pages.
fn answered_value<'a, E: EntryLike>(
    walk: &Walk<'_, 'a>,
    entry: &'a E,
    variable: Variable,
) -> Result<Option<SortValue>, AllocError>
    ensures { IfOk result (λ v. option_map value_view v ≡ of_answer (answer_to
        (walk_context (E.answers entry.now) walk.now) [] Long variable)) }
{
    match walk
        .context
        .answer(entry, &[], LongShortForm::Long, variable)?
    {
        Some(answer) => value_of_answer(walk.context.alloc, &answer),
        None => Ok(None),
    }
}

/// The value of what nodes print.
fn printed_value<'a, E: EntryLike>(
    walk: &Walk<'_, 'a>,
    entry: &'a E,
    setting: &NodeSetting<'a>,
    nodes: &'a [Node],
) -> Result<Option<SortValue>, AllocError>
    ensures { IfOk result (λ v. option_map value_view v
        ≡ of_text (printed_text (walk_context (E.answers entry.now) walk.now)
        (setting_view setting.now) (opened_nodes (macros_of walk.now) (map node_view nodes.now)))) }
{
    let alloc = walk.context.alloc;
    let mut state = State::new(alloc);
    walk.push_nodes(entry, setting, nodes, &mut state)?;
    let mut text = empty_text(alloc);
    state.page.push_to(&mut text)?;
    text_value(alloc, text.as_str())
}

/// What is handed down to the nodes of a key.
fn key_setting<'a>(key: &SortKey, layout: &ResolvedNameOptions<'a>) -> NodeSetting<'a>
    ensures { setting_view result
        ≡ key_setting (resolved_options_view layout.now) (sort_key_view key.now) }
{
    NodeSetting {
        manner: plain_manner(),
        inside_quotes: false,
        delimiter: None,
        options: key_options(key, layout),
        in_substitute: false,
        form: SpecialForm::Whole,
        outer_names: None,
    }
}

/// What is said of names around the nodes of a key.
fn key_options<'a>(key: &SortKey, layout: &ResolvedNameOptions<'a>) -> NamesAround<'a>
    ensures { names_around_view result
        ≡ key_options (resolved_options_view layout.now) (sort_key_view key.now) }
{
    NamesAround {
        options: *layout,
        overriding: own_options(key),
    }
}

/// What a key says of names, whatever their nodes say.
fn own_options(key: &SortKey) -> OverridingOptions
    ensures { overriding_view result ≡ own_options (sort_key_view key.now) }
{
    OverridingOptions {
        et_al_min: key.names_min,
        et_al_use_first: key.names_use_first,
        et_al_use_last: key.names_use_last,
        name_as_sort_order: Some(NameAsSortOrder::All),
    }
}
