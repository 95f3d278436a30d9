//! What is handed down to the nodes inside a node.

ghost use Rattle.std.specs.Prelude.{◌≡◌, if◌then◌else◌, not, None};
ghost use Rattle.std.specs.Option.{option_map};
ghost use Rattle.rendering_leaves.specs.Views.{form_view, setting_view};
ghost use Rattle.rendering_names.specs.Views.{names_parts_view};
ghost use Rattle.rendering_nodes.specs.Admission.{substitute_form};
ghost use Rattle.rendering_nodes.specs.Content as content;
ghost use Rattle.rendering_style.specs.Nodes.{Nodes};
ghost use Rattle.rendering_style.specs.Views.{group_node_view, names_node_view, text_look_view};

use rendering_leaves::{NodeSetting, SpecialForm, look_manner, text_manner};
use rendering_names::NamesParts;
use rendering_style::{Group, Names, TextLook};
use texts::borrowed_text;

/// What is handed down inside an opened macro: no delimiter and no names around, and inner quotes where the macro stands in outer
/// ones, or outer quotes where it stands in inner ones.
pub(crate) fn inside_macro<'a>(setting: &NodeSetting<'a>, look: &TextLook) -> NodeSetting<'a>
    ensures { setting_view result
        ≡ content.inside_macro (setting_view setting.now) (text_look_view look.now) }
{
    NodeSetting {
        manner: text_manner(setting.manner, look),
        delimiter: None,
        inside_quotes: quotes_are_inner(look.quotes, setting.inside_quotes),
        outer_names: None,
        ..*setting
    }
}

/// Whether quotes are inner ones inside a text, which may stand in quotes.
fn quotes_are_inner(quotes: bool, inside_quotes: bool) -> bool
    ensures { result ≡ (if quotes then not inside_quotes else inside_quotes) }
{
    if quotes {
        !inside_quotes
    } else {
        inside_quotes
    }
}

pub(crate) fn inside_group<'a>(setting: &NodeSetting<'a>, group: &'a Group) -> NodeSetting<'a>
    ensures { setting_view result
        ≡ content.inside_group (setting_view setting.now) (group_node_view group.now) }
{
    NodeSetting {
        manner: look_manner(setting.manner, &group.look),
        delimiter: borrowed_text(&group.delimiter),
        ..*setting
    }
}

/// What a names node says, without its affixes where names stand alone.
pub(crate) fn names_in<'a>(setting: &NodeSetting<'a>, names: &NamesParts<'a>) -> NamesParts<'a>
    ensures { names_parts_view result
        ≡ content.names_in (setting_view setting.now).form (names_parts_view names.now) }
{
    match setting.form {
        SpecialForm::AuthorsAlone(_) => names.without_affixes(),
        _ => *names,
    }
}

/// What is handed down inside names whose substitute is printed, in this form.
pub(crate) fn inside_names<'a>(
    setting: &NodeSetting<'a>,
    names: &NamesParts<'a>,
    form: SpecialForm,
) -> NodeSetting<'a>
    ensures { (xs : Nodes)
        → form_view form ≡ substitute_form (setting_view setting.now).form
        (names_parts_view names.now).variables xs
        → setting_view result
        ≡ content.inside_names (setting_view setting.now) (names_parts_view names.now) xs }
{
    NodeSetting {
        manner: look_manner(setting.manner, names.look),
        in_substitute: true,
        form,
        outer_names: Some(*names),
        ..*setting
    }
}

/// What a names node says of names, completed by the node for which it is a substitute, if it is one: directly, or in a published
/// style in groups and branches too.
pub(crate) fn taken_around<'a>(
    is_published: bool,
    outer: Option<&NamesParts<'a>>,
    setting: &NodeSetting<'a>,
    names: &'a Names,
) -> NamesParts<'a>
    ensures { names_parts_view result ≡ content.taken (content.substituted_names is_published
        (option_map (λ n. names_parts_view n.now) outer.entry) (setting_view setting.now))
        (names_node_view names.now) }
{
    match outer {
        Some(outer) => taken(Some(outer), names),
        None => taken_inside(is_published, setting, names),
    }
}

/// What a names node says of names that is no substitute itself, completed in a published style by the names in whose substitute it
/// stands.
fn taken_inside<'a>(
    is_published: bool,
    setting: &NodeSetting<'a>,
    names: &'a Names,
) -> NamesParts<'a>
    ensures { names_parts_view result ≡ content.taken
        (if is_published then (setting_view setting.now).outer_names else None)
        (names_node_view names.now) }
{
    match (is_published, setting.outer_names) {
        (true, Some(outer)) => taken(Some(&outer), names),
        (true, None) | (false, _) => taken(None, names),
    }
}

/// What a names node says of names, completed by the node for which it is a substitute, if it is one.
fn taken<'a>(outer: Option<&NamesParts<'a>>, names: &'a Names) -> NamesParts<'a>
    ensures { names_parts_view result ≡ content.taken
        (option_map (λ n. names_parts_view n.now) outer.entry) (names_node_view names.now) }
{
    let own = NamesParts::new(names);
    match outer {
        Some(outer) => own.completed(outer),
        None => own,
    }
}
