//! The people of an entry.

ghost use Rattle.std.specs.Prelude.{◌≡◌, IfOk};
ghost use Rattle.std.specs.Option.{option_map};
ghost use Rattle.rendering_style.specs.Views.{options_view, name_look_view, names_node_view, node_view};
ghost use Rattle.cite_styles.specs.Nodes.{name_with, people_of, editors, authors_by, authors, short_authors};

use rendering_style::{Look, Name, NameOptions, Names, Node};
use rendering_taxonomy::{FormattingChanges, NameAnd, NameForm, NameVariable};
use std::alloc::{AllocError, Global};
use texts::empty_text;

/// Single names with these options.
fn name_with(alloc: Global, options: NameOptions) -> Name
    ensures { name_look_view result ≡ name_with (options_view options) }
{
    Name {
        options,
        formatting: FormattingChanges::default(),
        prefix: empty_text(alloc),
        suffix: empty_text(alloc),
        given: None,
        family: None,
    }
}

fn people_of(alloc: Global, variable: NameVariable, name: Option<Name>) -> Result<Names, AllocError>
    ensures { IfOk result (λ n. names_node_view n
        ≡ people_of variable (option_map name_look_view name)) }
{
    let variables = vec![in alloc; variable]?;
    Ok(Names {
        variables,
        name,
        et_al: None,
        label: None,
        label_is_first: false,
        merges_editor_translator: false,
        delimiter: None,
        look: Look::plain(alloc),
    })
}

fn editors(alloc: Global) -> Result<Node, AllocError>
    ensures { IfOk result (λ n. node_view n ≡ editors) }
{
    let names = people_of(alloc, NameVariable::Editor, None)?;
    Ok(Node::Names(names, Vec::new(alloc)))
}

/// The authors with options for their names, or else the editors with the same ones.
fn authors_by(alloc: Global, options: NameOptions) -> Result<Node, AllocError>
    ensures { IfOk result (λ n. node_view n ≡ authors_by (options_view options)) }
{
    let name = name_with(alloc, options);
    let names = people_of(alloc, NameVariable::Author, Some(name))?;
    let substitute = vec![in alloc; editors(alloc)?]?;
    Ok(Node::Names(names, substitute))
}

/// The authors with their whole names.
#[tactic(auto, unfolding(crate::specs::Nodes::authors))]
pub(crate) fn authors(alloc: Global) -> Result<Node, AllocError>
    ensures { IfOk result (λ n. node_view n ≡ authors) }
{
    let options = NameOptions {
        and: Some(NameAnd::Text),
        form: Some(NameForm::Long),
        ..NameOptions::default()
    };
    authors_by(alloc, options)
}

/// The family names of the authors, or of four and more that of the first.
#[tactic(auto, unfolding(crate::specs::Nodes::short_authors))]
pub(crate) fn short_authors(alloc: Global) -> Result<Node, AllocError>
    ensures { IfOk result (λ n. node_view n ≡ short_authors) }
{
    let options = NameOptions {
        and: Some(NameAnd::Text),
        et_al_min: Some(4),
        et_al_use_first: Some(1),
        form: Some(NameForm::Short),
        ..NameOptions::default()
    };
    authors_by(alloc, options)
}
