//! What a style names of entries.

ghost use Rattle.std.specs.Prelude.{◌≡◌, suc, [], map, IfOk, OnOk, if◌then◌else◌};
ghost use Rattle.std.specs.Option.{option_map};
ghost use Rattle.rendering_nodes.specs.Named as named;
ghost use Rattle.rendering_nodes.specs.Named.{named_in, named_in_branches, named_in_test, named_in_tests, variable_named};
ghost use Rattle.rendering_style.specs.Nodes.{Nodes, TextLook};
ghost use Rattle.rendering_style.specs.Opening.{each_branch, each_node, open_node};
ghost use Rattle.rendering_style.specs.StyleViews.{style_view};
ghost use Rattle.rendering_style.specs.Views.{bibliography_layout_view, branch_view, branches_of, layout_view, node_view, nodes_view, test_view, text_node_view};
ghost use Rattle.rendering.specs.Alike.{named_in_bibliography, style_named};
ghost use Rattle.rendering.specs.Purposes.{is_published, layout_nodes};
ghost use Rattle.rendering_alike.specs.Naming.{NameTheSame, kind_named, names_view, people_named, with_named};

use rendering::is_published;
use rendering_style::{Bibliography, ChooseBranch, ChooseTest, Layout, Node, Style, TextTarget};
use rendering_taxonomy::{DateVariable, Kind, NameVariable, StandardVariable, Variable};
use std::alloc::{AllocError, Global};

/// The most levels that nodes may have, macros opened. Nothing is printed of what lies deeper.
const LIMIT: usize = 200;

/// The variables and kinds that a style names, each once, and the variables of which it counts how they were written.
#[derive(Debug, Drop)]
pub struct StyleNames {
    pub variables: Vec<Variable>,
    pub kinds: Vec<Kind>,
    pub written: Vec<Variable>,
}

/// What stands in the layouts of a style and in the macros that they reach, and what every style names. Each node is visited once as it is
/// printed, macros opened.
///
/// # Errors
/// Out of memory.
pub fn style_names(alloc: Global, style: &Style) -> Result<StyleNames, AllocError>
    ensures { IfOk result (λ n. NameTheSame (names_view n) (style_named (style_view style.now))) }
{
    let mut found = always_named(alloc)?;
    let parts = style.parts();
    add_layout(style, &parts.citation.layout, &mut found)?;
    add_bibliography(style, &parts.bibliography, &mut found)?;
    found.written = written_variables(alloc, style, &found.variables)?;
    Ok(found)
}

/// Of which variables it counts how they were written: in a published style of all that are named.
fn written_variables(
    alloc: Global,
    style: &Style,
    variables: &[Variable],
) -> Result<Vec<Variable>, AllocError>
    ensures { IfOk result (λ vs. vs.items
        ≡ if is_published (style_view style.now) then variables.now else []) }
{
    let mut written = Vec::new(alloc);
    if !is_published(style) {
        return Ok(written);
    }
    written.extend_from_slice(variables)?;
    Ok(written)
}

/// What every style names.
fn always_named(alloc: Global) -> Result<StyleNames, AllocError>
    ensures { IfOk result (λ n. names_view n ≡ named.always_named) }
{
    let variables = Vec::from_array(
        alloc,
        [
            Variable::Name(NameVariable::Author),
            Variable::Name(NameVariable::Editor),
            Variable::Date(DateVariable::Issued),
            Variable::Date(DateVariable::Accessed),
            Variable::Date(DateVariable::AvailableDate),
            Variable::Date(DateVariable::EventDate),
            Variable::Date(DateVariable::Submitted),
            Variable::Date(DateVariable::OriginalDate),
            Variable::Standard(StandardVariable::CitationLabel),
        ],
    )?;
    let kinds = Vec::new(alloc);
    let written = Vec::new(alloc);
    Ok(StyleNames {
        variables,
        kinds,
        written,
    })
}

/// Adds what the layout of the bibliography names, where there is one.
fn add_bibliography(
    style: &Style,
    bibliography: &Option<Bibliography>,
    found: &mut StyleNames,
) -> Result<(), AllocError>
    ensures { OnOk result (names_view found.new ≡ with_named (names_view found.old)
        (named_in_bibliography (style_view style.now)
        (option_map bibliography_layout_view bibliography.now))) }
{
    match bibliography {
        Some(bibliography) => add_layout(style, &bibliography.layout, found),
        None => Ok(()),
    }
}

/// Adds what a layout names.
fn add_layout(style: &Style, layout: &Layout, found: &mut StyleNames) -> Result<(), AllocError>
    ensures { OnOk result (names_view found.new ≡ with_named (names_view found.old)
        (named.named (layout_nodes (style_view style.now) (layout_view layout.now)))) }
{
    add_nodes(style, LIMIT, &layout.nodes, found)
}

/// Adds what nodes name, macros opened down to so many levels of nodes.
#[cycle(naming)]
fn add_nodes(
    style: &Style,
    levels: usize,
    nodes: &[Node],
    found: &mut StyleNames,
) -> Result<(), AllocError>
    ensures { OnOk result (names_view found.new ≡ with_named (names_view found.old)
        (named.named (each_node (open_node levels (style_view style.now).macros)
        (nodes_view nodes.now)))) }
{
    for node in nodes {
        add_node(style, levels, node, found)?;
    }
    Ok(())
}

/// Adds what a node names.
#[cycle(naming)]
fn add_node(
    style: &Style,
    levels: usize,
    node: &Node,
    found: &mut StyleNames,
) -> Result<(), AllocError>
    ensures { OnOk result (names_view found.new ≡ with_named (names_view found.old)
        (named_in (open_node levels (style_view style.now).macros (node_view node.now)))) }
{
    if levels == 0 {
        return Ok(());
    }
    match node {
        Node::Text(text) => add_text(style, levels - 1, &text.target, found),
        Node::Number(number) => add_variable(number.variable, found),
        Node::Label(label) => add_variable(label.variable, found),
        Node::Date(date) => add_variable(Variable::Date(date.variable), found),
        Node::Names(names, substitute) => {
            add_people(&names.variables, found)?;
            add_nodes(style, levels - 1, substitute, found)
        }
        Node::Choose(branches, otherwise) => {
            add_branches(style, levels - 1, branches, found)?;
            add_nodes(style, levels - 1, otherwise, found)
        }
        Node::Group(_, children) => add_nodes(style, levels - 1, children, found),
    }
}

/// Adds what a text that prints this names.
#[cycle(naming)]
fn add_text(
    style: &Style,
    levels: usize,
    target: &TextTarget,
    found: &mut StyleNames,
) -> Result<(), AllocError>
    ensures { OnOk result ((look : TextLook) → names_view found.new ≡ with_named
        (names_view found.old) (named_in (open_node (suc levels) (style_view style.now).macros
        (text_node_view target.now look)))) }
{
    match target {
        TextTarget::Variable(variable, _) => add_variable(*variable, found),
        TextTarget::Macro(name) => match style.macro_named(name.as_str()) {
            Some(nodes) => add_nodes(style, levels, nodes, found),
            None => Ok(()),
        },
        TextTarget::Term(_, _, _) | TextTarget::Value(_) => Ok(()),
    }
}

/// Adds what branches name, those that are not taken too.
#[cycle(naming)]
fn add_branches(
    style: &Style,
    levels: usize,
    branches: &[ChooseBranch],
    found: &mut StyleNames,
) -> Result<(), AllocError>
    ensures { OnOk result ((xs : Nodes) → with_named (names_view found.new)
        (named.named (each_node (open_node levels (style_view style.now).macros) xs))
        ≡ with_named (names_view found.old)
        (named_in_branches (each_branch (open_node levels (style_view style.now).macros)
        (branches_of (map branch_view branches.now) xs)))) }
{
    for branch in branches {
        add_branch(style, levels, branch, found)?;
    }
    Ok(())
}

/// Adds what a branch names.
#[cycle(naming)]
fn add_branch(
    style: &Style,
    levels: usize,
    branch: &ChooseBranch,
    found: &mut StyleNames,
) -> Result<(), AllocError>
    ensures { OnOk result (names_view found.new
        ≡ with_named (with_named (names_view found.old)
        (named_in_tests (branch_view branch.now).0.tests))
        (named.named (each_node (open_node levels (style_view style.now).macros)
        (branch_view branch.now).1))) }
{
    add_tests(&branch.condition.tests, found)?;
    add_nodes(style, levels, &branch.children, found)
}

/// Adds what tests name.
fn add_tests(tests: &[ChooseTest], found: &mut StyleNames) -> Result<(), AllocError>
    ensures { OnOk result (names_view found.new ≡ with_named (names_view found.old)
        (named_in_tests (map test_view tests.now))) }
{
    for test in tests {
        add_test(*test, found)?;
    }
    Ok(())
}

/// Adds what a test names.
fn add_test(test: ChooseTest, found: &mut StyleNames) -> Result<(), AllocError>
    ensures { OnOk result (names_view found.new
        ≡ with_named (names_view found.old) (named_in_test (test_view test))) }
{
    match test {
        ChooseTest::Type(kind) => add_kind(kind, found),
        ChooseTest::Variable(variable) | ChooseTest::IsNumeric(variable) => {
            add_variable(variable, found)
        }
        ChooseTest::IsUncertainDate(variable) => add_variable(Variable::Date(variable), found),
        ChooseTest::Locator(_) | ChooseTest::Position(_) | ChooseTest::Disambiguate => Ok(()),
    }
}

/// Adds the people of variables.
fn add_people(people: &[NameVariable], found: &mut StyleNames) -> Result<(), AllocError>
    ensures { OnOk result (names_view found.new
        ≡ with_named (names_view found.old) (people_named people.now)) }
{
    for variable in people {
        add_variable(Variable::Name(*variable), found)?;
    }
    Ok(())
}

/// Adds a variable, unless it is there.
fn add_variable(variable: Variable, found: &mut StyleNames) -> Result<(), AllocError>
    ensures { OnOk result (names_view found.new
        ≡ with_named (names_view found.old) (variable_named variable)) }
{
    if found.variables.contains(&variable) {
        return Ok(());
    }
    found.variables.push(variable)?;
    Ok(())
}

/// Adds a kind, unless it is there.
fn add_kind(kind: Kind, found: &mut StyleNames) -> Result<(), AllocError>
    ensures { OnOk result (names_view found.new
        ≡ with_named (names_view found.old) (kind_named kind)) }
{
    if found.kinds.contains(&kind) {
        return Ok(());
    }
    found.kinds.push(kind)?;
    Ok(())
}
