//! What names print, and the people who are printed.

ghost use Rattle.std.specs.Prelude.{◌≡◌, ◌++◌, [], map, IfOk, OnOk, string_bytes};
ghost use Rattle.std.specs.Option.{option_map};
ghost use Rattle.laws.specs.Text.{characters, text};
ghost use Rattle.rendering_tree.specs.Views.{answered_view, child_view, element_view, meta_view, tree_view};
ghost use Rattle.rendering_tree.specs.Writing.{plain_text};
ghost use Rattle.driver_blocks.specs.Blocks.{names_text};
ghost use Rattle.driver_blocks.specs.Shown.{people_inside, shown_child, shown_people};

use crate::people::push_shown_name;
use literature_values::Person;
use rendering_taxonomy::NameVariable;
use rendering_tree::{Elem, ElemChild, ElemChildren, ElemMeta};
use std::alloc::{AllocError, Global};

/// What a names element prints, and after it the names of the people who are printed.
pub(crate) fn names_text(alloc: Global, names: &Elem) -> Result<String, AllocError>
    ensures { IfOk result (λ s. string_bytes s ≡ names_text (element_view names.now)) }
{
    let mut key = printed_text(alloc, names)?;
    push_shown(&mut key, people_inside(&[], &names.meta), &names.children)?;
    Ok(key)
}

/// What a names element prints.
fn printed_text(alloc: Global, names: &Elem) -> Result<String, AllocError>
    ensures { IfOk result (λ s. string_bytes s ≡ text (plain_text (tree_view names.now.children))) }
{
    names.children.to_string(alloc)
}

/// Appends the names of the people who are printed in children.
#[cycle(shown)]
fn push_shown(
    text: &mut String,
    people: &[(Vec<Person>, NameVariable)],
    parts: &ElemChildren,
) -> Result<(), AllocError>
    ensures { OnOk result (characters text.new ≡ characters text.old
        ++ shown_people (map answered_view people.now) (tree_view parts.now)) }
{
    for part in &parts.0 {
        push_shown_in(text, people, part)?;
    }
    Ok(())
}

/// Appends the names of the people who are printed in a child.
#[cycle(shown)]
fn push_shown_in(
    text: &mut String,
    people: &[(Vec<Person>, NameVariable)],
    part: &ElemChild,
) -> Result<(), AllocError>
    ensures { OnOk result (characters text.new ≡ characters text.old
        ++ shown_child (map answered_view people.now) (child_view part.now)) }
{
    match part {
        ElemChild::Elem(elem) => {
            push_shown_name(text, people, &elem.meta)?;
            push_shown(text, people_inside(people, &elem.meta), &elem.children)
        }
        _ => Ok(()),
    }
}

/// The people whom the names in an element count: its own, where it is a names element, else those of what is around it.
fn people_inside<'p>(
    people: &'p [(Vec<Person>, NameVariable)],
    meta: &'p Option<ElemMeta>,
) -> &'p [(Vec<Person>, NameVariable)]
    ensures { map answered_view result.now
        ≡ people_inside (map answered_view people.now) (option_map meta_view meta.now) }
{
    match meta {
        Some(ElemMeta::Names(own)) => own,
        _ => people,
    }
}
