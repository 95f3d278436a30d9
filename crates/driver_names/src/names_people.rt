//! People of cites.

ghost use Rattle.std.specs.Prelude.{◌≡◌, ◌++◌, map, IfOk, OnOk};
ghost use Rattle.std.specs.List.{flat_map};
ghost use Rattle.std.specs.Option.{option_map};
ghost use Rattle.laws.specs.Text.{characters};
ghost use Rattle.literature_values.specs.PersonViews.{person_view};
ghost use Rattle.rendering_tree.specs.Trees.{before, nothing};
ghost use Rattle.rendering_tree.specs.Views.{answered_view, child_view, meta_view, tree_view};
ghost use Rattle.driver_names.specs.Names.{initials, people_in, people_of_meta};

use literature_values::Person;
use rendering_taxonomy::NameVariable;
use rendering_tree::{ElemChild, ElemChildren, ElemMeta};
use std::alloc::{AllocError, Global};
use std::marker::Model;
use texts::empty_text;

/// A person of a cite, with the initials of the given name.
#[derive(Drop)]
pub(crate) struct CitedPerson<'a> {
    pub(crate) person: &'a Person,
    pub(crate) initials: String,
}

impl<'a> Model for CitedPerson<'a> {
    ghost use Rattle.std.specs.Prelude.{◌≡◌};
    ghost use Rattle.laws.specs.Text.{characters};
    ghost use Rattle.literature_values.specs.PersonViews.{Named, person_view};
    ghost use Rattle.driver_names.specs.Names.{initials as initials_view};

    ghost Value = { Named };

    ghost view = { λ p. person_view p.person.now };

    ghost invariant = { λ p. characters p.initials ≡ initials_view (person_view p.person.now) };
}

/// The people of all names elements of a tree, printed or not.
pub(crate) fn people_in<'a>(
    alloc: Global,
    tree: &'a ElemChildren,
) -> Result<Vec<CitedPerson<'a>>, AllocError>
    ensures { IfOk result (λ people. people.items ≡ people_in (tree_view tree.now)) }
{
    let mut people = Vec::new(alloc);
    push_people(alloc, &mut people, tree)?;
    Ok(people)
}

/// Appends the people of all names elements of a tree.
#[cycle(people)]
fn push_people<'a>(
    alloc: Global,
    people: &mut Vec<CitedPerson<'a>>,
    tree: &'a ElemChildren,
) -> Result<(), AllocError>
    ensures { OnOk result (people.new.items ≡ people.old.items ++ people_in (tree_view tree.now)) }
{
    for part in &tree.0 {
        push_people_of(alloc, people, part)?;
    }
    Ok(())
}

/// Appends the people of all names elements of a part of a tree.
#[cycle(people)]
fn push_people_of<'a>(
    alloc: Global,
    people: &mut Vec<CitedPerson<'a>>,
    part: &'a ElemChild,
) -> Result<(), AllocError>
    ensures { OnOk result (people.new.items
        ≡ people.old.items ++ people_in (before (child_view part.now) nothing)) }
{
    if let ElemChild::Elem(elem) = part {
        push_named(alloc, people, &elem.meta)?;
        push_people(alloc, people, &elem.children)?;
    }
    Ok(())
}

/// Appends the people of an element, where it is a names element.
fn push_named<'a>(
    alloc: Global,
    people: &mut Vec<CitedPerson<'a>>,
    meta: &'a Option<ElemMeta>,
) -> Result<(), AllocError>
    ensures { OnOk result (people.new.items
        ≡ people.old.items ++ people_of_meta (option_map meta_view meta.now)) }
{
    match meta {
        Some(ElemMeta::Names(names)) => push_answered(alloc, people, names.as_slice()),
        _ => Ok(()),
    }
}

/// Appends the people of several variables.
fn push_answered<'a>(
    alloc: Global,
    people: &mut Vec<CitedPerson<'a>>,
    names: &'a [(Vec<Person>, NameVariable)],
) -> Result<(), AllocError>
    ensures { OnOk result (people.new.items
        ≡ people.old.items ++ flat_map (λ a. a.0) (map answered_view names.now)) }
{
    for answered in names {
        push_each(alloc, people, answered.0.as_slice())?;
    }
    Ok(())
}

fn push_each<'a>(
    alloc: Global,
    people: &mut Vec<CitedPerson<'a>>,
    more: &'a [Person],
) -> Result<(), AllocError>
    ensures { OnOk result (people.new.items ≡ people.old.items ++ map person_view more.now) }
{
    for person in more {
        people.push(cited(alloc, person)?)?;
    }
    Ok(())
}

/// A person with initials.
fn cited<'a>(alloc: Global, person: &'a Person) -> Result<CitedPerson<'a>, AllocError>
    ensures { IfOk result (λ p. p ≡ person_view person.now) }
{
    let initials = initials(alloc, person)?;
    Ok(CitedPerson { person, initials })
}

/// The initials of a given name; empty where there is none.
fn initials(alloc: Global, person: &Person) -> Result<String, AllocError>
    ensures { IfOk result (λ s. characters s ≡ initials (person_view person.now)) }
{
    let mut out = empty_text(alloc);
    match person.initials(&mut out, None, false) {
        Ok(()) => Ok(out),
        Err(_) => Err(AllocError),
    }
}
