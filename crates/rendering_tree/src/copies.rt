//! Copies of trees.

ghost use Rattle.std.specs.Prelude.{◌≡◌, IfOk, map};
ghost use Rattle.std.specs.Option.{option_map};
ghost use Rattle.laws.specs.Text.{characters};
ghost use Rattle.literature_values.specs.PersonViews.{person_view};
ghost use Rattle.rendering_tree.specs.Views.{answered_view, child_view, element_view, meta_view, tree_view, formatted_view};

use crate::{Elem, ElemChild, ElemChildren, ElemMeta, Formatted};
use literature_values::Person;
use rendering_taxonomy::NameVariable;
use std::alloc::AllocError;

impl Clone for Formatted {
    ghost is_clone = { λ s t. formatted_view t ≡ formatted_view s };

    fn clone(&self) -> Result<Formatted, AllocError> {
        Ok(Formatted {
            text: self.text.clone()?,
            formatting: self.formatting,
        })
    }
}

impl Clone for ElemMeta {
    ghost is_clone = { λ m n. meta_view n ≡ meta_view m };

    fn clone(&self) -> Result<ElemMeta, AllocError> {
        match self {
            ElemMeta::Names(names) => Ok(ElemMeta::Names(copy_names(names)?)),
            ElemMeta::NameVariable(variable) => Ok(ElemMeta::NameVariable(*variable)),
            ElemMeta::Name(variable, index) => Ok(ElemMeta::Name(*variable, *index)),
            ElemMeta::Entry(index) => Ok(ElemMeta::Entry(*index)),
            ElemMeta::Date => Ok(ElemMeta::Date),
            ElemMeta::Text => Ok(ElemMeta::Text),
            ElemMeta::Number => Ok(ElemMeta::Number),
            ElemMeta::Label => Ok(ElemMeta::Label),
            ElemMeta::CitationNumber => Ok(ElemMeta::CitationNumber),
            ElemMeta::CitationLabel => Ok(ElemMeta::CitationLabel),
        }
    }
}

impl Clone for Elem {
    ghost is_clone = { λ e f. element_view f ≡ element_view e };

    fn clone(&self) -> Result<Elem, AllocError> {
        copy_element(self)
    }
}

impl Clone for ElemChildren {
    ghost is_clone = { λ a b. tree_view b ≡ tree_view a };

    fn clone(&self) -> Result<ElemChildren, AllocError> {
        copy_children(self)
    }
}

impl Clone for ElemChild {
    ghost is_clone = { λ x y. child_view y ≡ child_view x };

    fn clone(&self) -> Result<ElemChild, AllocError> {
        copy_child(self)
    }
}

#[cycle(copy)]
fn copy_element(elem: &Elem) -> Result<Elem, AllocError>
    ensures { IfOk result (λ e. element_view e ≡ element_view elem.now) }
{
    Ok(Elem {
        children: copy_children(&elem.children)?,
        display: elem.display,
        meta: copy_meta(&elem.meta)?,
    })
}

/// A copy of a list.
#[cycle(copy)]
fn copy_children(parts: &ElemChildren) -> Result<ElemChildren, AllocError>
    ensures { IfOk result (λ t. tree_view t ≡ tree_view parts.now) }
{
    let mut copies = Vec::with_capacity(*parts.0.allocator(), parts.0.len())?;
    for part in &parts.0 {
        copies.push(copy_child(part)?)?;
    }
    Ok(ElemChildren(copies))
}

#[cycle(copy)]
fn copy_child(part: &ElemChild) -> Result<ElemChild, AllocError>
    ensures { IfOk result (λ x. child_view x ≡ child_view part.now) }
{
    match part {
        ElemChild::Text(text) => Ok(ElemChild::Text(text.clone()?)),
        ElemChild::Elem(elem) => Ok(ElemChild::Elem(copy_element(elem)?)),
        ElemChild::Markup(formula) => Ok(ElemChild::Markup(formula.clone()?)),
        ElemChild::Link { text, url } => Ok(ElemChild::Link {
            text: text.clone()?,
            url: url.clone()?,
        }),
        ElemChild::Transparent { cite_idx, format } => Ok(ElemChild::Transparent {
            cite_idx: *cite_idx,
            format: *format,
        }),
    }
}

/// A copy of what an element stands for.
fn copy_meta(meta: &Option<ElemMeta>) -> Result<Option<ElemMeta>, AllocError>
    ensures { IfOk result (λ m. option_map meta_view m ≡ option_map meta_view meta.now) }
{
    match meta {
        Some(meta) => Ok(Some(meta.clone()?)),
        None => Ok(None),
    }
}

/// A copy of people with their variables.
fn copy_names(
    names: &Vec<(Vec<Person>, NameVariable)>,
) -> Result<Vec<(Vec<Person>, NameVariable)>, AllocError>
    ensures { IfOk result (λ v. map answered_view v.items ≡ map answered_view names.now.items) }
{
    let mut copies = Vec::with_capacity(*names.allocator(), names.len())?;
    for (people, variable) in names {
        copies.push((copy_people(people)?, *variable))?;
    }
    Ok(copies)
}

fn copy_people(people: &Vec<Person>) -> Result<Vec<Person>, AllocError>
    ensures { IfOk result (λ v. map person_view v.items ≡ map person_view people.now.items) }
{
    let mut copies = Vec::with_capacity(*people.allocator(), people.len())?;
    for one in people {
        copies.push(one.clone()?)?;
    }
    Ok(copies)
}
