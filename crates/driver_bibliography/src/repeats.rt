//! Which names of an item repeat those of an item before it.

ghost use Rattle.std.specs.Prelude.{◌≡◌, ◌++◌, ◌∷◌, None, IfOk, OnOk, filter, map};
ghost use Rattle.std.specs.Cmp.Lexicographic.{pointwise};
ghost use Rattle.std.specs.List.{common_prefix_len};
ghost use Rattle.std.specs.Option.{option_or};
ghost use Rattle.rendering_tree.specs.Trees.{elements, elements_in};
ghost use Rattle.rendering_tree.specs.Views.{child_view, element_view, tree_view};
ghost use Rattle.driver_bibliography.specs.Substitution.{all_if, is_same_name, is_some_name, name_list, names_if, repeated, repeated_by, repeated_of};
ghost use Rattle.driver_bibliography.specs.Views.{borrowed_elements_view, is_single, lent_element_view, printed_view, repeated_view, repeats_after};

use crate::fields::PrintedItem;
use rendering_taxonomy::SubsequentAuthorSubstituteRule;
use rendering_tree::{
    Elem, ElemChild, ElemChildren, ElemMeta, are_equal_elements, are_equal_trees,
};
use std::alloc::{AllocError, Global};

/// What a text stands for of an item's names.
#[derive(Clone, Copy)]
pub(crate) enum Repetition {
    Nothing,
    /// All names as one, with what stands round them.
    All,
    /// Each list of single names.
    Lists,
    /// So many single names, from the first on.
    First(usize),
}

/// What of each item's names repeats those of the last item before it that has some. `alone` is whether a text stands for names alone.
pub(crate) fn repeats(
    alloc: Global,
    alone: bool,
    rule: SubsequentAuthorSubstituteRule,
    printed: &[PrintedItem],
) -> Result<Vec<Repetition>, AllocError>
    ensures { IfOk result (λ v. map repeated_view v.items
        ≡ repeats_after alone rule None (map printed_view printed.now)) }
{
    let mut repeats = Vec::with_capacity(alloc, printed.len())?;
    let mut last = None;
    for item in printed {
        let names = item.names.as_ref();
        repeats.push(repeated(alloc, alone, rule, last, names)?)?;
        last = latest(names, last);
    }
    Ok(repeats)
}

/// The names of an item, or else those before it.
fn latest<'a>(names: Option<&'a Elem>, last: Option<&'a Elem>) -> Option<&'a Elem>
    ensures { lent_element_view result
        ≡ option_or (lent_element_view names.entry) (lent_element_view last.entry) }
{
    names.or(last)
}

/// What of names repeats those before them, where there are both.
fn repeated(
    alloc: Global,
    alone: bool,
    rule: SubsequentAuthorSubstituteRule,
    last: Option<&Elem>,
    names: Option<&Elem>,
) -> Result<Repetition, AllocError>
    ensures { IfOk result (λ r. repeated_view r
        ≡ repeated alone rule (lent_element_view last.entry) (lent_element_view names.entry)) }
{
    match (last, names) {
        (Some(last), Some(names)) => repeated_of(alloc, alone, rule, names, last),
        _ => Ok(Repetition::Nothing),
    }
}

/// What of names repeats those before them. Without single names it is all or nothing.
fn repeated_of(
    alloc: Global,
    alone: bool,
    rule: SubsequentAuthorSubstituteRule,
    names: &Elem,
    last: &Elem,
) -> Result<Repetition, AllocError>
    ensures { IfOk result (λ r. repeated_view r ≡ repeated_of alone rule (element_view names.now)
        (element_view last.now) (name_list (element_view names.now))) }
{
    let singles = single_names(alloc, names)?;
    if singles.is_empty() {
        return Ok(all_if(are_equal_elements(names, last)));
    }
    let last_singles = single_names(alloc, last)?;
    Ok(repeated_by(alone, rule, &singles, &last_singles))
}

/// That all names repeat, where they are the same.
fn all_if(are_same: bool) -> Repetition
    ensures { repeated_view result ≡ all_if are_same }
{
    if are_same {
        Repetition::All
    } else {
        Repetition::Nothing
    }
}

/// That all names repeat, where they are the same: as one, or, where a text stands for names alone, each list of them.
fn names_if(alone: bool, are_same: bool) -> Repetition
    ensures { repeated_view result ≡ names_if alone are_same }
{
    if alone && are_same {
        return Repetition::Lists;
    }
    all_if(are_same)
}

/// What of single names repeats those before them, by the rule.
fn repeated_by(
    alone: bool,
    rule: SubsequentAuthorSubstituteRule,
    names: &[&Elem],
    last: &[&Elem],
) -> Repetition
    ensures { repeated_view result ≡ repeated_by alone rule
        (borrowed_elements_view names.now) (borrowed_elements_view last.now) }
{
    match rule {
        SubsequentAuthorSubstituteRule::CompleteAll => {
            names_if(alone, are_same(alone, names, last))
        }
        SubsequentAuthorSubstituteRule::CompleteEach => {
            if are_same(alone, names, last) {
                Repetition::First(names.len())
            } else {
                Repetition::Nothing
            }
        }
        SubsequentAuthorSubstituteRule::PartialEach => {
            Repetition::First(common_len(alone, names, last))
        }
        SubsequentAuthorSubstituteRule::PartialFirst => {
            Repetition::First(common_len(alone, names, last).min(1))
        }
    }
}

fn are_same(alone: bool, names: &[&Elem], last: &[&Elem]) -> bool
    ensures { result ≡ pointwise (is_same_name alone) (borrowed_elements_view names.now)
        (borrowed_elements_view last.now) }
{
    names.len() == last.len() && common_len(alone, names, last) == names.len()
}

/// How many names are the same, from the first on.
fn common_len(alone: bool, names: &[&Elem], last: &[&Elem]) -> usize
    ensures { result ≡ common_prefix_len (is_same_name alone)
        (borrowed_elements_view names.now) (borrowed_elements_view last.now) }
{
    let mut count = 0;
    while count < names.len() && count < last.len() {
        if !is_same_name(alone, names[count], last[count]) {
            return count;
        }
        count += 1;
    }
    count
}

/// Whether two single names are the same: whether their elements are, or, where a text stands for names alone, what they print.
fn is_same_name(alone: bool, name: &Elem, other: &Elem) -> bool
    ensures { result ≡ is_same_name alone (element_view name.now) (element_view other.now) }
{
    if alone {
        are_equal_trees(&name.children, &other.children)
    } else {
        are_equal_elements(name, other)
    }
}

/// The single names in an element.
fn single_names(alloc: Global, names: &Elem) -> Result<Vec<&Elem>, AllocError>
    ensures { IfOk result (λ v. borrowed_elements_view v.items
        ≡ name_list (element_view names.now)) }
{
    let mut singles = Vec::new(alloc);
    push_names(&names.children, &mut singles)?;
    Ok(singles)
}

/// Appends the single names in a list.
#[cycle(names)]
fn push_names<'a>(parts: &'a ElemChildren, names: &mut Vec<&'a Elem>) -> Result<(), AllocError>
    ensures { OnOk result (borrowed_elements_view names.new.items
        ≡ borrowed_elements_view names.old.items
        ++ filter is_single (elements (tree_view parts.now))) }
{
    for part in &parts.0 {
        push_names_in(part, names)?;
    }
    Ok(())
}

/// Appends the single names in a child.
#[cycle(names)]
fn push_names_in<'a>(part: &'a ElemChild, names: &mut Vec<&'a Elem>) -> Result<(), AllocError>
    ensures { OnOk result (borrowed_elements_view names.new.items
        ≡ borrowed_elements_view names.old.items
        ++ filter is_single (elements_in (child_view part.now))) }
{
    match part {
        ElemChild::Elem(elem) => push_name(elem, names),
        _ => Ok(()),
    }
}

/// Appends an element that stands for a single name, and those in it.
#[cycle(names)]
fn push_name<'a>(elem: &'a Elem, names: &mut Vec<&'a Elem>) -> Result<(), AllocError>
    ensures { OnOk result (borrowed_elements_view names.new.items
        ≡ borrowed_elements_view names.old.items
        ++ filter is_single (element_view elem.now ∷ elements (tree_view elem.now.children))) }
{
    if is_name(elem) {
        names.push(elem)?;
    }
    push_names(&elem.children, names)
}

/// Whether an element stands for a single name.
pub(crate) fn is_name(elem: &Elem) -> bool
    ensures { result ≡ is_some_name (element_view elem.now).meta }
{
    matches!(elem.meta, Some(ElemMeta::Name(..)))
}
