//! The first fault of a style or of a locale.

ghost use Rattle.std.specs.Prelude.{◌≡◌, ℕ, List, false, IfOk, OnOk};
ghost use Rattle.std.specs.Option.{option_map};
ghost use Rattle.std.specs.Str.{chars};
ghost use Rattle.laws.specs.Text.{text as text_of, spelled};
ghost use Rattle.xml_tree.specs.Trees.{content_of};
ghost use Rattle.xml_tree.specs.Views as views;
ghost use Rattle.xml_tree.specs.Views.{element_view};
ghost use Rattle.xml_schema.specs.Faults.{left_at, first_of};
ghost use Rattle.xml_schema.specs.Views as schema;
ghost use Rattle.csl_locales.specs.Sets.{has_text, is_one_of, AreTexts};
ghost use Rattle.csl_styles.specs.Faults as specs;
ghost use Rattle.csl_styles.specs.Faults.{by_schema, earlier_of, with_name};
ghost use Rattle.csl_words.specs.Elements.{content_in};
ghost use Rattle.csl_styles.specs.Views.{wrong_view, fault_view};

use crate::fault::{Fault, Wrong};
use crate::information::parent_of;
use csl_locales::{add_text, all_called, has_text, is_passed, value_of};
use csl_schema::first_csl_fault;
use csl_words::{attribute, children_of, is_called, part_called};
use std::alloc::{AllocError, Global};
use std::collections::BTreeSet;
use xml_tree::Element;

/// How many bytes of the text are left where the start-tag of an element begins.
pub(crate) fn left_of(element: &Element<'_>) -> usize
    ensures { result ≡ left_at (element_view element.now) }
{
    element.left
}

/// A fault at the start-tag of an element.
fn fault_at<'s>(element: &Element<'s>, wrong: Wrong<'s>) -> Fault<'s>
    ensures { fault_view result ≡ specs.fault (left_at (element_view element.now))
        (wrong_view wrong.entry) }
{
    Fault {
        left: left_of(element),
        wrong,
    }
}

/// The name of a macro.
pub(crate) fn macro_name<'e>(element: &'e Element<'_>) -> &'e str
    ensures { result.now ≡ specs.macro_name (element_view element.now) }
{
    value_of("name", element)
}

/// The names of the macros of a style.
fn macro_names<'e>(alloc: Global, root: &'e Element<'_>) -> Result<BTreeSet<&'e str>, AllocError>
    ensures { IfOk result (λ s. AreTexts s (specs.macro_names (element_view root.now))) }
{
    let mut names = BTreeSet::new(alloc);
    for part in all_called(alloc, "macro", root)? {
        add_text(&mut names, macro_name(part))?;
    }
    Ok(names)
}

/// The macro that an element calls, if it calls one.
fn called_macro<'e>(element: &'e Element<'_>) -> Option<&'e str>
    ensures { option_map spelled result ≡ specs.called_macro (element_view element.now) }
{
    if is_called("text", element) || is_called("key", element) {
        attribute("macro", element)
    } else {
        None
    }
}

/// Whether the name is known, as that of a tree is spelled.
#[tactic(auto, using(laws::proofs::Text::text_of_chars))]
fn is_known<'e>(known: &BTreeSet<&'e str>, name: &'e str) -> bool
    ensures { result ≡ has_text known.now (text_of (chars name.entry.now)) }
{
    has_text(known, name)
}

/// The fault of an element that calls a macro which is not known.
fn call_fault<'e, 's>(element: &'e Element<'s>, known: &BTreeSet<&'e str>) -> Option<Fault<'s>>
    ensures { option_map fault_view result
        ≡ specs.call_fault (has_text known.now) (element_view element.entry.now) }
{
    match called_macro(element) {
        Some(name) => {
            if is_known(known, name) {
                None
            } else {
                Some(fault_at(element, Wrong::UnknownMacro))
            }
        }
        None => None,
    }
}

/// The first call of a macro that is not known, by an element or by one in it.
#[cycle(calls)]
fn first_call<'e, 's>(element: &'e Element<'s>, known: &BTreeSet<&'e str>) -> Option<Fault<'s>>
    ensures { option_map fault_view result
        ≡ first_of (specs.call_faults (has_text known.now) (element_view element.entry.now)) }
{
    if is_passed(element) {
        return None;
    }
    match call_fault(element, known) {
        Some(fault) => Some(fault),
        None => first_call_in(children_of(element), known),
    }
}

/// The first of those by elements.
#[cycle(calls)]
fn first_call_in<'e, 's>(
    children: &'e [(String, Element<'s>)],
    known: &BTreeSet<&'e str>,
) -> Option<Fault<'s>>
    ensures { (t : List ℕ) → option_map fault_view result ≡ first_of (specs.calls_in
        (has_text known.now) (content_of (views.children_of children.entry.now) t)) }
{
    for child in children {
        match first_call(&child.1, known) {
            Some(fault) => return Some(fault),
            None => {}
        }
    }
    None
}

/// The fault of a macro whose name one before it has; the name is one of those before the next.
fn second_fault<'e, 's>(
    earlier: &mut BTreeSet<&'e str>,
    element: &'e Element<'s>,
) -> Result<Option<Fault<'s>>, AllocError>
    ensures fault { IfOk result (λ f. option_map fault_view f
        ≡ specs.second_fault (has_text earlier.old) (element_view element.entry.now)) }
    ensures names { OnOk result ((t : List ℕ) → has_text earlier.new t
        ≡ with_name (has_text earlier.old) (element_view element.entry.now) t) }
{
    if !is_called("macro", element) {
        return Ok(None);
    }
    if add_text(earlier, macro_name(element))? {
        Ok(None)
    } else {
        Ok(Some(fault_at(element, Wrong::SecondMacro)))
    }
}

/// The first fault of an element in a style by its macros.
fn child_fault<'e, 's>(
    known: &BTreeSet<&'e str>,
    earlier: &mut BTreeSet<&'e str>,
    element: &'e Element<'s>,
) -> Result<Option<Fault<'s>>, AllocError>
    ensures fault { IfOk result (λ f. option_map fault_view f ≡ first_of (specs.child_faults
        (has_text known.now) (has_text earlier.old) (element_view element.entry.now))) }
    ensures names { OnOk result ((t : List ℕ) → has_text earlier.new t
        ≡ with_name (has_text earlier.old) (element_view element.entry.now) t) }
{
    match second_fault(earlier, element)? {
        Some(fault) => Ok(Some(fault)),
        None => Ok(first_call(element, known)),
    }
}

/// The first fault of elements in a style by their macros.
fn macro_fault<'e, 's>(
    alloc: Global,
    known: &BTreeSet<&'e str>,
    children: &'e [(String, Element<'s>)],
) -> Result<Option<Fault<'s>>, AllocError>
    ensures { (t : List ℕ) → IfOk result (λ f. option_map fault_view f ≡ first_of
        (specs.macro_faults (has_text known.now) (λ name. false)
        (content_of (views.children_of children.entry.now) t))) }
{
    let mut earlier = BTreeSet::new(alloc);
    for child in children {
        match child_fault(known, &mut earlier, &child.1)? {
            Some(fault) => return Ok(Some(fault)),
            None => {}
        }
    }
    Ok(None)
}

/// The first fault of a style by its macros.
fn macros_fault<'s>(alloc: Global, root: &Element<'s>) -> Result<Option<Fault<'s>>, AllocError>
    ensures { IfOk result (λ f. option_map fault_view f ≡ first_of (specs.macro_faults
        (is_one_of (specs.macro_names (element_view root.now))) (λ name. false)
        (content_in (element_view root.now)))) }
{
    let known = macro_names(alloc, root)?;
    macro_fault(alloc, &known, children_of(root))
}

/// The fault of a style without a parent that has no citation.
fn citation_fault<'s>(root: &Element<'s>) -> Option<Fault<'s>>
    ensures { option_map fault_view result ≡ specs.citation_fault (element_view root.now) }
{
    if parent_of(root).is_none() && part_called("citation", root).is_none() {
        Some(fault_at(root, Wrong::NoCitation))
    } else {
        None
    }
}

/// The first fault of a style that no table says.
fn style_fault<'s>(alloc: Global, root: &Element<'s>) -> Result<Option<Fault<'s>>, AllocError>
    ensures { IfOk result (λ f. option_map fault_view f
        ≡ first_of (specs.style_faults (element_view root.now))) }
{
    match citation_fault(root) {
        Some(fault) => Ok(Some(fault)),
        None => macros_fault(alloc, root),
    }
}

/// The first fault that no table says.
fn own_fault<'s>(alloc: Global, root: &Element<'s>) -> Result<Option<Fault<'s>>, AllocError>
    ensures { IfOk result (λ f. option_map fault_view f
        ≡ first_of (specs.own_faults (element_view root.now))) }
{
    if is_called("style", root) {
        style_fault(alloc, root)
    } else {
        Ok(None)
    }
}

/// A fault by the schema.
fn by_schema<'s>(fault: Option<xml_schema::Fault<'s>>) -> Option<Fault<'s>>
    ensures { option_map fault_view result
        ≡ option_map by_schema (option_map schema.fault_view fault.entry) }
{
    match fault {
        Some(fault) => Some(Fault {
            left: fault.left,
            wrong: Wrong::Schema(fault.wrong),
        }),
        None => None,
    }
}

/// The one of two faults that comes first, the first of them at one place.
fn earlier_of<'s>(first: Option<Fault<'s>>, second: Option<Fault<'s>>) -> Option<Fault<'s>>
    ensures { option_map fault_view result ≡ earlier_of
        (option_map fault_view first.entry) (option_map fault_view second.entry) }
{
    match (first, second) {
        (None, second) => second,
        (first, None) => first,
        (Some(first), Some(second)) => {
            if first.left < second.left {
                Some(second)
            } else {
                Some(first)
            }
        }
    }
}

/// The first fault of the tree of a style or of a locale, if it has one: by the schema of CSL 1.0.2; a style without a parent and without a
/// `citation`; a macro whose name one before it has; a call of a macro that there is not. It recurses as deep as elements are nested.
///
/// # Errors
/// Where a request for memory was refused.
pub fn first_fault<'s>(alloc: Global, root: &Element<'s>) -> Result<Option<Fault<'s>>, AllocError>
    ensures { IfOk result (λ f. option_map fault_view f
        ≡ first_of (specs.faults (element_view root.now))) }
{
    let by_table = first_csl_fault(alloc, root)?;
    let own = own_fault(alloc, root)?;
    Ok(earlier_of(by_schema(by_table), own))
}
