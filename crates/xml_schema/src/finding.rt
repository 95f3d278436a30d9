//! The first fault of a tree. Elements that are still to be looked at wait in a list, so that nothing recurses as deep as they are nested.

ghost use Rattle.std.specs.Prelude.{◌≡◌, ◌∷◌, ◌+◌, ◌<◌, [], IfOk, OnOk, MatchOption};
ghost use Rattle.std.specs.Option.{option_map};
ghost use Rattle.xml_tree.specs.Views.{element_view};
ghost use Rattle.xml_schema.specs.Faults.{name_of, left_at, fault, standing, own_faults, ruled_faults, element_faults, faults, first_of};
ghost use Rattle.xml_schema.specs.Waiting.{inside, IsFirst, waiting_faults, weight, waiting_weight};
ghost use Rattle.xml_schema.specs.Views.{wrong_view, fault_view, waiting_at, waiting_view, waiting_list};

use crate::child::name_of;
use crate::fault::{Fault, Wrong};
use crate::own::own_wrong;
use crate::schema::{Rule, Schema};
use crate::standing::{Standing, as_root, standing_of};
use std::alloc::{AllocError, Global};
use xml_tree::Element;

/// Elements in one of this rule that are still to be looked at.
#[derive(Clone, Copy)]
pub(crate) struct Waiting<'e, 's> {
    pub(crate) rule: Rule,
    pub(crate) rest: &'e [(String, Element<'s>)],
}

/// A fault at the start-tag of an element.
fn fault_at<'s>(element: &Element<'s>, wrong: Wrong<'s>) -> Fault<'s>
    ensures { fault_view result
        ≡ fault (left_at (element_view element.now)) (wrong_view wrong.entry) }
{
    Fault {
        left: element.left,
        wrong,
    }
}

/// The first fault of an element itself, by a rule.
fn own_fault<'s>(schema: &Schema, rule: &Rule, element: &Element<'s>) -> Option<Fault<'s>>
    ensures { option_map fault_view result
        ≡ first_of (own_faults schema.now rule.now (element_view element.now)) }
{
    match own_wrong(schema, rule, element) {
        Some(wrong) => Some(fault_at(element, wrong)),
        None => None,
    }
}

/// What is in an element, which has to be as the rule says, waits.
fn put_content<'e, 's>(
    waiting: &mut Vec<Waiting<'e, 's>>,
    rule: Rule,
    element: &'e Element<'s>,
) -> Result<(), AllocError>
    ensures { OnOk result (waiting_list waiting.new
        ≡ inside rule.entry (element_view element.now) ∷ waiting_list waiting.old) }
{
    waiting.push(Waiting {
        rule,
        rest: element.children.as_slice(),
    })?;
    Ok(())
}

/// Looks at an element that has to be as the rule says: its first fault, or else what is in it waits.
fn look_into<'e, 's>(
    schema: &Schema,
    waiting: &mut Vec<Waiting<'e, 's>>,
    rule: Rule,
    element: &'e Element<'s>,
) -> Result<Option<Fault<'s>>, AllocError>
    ensures first { IfOk result (λ f. IsFirst schema.now (option_map fault_view f)
        (waiting_list waiting.new) (ruled_faults schema.now rule.entry (element_view element.now))
        (waiting_list waiting.old)) }
    ensures fewer { IfOk result (λ f. waiting_weight (waiting_list waiting.new)
        < waiting_weight (waiting_list waiting.old) + weight (element_view element.now)) }
{
    match own_fault(schema, &rule, element) {
        Some(fault) => Ok(Some(fault)),
        None => {
            put_content(waiting, rule, element)?;
            Ok(None)
        }
    }
}

/// Looks at an element that stands so in one of the rule: its first fault, or else what is in it waits.
fn look_at<'e, 's>(
    schema: &Schema,
    waiting: &mut Vec<Waiting<'e, 's>>,
    around: &Rule,
    standing: Standing,
    element: &'e Element<'s>,
) -> Result<Option<Fault<'s>>, AllocError>
    ensures first { IfOk result (λ f. IsFirst schema.now (option_map fault_view f)
        (waiting_list waiting.new) (element_faults schema.now around.now standing
        (element_view element.now)) (waiting_list waiting.old)) }
    ensures fewer { IfOk result (λ f. waiting_weight (waiting_list waiting.new)
        < waiting_weight (waiting_list waiting.old) + weight (element_view element.now)) }
{
    match standing {
        Standing::Passed => Ok(None),
        Standing::NotAllowed => Ok(Some(fault_at(element, Wrong::Stray(around.name)))),
        Standing::Under(rule) => look_into(schema, waiting, rule, element),
    }
}

/// Looks at an element in one of the rule; the others after it wait.
fn look_at_child<'e, 's>(
    schema: &Schema,
    waiting: &mut Vec<Waiting<'e, 's>>,
    rule: Rule,
    child: &'e (String, Element<'s>),
    rest: &'e [(String, Element<'s>)],
) -> Result<Option<Fault<'s>>, AllocError>
    ensures first { IfOk result (λ f. IsFirst schema.now (option_map fault_view f)
        (waiting_list waiting.new) (element_faults schema.now rule.entry
        (standing schema.now rule.entry (name_of (element_view child.now.1)))
        (element_view child.now.1))
        (waiting_at rule.entry rest.now ∷ waiting_list waiting.old)) }
    ensures fewer { IfOk result (λ f. waiting_weight (waiting_list waiting.new)
        < waiting_weight (waiting_at rule.entry rest.now ∷ waiting_list waiting.old)
        + weight (element_view child.now.1)) }
{
    waiting.push(Waiting { rule, rest })?;
    let standing = standing_of(schema, &rule, name_of(&child.1));
    look_at(schema, waiting, &rule, standing, &child.1)
}

/// Looks at the first element of those that waited last; the others wait on.
fn step<'e, 's>(
    schema: &Schema,
    waiting: &mut Vec<Waiting<'e, 's>>,
    last: Waiting<'e, 's>,
) -> Result<Option<Fault<'s>>, AllocError>
    ensures first { IfOk result (λ f. IsFirst schema.now (option_map fault_view f)
        (waiting_list waiting.new) [] (waiting_view last.entry ∷ waiting_list waiting.old)) }
    ensures fewer { IfOk result (λ f. waiting_weight (waiting_list waiting.new)
        < waiting_weight (waiting_view last.entry ∷ waiting_list waiting.old)) }
{
    match last.rest.split_first() {
        None => Ok(None),
        Some((child, rest)) => look_at_child(schema, waiting, last.rule, child, rest),
    }
}

/// Takes what waited last, if anything waits.
fn take_last<'e, 's>(waiting: &mut Vec<Waiting<'e, 's>>) -> Option<Waiting<'e, 's>>
    ensures { MatchOption result (waiting_list waiting.old ≡ [])
        (λ w. waiting_list waiting.old ≡ waiting_view w ∷ waiting_list waiting.new) }
{
    waiting.pop()
}

/// The first fault of what waits.
fn find<'e, 's>(
    schema: &Schema,
    mut waiting: Vec<Waiting<'e, 's>>,
) -> Result<Option<Fault<'s>>, AllocError>
    ensures { IfOk result (λ f. option_map fault_view f
        ≡ first_of (waiting_faults schema.now (waiting_list waiting.entry))) }
{
    while let Some(last) = take_last(&mut waiting) {
        match step(schema, &mut waiting, last)? {
            Some(fault) => return Ok(Some(fault)),
            None => {}
        }
    }
    Ok(None)
}

/// The first fault of a tree by a schema, if it has one. The cost grows with the tree, and with how many attributes, words and elements a rule
/// has; nothing recurses as deep as the elements of the tree are nested.
///
/// # Errors
/// Where a request for memory was refused.
pub fn first_fault<'s>(
    alloc: Global,
    schema: &Schema,
    root: &Element<'s>,
) -> Result<Option<Fault<'s>>, AllocError>
    ensures { IfOk result (λ f. option_map fault_view f
        ≡ first_of (faults schema.now (element_view root.now))) }
{
    let mut waiting = Vec::new(alloc);
    let standing = as_root(standing_of(schema, &schema.document, name_of(root)));
    match look_at(schema, &mut waiting, &schema.document, standing, root)? {
        Some(fault) => Ok(Some(fault)),
        None => find(schema, waiting),
    }
}
