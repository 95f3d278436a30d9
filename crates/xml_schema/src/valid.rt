//! Texts of valid trees.

ghost use Rattle.std.specs.Prelude.{◌≡◌, [], IfOk, IfSome};
ghost use Rattle.std.specs.Str.{chars};
ghost use Rattle.laws.specs.Results.{Gives, GivesBack};
ghost use Rattle.xml_tree.specs.Grammar.{Spells};
ghost use Rattle.xml_tree.specs.Trees as trees;
ghost use Rattle.xml_tree.specs.Views.{element_view};
ghost use Rattle.xml_schema.specs.Faults.{faults};
ghost use Rattle.xml_schema.specs.Placing.{placed_in};
ghost use Rattle.xml_schema.specs.Valid.{checked, valid_tree_of, OfTree};
ghost use Rattle.xml_schema.specs.ValidViews.{refusal_of, text_error};
ghost use Rattle.xml_schema.specs.Views.{fault_view};

use crate::fault::Fault;
use crate::finding::first_fault;
use crate::placing::fault_left;
use crate::schema::Schema;
use std::alloc::Global;
use xml_tree::{Element, TreeError, parse};

/// Why a text gives no valid tree.
#[derive(Clone, Copy)]
pub enum ValidError<'s> {
    /// A request for memory was refused.
    Memory,
    /// The text is no XML, and this many of its bytes are left where that shows.
    Text { fault: xml_text::Fault, left: usize },
    /// The tree of the text has this fault first, at its place in the text: text where its first line begins that is more than white space, anything
    /// else at the start-tag of the element.
    Tree(Fault<'s>),
}

/// The same of a text that gives no tree.
fn text_error<'s>(error: TreeError) -> ValidError<'s>
    ensures { result ≡ text_error error }
{
    match error {
        TreeError::Memory => ValidError::Memory,
        TreeError::Fault { fault, left } => ValidError::Text { fault, left },
    }
}

/// The same of a text whose tree has this fault first.
fn tree_error<'s>(alloc: Global, text: &str, fault: Fault<'s>) -> ValidError<'s>
    ensures { IfSome (refusal_of result)
        (λ r. r ≡ OfTree (placed_in (chars text.now) (fault_view fault.entry))) }
{
    match fault_left(alloc, text, fault.wrong, fault.left) {
        Ok(left) => ValidError::Tree(Fault {
            left,
            wrong: fault.wrong,
        }),
        Err(_) => ValidError::Memory,
    }
}

/// The tree of a text, unless it has a fault.
fn checked<'s>(
    alloc: Global,
    schema: &Schema,
    text: &str,
    root: Element<'s>,
) -> Result<Element<'s>, ValidError<'s>>
    ensures { Gives refusal_of element_view result
        (checked schema.now (chars text.now) (element_view root.entry)) }
{
    match first_fault(alloc, schema, &root) {
        Ok(None) => Ok(root),
        Ok(Some(fault)) => Err(tree_error(alloc, text, fault)),
        Err(_) => Err(ValidError::Memory),
    }
}

/// The tree of a text that is valid by a schema.
///
/// # Errors
/// `Text` where the text is no XML with namespaces; else `Tree` with the first fault of its tree, at its place. `Memory` where a request for memory was
/// refused.
pub fn parse_valid<'s>(
    alloc: Global,
    schema: &Schema,
    text: &'s str,
) -> Result<Element<'s>, ValidError<'s>>
    // What is read the text spells, and it has no fault.
    ensures found { IfOk result (λ e. Spells (element_view e) (chars text.now)
        × (faults schema.now (element_view e) ≡ [])) }
    // What the text spells is read if it has no fault, unless memory runs out.
    ensures only { (e : trees.Element) → Spells e (chars text.now) → faults schema.now e ≡ []
        → GivesBack refusal_of element_view result e }
    // The tree, or the first fault.
    ensures reading { Gives refusal_of element_view result
        (valid_tree_of schema.now (chars text.now)) }
{
    match parse(alloc, text) {
        Ok(root) => checked(alloc, schema, text, root),
        Err(error) => Err(text_error(error)),
    }
}
