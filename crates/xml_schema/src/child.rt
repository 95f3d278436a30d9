//! What is wrong with how often elements are in an element, and with its text.

ghost use Rattle.std.specs.Prelude.{◌≡◌, ℕ, List, count_by, filter_map};
ghost use Rattle.std.specs.Option.{option_map};
ghost use Rattle.std.specs.Str.{chars};
ghost use Rattle.xml_tree.specs.Trees.{content_of};
ghost use Rattle.xml_tree.specs.Views.{full_name_view, element_view, children_of};
ghost use Rattle.xml_schema.specs.Faults.{name_of, is_named, count_called, times_wrong, child_wrong, content_has_words, text_wrong, first_of};
ghost use Rattle.xml_schema.specs.Views.{wrong_view};

use crate::fault::Wrong;
use crate::schema::{ChildRule, Rule, Schema, Times};
use crate::standing::{is_other, is_word};
use crate::value::has_words;
use xml_tree::{Element, FullName};

/// The name of an element.
pub(crate) fn name_of<'e, 's>(element: &'e Element<'s>) -> &'e FullName<'s>
    ensures { full_name_view result.now ≡ name_of (element_view element.now) }
{
    &element.name
}

/// Whether an element counts as one of the schema with this namespace, and has that name.
fn is_named(of_schema: &str, name: &str, called: &FullName<'_>) -> bool
    ensures { result ≡ is_named of_schema.now name.now (full_name_view called.now) }
{
    !is_other(of_schema, &called.space) && is_word(called.local, name)
}

/// How many pairs have an element of that name.
fn count_pairs(of_schema: &str, name: &str, children: &[(String, Element<'_>)]) -> usize
    ensures { result ≡ count_by
        (λ p. is_named of_schema.now name.now (name_of (element_view p.1))) children.now }
{
    children
        .iter()
        .filter(|child| is_named(of_schema, name, name_of(&child.1)))
        .count()
}

/// How many elements of that name there are.
fn count_called(of_schema: &str, name: &str, children: &[(String, Element<'_>)]) -> usize
    ensures { (t : List ℕ) → result
        ≡ count_called of_schema.now name.now (content_of (children_of children.now) t) }
{
    count_pairs(of_schema, name, children)
}

/// What is wrong where elements of that name may be there so often, and are there so often.
fn times_wrong<'s>(times: Times, name: &'static str, count: usize) -> Option<Wrong<'s>>
    ensures { option_map wrong_view result ≡ times_wrong times name.now count }
{
    match times {
        Times::Once if count == 0 => Some(Wrong::Childless(name)),
        Times::Once | Times::AtMostOnce if count > 1 => Some(Wrong::Repeated(name)),
        _ => None,
    }
}

/// What is wrong with how often the element of a rule is there.
fn child_wrong<'s>(
    schema: &Schema,
    rule: &ChildRule,
    children: &[(String, Element<'s>)],
) -> Option<Wrong<'s>>
    ensures { (t : List ℕ) → option_map wrong_view result
        ≡ child_wrong schema.now (content_of (children_of children.now) t) rule.now }
{
    match rule.2 {
        Times::Any => return None,
        _ => {}
    }
    times_wrong(rule.2, rule.0, count_called(schema.space, rule.0, children))
}

/// The first that is wrong with how often elements are there.
pub(crate) fn children_wrong<'s>(
    schema: &Schema,
    rules: &[ChildRule],
    children: &[(String, Element<'s>)],
) -> Option<Wrong<'s>>
    ensures { (t : List ℕ) → option_map wrong_view result ≡ first_of (filter_map
        (child_wrong schema.now (content_of (children_of children.now) t)) rules.now) }
{
    for rule in rules {
        match child_wrong(schema, rule, children) {
            Some(wrong) => return Some(wrong),
            None => {}
        }
    }
    None
}

/// Whether some text before or after the elements is more than white space.
fn content_has_words(children: &[(String, Element<'_>)], text: &str) -> bool
    ensures { result ≡ content_has_words
        (content_of (children_of children.now) (chars text.now)) }
{
    for child in children {
        if has_words(child.0.as_str()) {
            return true;
        }
    }
    has_words(text)
}

/// What is wrong with the texts in an element.
pub(crate) fn text_wrong<'s>(
    rule: &Rule,
    children: &[(String, Element<'s>)],
    text: &str,
) -> Option<Wrong<'s>>
    ensures { option_map wrong_view result ≡ text_wrong rule.now
        (content_of (children_of children.now) (chars text.now)) }
{
    if !rule.holds_text && content_has_words(children, text) {
        Some(Wrong::Text)
    } else {
        None
    }
}
