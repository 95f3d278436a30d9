//! What is wrong with an element itself.

ghost use Rattle.std.specs.Prelude.{◌≡◌, map};
ghost use Rattle.std.specs.Option.{option_map};
ghost use Rattle.std.specs.Str.{chars};
ghost use Rattle.xml_text.specs.Views.{placed_view};
ghost use Rattle.xml_tree.specs.Trees.{content_of};
ghost use Rattle.xml_tree.specs.Views.{attribute_view, element_view, children_of};
ghost use Rattle.xml_schema.specs.Faults.{content_wrongs, later_wrongs, own_wrongs, wrongs_of, first_of};
ghost use Rattle.xml_schema.specs.Views.{wrong_view};

use crate::attribute::{attributes_wrong, needs_wrong};
use crate::child::{children_wrong, text_wrong};
use crate::fault::Wrong;
use crate::schema::{Rule, Schema};
use xml_text::Placed;
use xml_tree::{Attribute, Element};

/// The first that is wrong with how often elements are in an element, or with its text.
fn content_wrong<'s>(
    schema: &Schema,
    rule: &Rule,
    children: &[(String, Element<'s>)],
    text: &str,
) -> Option<Wrong<'s>>
    ensures { option_map wrong_view result ≡ first_of (content_wrongs schema.now rule.now
        (content_of (children_of children.now) (chars text.now))) }
{
    match children_wrong(schema, rule.children, children) {
        Some(wrong) => Some(wrong),
        None => text_wrong(rule, children, text),
    }
}

/// The first that is wrong with what an element needs of its attributes, with how often elements are in it, or with its text.
fn later_wrong<'s>(
    schema: &Schema,
    rule: &Rule,
    attributes: &[Placed<Attribute<'s>>],
    children: &[(String, Element<'s>)],
    text: &str,
) -> Option<Wrong<'s>>
    ensures { option_map wrong_view result ≡ first_of (later_wrongs schema.now rule.now
        (map (placed_view attribute_view) attributes.now)
        (content_of (children_of children.now) (chars text.now))) }
{
    match needs_wrong(attributes, rule.needs) {
        Some(wrong) => Some(wrong),
        None => content_wrong(schema, rule, children, text),
    }
}

/// The first that is wrong with an element of these parts.
fn parts_wrong<'s>(
    schema: &Schema,
    rule: &Rule,
    attributes: &[Placed<Attribute<'s>>],
    children: &[(String, Element<'s>)],
    text: &str,
) -> Option<Wrong<'s>>
    ensures { option_map wrong_view result ≡ first_of (own_wrongs schema.now rule.now
        (map (placed_view attribute_view) attributes.now)
        (content_of (children_of children.now) (chars text.now))) }
{
    match attributes_wrong(schema, rule, attributes) {
        Some(wrong) => Some(wrong),
        None => later_wrong(schema, rule, attributes, children, text),
    }
}

/// The first that is wrong with an element itself.
pub(crate) fn own_wrong<'s>(
    schema: &Schema,
    rule: &Rule,
    element: &Element<'s>,
) -> Option<Wrong<'s>>
    ensures { option_map wrong_view result
        ≡ first_of (wrongs_of schema.now rule.now (element_view element.now)) }
{
    parts_wrong(
        schema,
        rule,
        element.attributes.as_slice(),
        element.children.as_slice(),
        element.text.as_str(),
    )
}
