//! What is wrong with the attributes of an element.

ghost use Rattle.std.specs.Prelude.{◌≡◌, map, filter_map};
ghost use Rattle.std.specs.Option.{option_map};
ghost use Rattle.std.specs.Str.{chars};
ghost use Rattle.xml_text.specs.Views.{placed_view};
ghost use Rattle.xml_tree.specs.Scope as scope;
ghost use Rattle.xml_tree.specs.Scope.{xml_space};
ghost use Rattle.xml_tree.specs.Views.{space_view, attribute_view};
ghost use Rattle.xml_schema.specs.Faults.{values_of, group_values, wrong_by, attribute_wrong, is_had, has_attribute, count_had, lack_wrong, crowd_wrong, one_wrong, need_wrong, first_of};
ghost use Rattle.xml_schema.specs.Views.{wrong_view};

use crate::fault::Wrong;
use crate::schema::{AttributeRule, Need, Rule, Schema, Values};
use crate::standing::{has_no_space, is_other, is_word};
use crate::value::allows_text;
use std::rc::RcStr;
use xml_text::Placed;
use xml_tree::Attribute;

/// The values of the first attribute of that local name.
fn values_of(rules: &[AttributeRule], local: &str) -> Option<Values>
    ensures { result ≡ values_of rules.now (chars local.now) }
{
    for rule in rules {
        if is_word(local, rule.0) {
            return Some(rule.1);
        }
    }
    None
}

/// Those of the first group that has one.
fn group_values(groups: &[&[AttributeRule]], local: &str) -> Option<Values>
    ensures { result ≡ group_values groups.now (chars local.now) }
{
    for group in groups {
        match values_of(*group, local) {
            Some(values) => return Some(values),
            None => {}
        }
    }
    None
}

/// What is wrong with an attribute that may have such values, or that may not be there.
fn wrong_by<'s>(values: Option<Values>, attribute: &Attribute<'s>) -> Option<Wrong<'s>>
    ensures { option_map wrong_view result
        ≡ wrong_by values.entry (attribute_view attribute.now) }
{
    match values {
        None => Some(Wrong::Attribute(attribute.name.local)),
        Some(values) => {
            if allows_text(values, &attribute.value) {
                None
            } else {
                Some(Wrong::Value(attribute.name.local))
            }
        }
    }
}

/// Whether a namespace is that of the prefix `xml`.
fn is_xml(space: &Option<RcStr>) -> bool
    ensures { result ≡ scope.is_word xml_space (space_view space.now) }
{
    match space {
        Some(space) => is_word(space.as_str(), "http://www.w3.org/XML/1998/namespace"),
        None => false,
    }
}

/// What is wrong with an attribute.
fn attribute_wrong<'s>(
    schema: &Schema,
    rule: &Rule,
    attribute: &Placed<Attribute<'s>>,
) -> Option<Wrong<'s>>
    ensures { option_map wrong_view result
        ≡ attribute_wrong schema.now rule.now (placed_view attribute_view attribute.now) }
{
    let name = &attribute.v.name;
    if has_no_space(&name.space) {
        wrong_by(group_values(rule.attributes, name.local), &attribute.v)
    } else if is_xml(&name.space) {
        wrong_by(values_of(rule.xml_attributes, name.local), &attribute.v)
    } else if is_other(schema.space, &name.space) {
        None
    } else {
        wrong_by(None, &attribute.v)
    }
}

/// Whether an attribute has that name, and no namespace.
pub fn has_name(attribute: &Placed<Attribute<'_>>, name: &str) -> bool
    ensures { result ≡ is_had name.now (placed_view attribute_view attribute.now) }
{
    has_no_space(&attribute.v.name.space) && is_word(attribute.v.name.local, name)
}

/// Whether there is an attribute of that name without a namespace.
fn has_attribute(attributes: &[Placed<Attribute<'_>>], name: &str) -> bool
    ensures { result
        ≡ has_attribute (map (placed_view attribute_view) attributes.now) name.now }
{
    for attribute in attributes {
        if has_name(attribute, name) {
            return true;
        }
    }
    false
}

/// How many of these attributes there are.
fn count_had(attributes: &[Placed<Attribute<'_>>], names: &[&str]) -> usize
    ensures { result ≡ count_had (map (placed_view attribute_view) attributes.now) names.now }
{
    names
        .iter()
        .filter(|name| has_attribute(attributes, **name))
        .count()
}

/// What is wrong where there are so many of these, of which one or more are needed.
fn lack_wrong<'s>(names: &'static [&'static str], count: usize) -> Option<Wrong<'s>>
    ensures { option_map wrong_view result ≡ lack_wrong names.now count }
{
    if count == 0 {
        Some(Wrong::Lacking(names))
    } else {
        None
    }
}

/// The same where no more than one may be there.
fn crowd_wrong<'s>(names: &'static [&'static str], count: usize) -> Option<Wrong<'s>>
    ensures { option_map wrong_view result ≡ crowd_wrong names.now count }
{
    if count > 1 {
        Some(Wrong::Crowded(names))
    } else {
        None
    }
}

/// The same where one is needed, and no more may be there.
fn one_wrong<'s>(names: &'static [&'static str], count: usize) -> Option<Wrong<'s>>
    ensures { option_map wrong_view result ≡ one_wrong names.now count }
{
    match lack_wrong(names, count) {
        Some(wrong) => Some(wrong),
        None => crowd_wrong(names, count),
    }
}

/// What is wrong with attributes of which these are needed.
fn need_wrong<'s>(attributes: &[Placed<Attribute<'s>>], need: &Need) -> Option<Wrong<'s>>
    ensures { option_map wrong_view result
        ≡ need_wrong (map (placed_view attribute_view) attributes.now) need.now }
{
    match *need {
        Need::AtLeastOne(names) => lack_wrong(names, count_had(attributes, names)),
        Need::ExactlyOne(names) => one_wrong(names, count_had(attributes, names)),
    }
}

/// The first that is wrong with attributes by themselves.
pub(crate) fn attributes_wrong<'s>(
    schema: &Schema,
    rule: &Rule,
    attributes: &[Placed<Attribute<'s>>],
) -> Option<Wrong<'s>>
    ensures { option_map wrong_view result ≡ first_of (filter_map
        (attribute_wrong schema.now rule.now) (map (placed_view attribute_view) attributes.now)) }
{
    for attribute in attributes {
        match attribute_wrong(schema, rule, attribute) {
            Some(wrong) => return Some(wrong),
            None => {}
        }
    }
    None
}

/// The first that is wrong with attributes of which these are needed.
pub(crate) fn needs_wrong<'s>(
    attributes: &[Placed<Attribute<'s>>],
    needs: &[Need],
) -> Option<Wrong<'s>>
    ensures { option_map wrong_view result ≡ first_of (filter_map
        (need_wrong (map (placed_view attribute_view) attributes.now)) needs.now) }
{
    for need in needs {
        match need_wrong(attributes, need) {
            Some(wrong) => return Some(wrong),
            None => {}
        }
    }
    None
}
