//! How an element stands in another.

ghost use Rattle.std.specs.Prelude.{◌≡◌, is_none};
ghost use Rattle.std.specs.List.{find};
ghost use Rattle.std.specs.Str.{chars, bytes_eq};
ghost use Rattle.laws.specs.Text.{text as text_of};
ghost use Rattle.xml_tree.specs.Views.{space_view, full_name_view};
ghost use Rattle.xml_schema.specs.Faults.{is_other, child_rule, by_found_rule, by_rule_name, by_child_rule, standing, as_root};

use crate::schema::{ChildRule, Rule, Schema};
use std::rc::RcStr;
use xml_tree::FullName;

/// How an element stands in another.
#[derive(Clone, Copy)]
pub(crate) enum Standing {
    /// It is passed over, with all that is in it.
    Passed,
    /// It may not stand there.
    NotAllowed,
    /// It has to be as this rule says.
    Under(Rule),
}

/// Whether the text is this word.
#[tactic(auto, using(laws::proofs::Text::text_of_chars))]
pub(crate) fn is_word(text: &str, word: &str) -> bool
    ensures { result ≡ bytes_eq (text_of (chars text.now)) word.now }
{
    text == word
}

/// Whether there is no namespace.
pub(crate) fn has_no_space(space: &Option<RcStr>) -> bool
    ensures { result ≡ is_none (space_view space.now) }
{
    match space {
        Some(_) => false,
        None => true,
    }
}

/// Whether a namespace is another one than a schema's.
pub(crate) fn is_other(of_schema: &str, space: &Option<RcStr>) -> bool
    ensures { result ≡ is_other of_schema.now (space_view space.now) }
{
    match space {
        Some(space) => !is_word(space.as_str(), of_schema),
        None => false,
    }
}

/// What a rule says of an element of that local name, if it says anything.
fn child_rule(children: &[ChildRule], local: &str) -> Option<ChildRule>
    ensures { result ≡ child_rule children.now (chars local.now) }
{
    for child in children {
        if is_word(local, child.0) {
            return Some(*child);
        }
    }
    None
}

/// The rule of that name, if there is one.
fn rule_named(rules: &[Rule], name: &str) -> Option<Rule>
    ensures { result ≡ find (λ rule. bytes_eq rule.name.now name.now) rules.now }
{
    for rule in rules {
        if rule.name == name {
            return Some(*rule);
        }
    }
    None
}

/// How an element stands that has to be as the rule of this name says, or that has no rule.
fn by_rule_name(schema: &Schema, name: Option<&'static str>) -> Standing
    ensures { result ≡ by_rule_name schema.now name.entry }
{
    match name {
        None => Standing::Passed,
        Some(name) => match rule_named(schema.rules, name) {
            Some(rule) => Standing::Under(rule),
            None => Standing::NotAllowed,
        },
    }
}

/// How an element stands of which a rule says this, or of which it says nothing.
fn by_child_rule(schema: &Schema, child: Option<ChildRule>) -> Standing
    ensures { result ≡ by_child_rule schema.now child.entry }
{
    match child {
        None => Standing::NotAllowed,
        Some(child) => by_rule_name(schema, child.1),
    }
}

/// How an element of that name stands in one of the rule.
pub(crate) fn standing_of(schema: &Schema, around: &Rule, name: &FullName<'_>) -> Standing
    ensures { result ≡ standing schema.now around.now (full_name_view name.now) }
{
    if is_other(schema.space, &name.space) {
        return Standing::Passed;
    }
    by_child_rule(schema, child_rule(around.children, name.local))
}

/// How a root stands, which is not passed over.
pub(crate) fn as_root(standing: Standing) -> Standing
    ensures { result ≡ as_root standing }
{
    match standing {
        Standing::Passed => Standing::NotAllowed,
        _ => standing,
    }
}
