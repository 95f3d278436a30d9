//! What a tag says, by its declarations and those around it.

ghost use Rattle.std.specs.Prelude.{◌≡◌, ◌∷◌, [], ◌++◌, map, false, Ok, Some, None, OnOk, IfOk};
ghost use Rattle.std.specs.Option.{option_map};
ghost use Rattle.std.specs.Str.{chars};
ghost use Rattle.laws.specs.Results.{Gives, Leaves};
ghost use Rattle.laws.specs.Text.{characters, spelled};
ghost use Rattle.xml_text.specs.Views.{placed_view, name_view, tag_view};
ghost use Rattle.xml_text.specs.Views as written;
ghost use Rattle.xml_tree.specs.Met.{AreMet};
ghost use Rattle.xml_tree.specs.Scope.{over, declared_prefix, or_unbound, space_of, default_of, element_space, attribute_space};
ghost use Rattle.xml_tree.specs.Names.{is_written, valued_as, with_value, valued, with_declaration, declare, declared, named_in, with_named, expand, expanded, repeated, distinct, said};
ghost use Rattle.xml_tree.specs.Building.{scope_of};
ghost use Rattle.xml_tree.specs.Views.{refusal_of, space_view, attribute_view, attributes_view, bindings_view, valued_view, values_view, said_view, opens_of};

use crate::bindings::Bindings;
use crate::building::{Open, found_around};
use crate::error::TreeError;
use crate::met::{add_full_name, add_name};
use crate::scope::{declared_prefix, is_allowed, is_word, same_name, space_if_filled, xml_space};
use crate::tree::{Attribute, FullName};
use crate::value::value_of;
use std::alloc::{AllocError, Global};
use std::collections::BTreeSet;
use std::rc::RcStr;
use xml_text::{Fault, Name, Placed, Tag};

/// So many attributes of a tag are looked through for a name.
const FEW: usize = 8;

/// An attribute with its value.
#[derive(Drop)]
pub(crate) struct Valued<'s> {
    pub(crate) name: Name<'s>,
    pub(crate) value: String,
}

/// What a tag says: what it binds prefixes to, its expanded name, and its attributes.
#[derive(Drop)]
pub(crate) struct Said<'s> {
    pub(crate) own: Bindings<'s>,
    pub(crate) name: FullName<'s>,
    pub(crate) attributes: Vec<Placed<Attribute<'s>>>,
}

/// Appends an attribute with its value.
fn push_value<'s>(
    values: &mut Vec<Placed<Valued<'s>>>,
    attribute: &Placed<xml_text::Attribute<'s>>,
    value: String,
) -> Result<(), AllocError>
    ensures { OnOk result (values_view values.new ≡ values_view values.old ++ valued_as
        (placed_view written.attribute_view attribute.now) (characters value) ∷ []) }
{
    values.push(Placed {
        v: Valued {
            name: attribute.v.name,
            value,
        },
        left: attribute.left,
    })?;
    Ok(())
}

/// Appends an attribute with its value, unless an earlier one has its name. The names of those are given.
fn push_valued<'s>(
    alloc: Global,
    met: &mut BTreeSet<(Option<&'s str>, &'s str)>,
    values: &mut Vec<Placed<Valued<'s>>>,
    attribute: &Placed<xml_text::Attribute<'s>>,
) -> Result<(), TreeError>
    requires { AreMet met.old (values_view values.old) }
    ensures values { Leaves refusal_of result (values_view values.new)
        (with_value (values_view values.old) (placed_view written.attribute_view attribute.now)) }
    ensures met { OnOk result (AreMet met.new (values_view values.new)) }
{
    let is_new = add_name(met, attribute.v.name.prefix, attribute.v.name.local)?;
    if !is_new {
        return Err(TreeError::Fault {
            fault: Fault::Repeated,
            left: attribute.left,
        });
    }
    let value = value_of(alloc, attribute.v.value.as_slice())?;
    push_value(values, attribute, value)?;
    Ok(())
}

/// Whether one of these attributes has the name, as it is written.
fn is_among(values: &[Placed<Valued<'_>>], name: &Name<'_>) -> bool
    ensures { result
        ≡ is_written (map (placed_view valued_view) values.now) (name_view name.now) }
{
    for value in values {
        if same_name(&value.v.name, name) {
            return true;
        }
    }
    false
}

/// The same of a list.
fn is_written(values: &Vec<Placed<Valued<'_>>>, name: &Name<'_>) -> bool
    ensures { result ≡ is_written (values_view values.now) (name_view name.now) }
{
    is_among(values.as_slice(), name)
}

/// Appends an attribute with its value, unless an earlier one has its name. Those are looked through.
fn push_beside_few<'s>(
    alloc: Global,
    values: &mut Vec<Placed<Valued<'s>>>,
    attribute: &Placed<xml_text::Attribute<'s>>,
) -> Result<(), TreeError>
    ensures { Leaves refusal_of result (values_view values.new)
        (with_value (values_view values.old) (placed_view written.attribute_view attribute.now)) }
{
    if is_written(values, &attribute.v.name) {
        return Err(TreeError::Fault {
            fault: Fault::Repeated,
            left: attribute.left,
        });
    }
    let value = value_of(alloc, attribute.v.value.as_slice())?;
    push_value(values, attribute, value)?;
    Ok(())
}

/// The attributes of a tag with their values, where they are few.
fn few_valued<'s>(
    alloc: Global,
    attributes: &[Placed<xml_text::Attribute<'s>>],
) -> Result<Vec<Placed<Valued<'s>>>, TreeError>
    ensures { Gives refusal_of values_view result
        (valued (map (placed_view written.attribute_view) attributes.now)) }
{
    let mut values = Vec::new(alloc);
    for attribute in attributes {
        push_beside_few(alloc, &mut values, attribute)?;
    }
    Ok(values)
}

/// The attributes of a tag with their values. A few names are looked through, more are kept in a set.
fn all_valued<'s>(
    alloc: Global,
    attributes: &[Placed<xml_text::Attribute<'s>>],
) -> Result<Vec<Placed<Valued<'s>>>, TreeError>
    ensures { Gives refusal_of values_view result
        (valued (map (placed_view written.attribute_view) attributes.now)) }
{
    if attributes.len() <= FEW {
        few_valued(alloc, attributes)
    } else {
        many_valued(alloc, attributes)
    }
}

/// The attributes of a tag with their values, whose names are kept in a set.
fn many_valued<'s>(
    alloc: Global,
    attributes: &[Placed<xml_text::Attribute<'s>>],
) -> Result<Vec<Placed<Valued<'s>>>, TreeError>
    ensures { Gives refusal_of values_view result
        (valued (map (placed_view written.attribute_view) attributes.now)) }
{
    let mut met = BTreeSet::new(alloc);
    let mut values = Vec::new(alloc);
    for attribute in attributes {
        push_valued(alloc, &mut met, &mut values, attribute)?;
    }
    Ok(values)
}

/// Binds a prefix, or none, to the value of an attribute.
fn bind_value<'s>(
    alloc: Global,
    own: &mut Bindings<'s>,
    prefix: Option<&'s str>,
    attribute: &Placed<Valued<'s>>,
) -> Result<(), TreeError>
    ensures { Leaves refusal_of result (bindings_view own.new)
        (with_declaration (bindings_view own.old) (Some (option_map spelled prefix.entry))
        (placed_view valued_view attribute.now)) }
{
    let value = attribute.v.value.as_str();
    if !is_allowed(prefix, value) {
        return Err(TreeError::Fault {
            fault: Fault::Namespace,
            left: attribute.left,
        });
    }
    let space = space_if_filled(alloc, value)?;
    own.bind(prefix, space)?;
    Ok(())
}

/// Binds what an attribute declares, if it declares something.
fn push_declaration<'s>(
    alloc: Global,
    own: &mut Bindings<'s>,
    attribute: &Placed<Valued<'s>>,
) -> Result<(), TreeError>
    ensures { Leaves refusal_of result (bindings_view own.new)
        (declare (bindings_view own.old) (placed_view valued_view attribute.now)) }
{
    match declared_prefix(attribute.v.name) {
        Some(prefix) => bind_value(alloc, own, prefix, attribute),
        None => Ok(()),
    }
}

/// What the attributes of a tag declare.
fn declared<'s>(alloc: Global, attributes: &[Placed<Valued<'s>>]) -> Result<Bindings<'s>, TreeError>
    ensures { Gives refusal_of bindings_view result
        (declared (map (placed_view valued_view) attributes.now)) }
{
    let mut own = Bindings::new(alloc);
    for attribute in attributes {
        push_declaration(alloc, &mut own, attribute)?;
    }
    Ok(own)
}

/// What the prefix, or none, is bound to by a tag, or else around it.
fn found<'b, 's>(
    own: &'b Bindings<'s>,
    opens: &'b [Open<'s>],
    prefix: Option<&'s str>,
) -> Option<&'b Option<RcStr>>
    ensures { option_map (λ s. space_view s.now) result ≡ over (bindings_view own.now)
        (scope_of (opens_of opens.now)) (option_map spelled prefix.entry) }
{
    match own.get(prefix) {
        Some(space) => Some(space),
        None => found_around(opens, prefix),
    }
}

/// A namespace once more.
fn shared_space(space: &Option<RcStr>) -> Result<Option<RcStr>, TreeError>
    ensures { Gives refusal_of space_view result (Ok (space_view space.now)) }
{
    match space {
        Some(space) => Ok(Some(space.clone()?)),
        None => Ok(None),
    }
}

/// The namespace of a prefix that stands there and has to be declared.
fn bound_space<'s>(
    own: &Bindings<'s>,
    opens: &[Open<'s>],
    left: usize,
    prefix: &'s str,
) -> Result<Option<RcStr>, TreeError>
    ensures { Gives refusal_of space_view result (or_unbound left (over (bindings_view own.now)
        (scope_of (opens_of opens.now)) (Some (chars prefix.now)))) }
{
    match found(own, opens, Some(prefix)) {
        Some(space) => shared_space(space),
        None => Err(TreeError::Fault {
            fault: Fault::Unbound,
            left,
        }),
    }
}

/// The namespace of a prefix that stands there.
fn space_of<'s>(
    alloc: Global,
    own: &Bindings<'s>,
    opens: &[Open<'s>],
    left: usize,
    prefix: &'s str,
) -> Result<Option<RcStr>, TreeError>
    ensures { Gives refusal_of space_view result (space_of
        (over (bindings_view own.now) (scope_of (opens_of opens.now))) left (chars prefix.now)) }
{
    if is_word(Some(prefix), "xml") {
        return Ok(Some(xml_space(alloc)?));
    }
    bound_space(own, opens, left, prefix)
}

/// The default namespace, if there is one.
fn default_space<'s>(own: &Bindings<'s>, opens: &[Open<'s>]) -> Result<Option<RcStr>, TreeError>
    ensures { Gives refusal_of space_view result
        (Ok (default_of (over (bindings_view own.now) (scope_of (opens_of opens.now)) None))) }
{
    match found(own, opens, None) {
        Some(space) => shared_space(space),
        None => Ok(None),
    }
}

/// The namespace of an element whose name has this prefix, or none.
fn element_space<'s>(
    alloc: Global,
    own: &Bindings<'s>,
    opens: &[Open<'s>],
    left: usize,
    prefix: Option<&'s str>,
) -> Result<Option<RcStr>, TreeError>
    ensures { Gives refusal_of space_view result (element_space
        (over (bindings_view own.now) (scope_of (opens_of opens.now))) left
        (option_map spelled prefix.entry)) }
{
    match prefix {
        Some(prefix) => space_of(alloc, own, opens, left, prefix),
        None => default_space(own, opens),
    }
}

/// The namespace of an attribute whose name has this prefix, or none.
fn attribute_space<'s>(
    alloc: Global,
    own: &Bindings<'s>,
    opens: &[Open<'s>],
    left: usize,
    prefix: Option<&'s str>,
) -> Result<Option<RcStr>, TreeError>
    ensures { Gives refusal_of space_view result (attribute_space
        (over (bindings_view own.now) (scope_of (opens_of opens.now))) left
        (option_map spelled prefix.entry)) }
{
    match prefix {
        Some(prefix) => space_of(alloc, own, opens, left, prefix),
        None => Ok(None),
    }
}

/// An attribute, with its name in this namespace.
fn named_in<'s>(space: Option<RcStr>, attribute: Placed<Valued<'s>>) -> Placed<Attribute<'s>>
    ensures { placed_view attribute_view result
        ≡ named_in (space_view space) (placed_view valued_view attribute.entry) }
{
    let Placed { v, left } = attribute;
    let Valued { name, value } = v;
    let name = FullName {
        space,
        local: name.local,
    };
    Placed {
        v: Attribute { name, value },
        left,
    }
}

/// Appends an attribute with its expanded name.
fn push_named<'s>(
    alloc: Global,
    own: &Bindings<'s>,
    opens: &[Open<'s>],
    attributes: &mut Vec<Placed<Attribute<'s>>>,
    attribute: Placed<Valued<'s>>,
) -> Result<(), TreeError>
    ensures { Leaves refusal_of result (attributes_view attributes.new)
        (with_named (over (bindings_view own.now) (scope_of (opens_of opens.now)))
        (attributes_view attributes.old) (placed_view valued_view attribute.entry)) }
{
    let space = attribute_space(alloc, own, opens, attribute.left, attribute.v.name.prefix)?;
    let named = named_in(space, attribute);
    attributes.push(named)?;
    Ok(())
}

/// Appends an attribute with its expanded name, if it declares nothing.
fn push_expanded<'s>(
    alloc: Global,
    own: &Bindings<'s>,
    opens: &[Open<'s>],
    attributes: &mut Vec<Placed<Attribute<'s>>>,
    attribute: Placed<Valued<'s>>,
) -> Result<(), TreeError>
    ensures { Leaves refusal_of result (attributes_view attributes.new)
        (expand (over (bindings_view own.now) (scope_of (opens_of opens.now)))
        (attributes_view attributes.old) (placed_view valued_view attribute.entry)) }
{
    match declared_prefix(attribute.v.name) {
        Some(_) => Ok(()),
        None => push_named(alloc, own, opens, attributes, attribute),
    }
}

/// The attributes of a tag that declare nothing, with their expanded names.
fn expanded<'s>(
    alloc: Global,
    own: &Bindings<'s>,
    opens: &[Open<'s>],
    values: Vec<Placed<Valued<'s>>>,
) -> Result<Vec<Placed<Attribute<'s>>>, TreeError>
    ensures { Gives refusal_of attributes_view result
        (expanded (over (bindings_view own.now) (scope_of (opens_of opens.now)))
        (values_view values.entry)) }
{
    let mut attributes = Vec::with_capacity(alloc, values.len())?;
    for value in values {
        push_expanded(alloc, own, opens, &mut attributes, value)?;
    }
    Ok(attributes)
}

/// Where the first attribute stands that has the expanded name of an earlier one.
#[tactic(auto, using(crate::proofs::NamesMet::alone_unrepeated))]
fn repeated(
    alloc: Global,
    attributes: &[Placed<Attribute<'_>>],
) -> Result<Option<usize>, AllocError>
    ensures { IfOk result (λ left. left ≡ repeated (λ n. false)
        (map (placed_view attribute_view) attributes.now)) }
{
    if attributes.len() < 2 {
        Ok(None)
    } else {
        repeated_among(alloc, attributes)
    }
}

/// The same of any number of attributes.
fn repeated_among(
    alloc: Global,
    attributes: &[Placed<Attribute<'_>>],
) -> Result<Option<usize>, AllocError>
    ensures { IfOk result (λ left. left ≡ repeated (λ n. false)
        (map (placed_view attribute_view) attributes.now)) }
{
    let mut met = BTreeSet::new(alloc);
    for attribute in attributes {
        let is_new = add_full_name(&mut met, &attribute.v.name)?;
        if !is_new {
            return Ok(Some(attribute.left));
        }
    }
    Ok(None)
}

/// The attributes, if no two have one expanded name.
fn distinct<'s>(
    alloc: Global,
    attributes: Vec<Placed<Attribute<'s>>>,
) -> Result<Vec<Placed<Attribute<'s>>>, TreeError>
    ensures { Gives refusal_of attributes_view result
        (distinct (attributes_view attributes.entry)) }
{
    let left = repeated(alloc, attributes.as_slice())?;
    match left {
        None => Ok(attributes),
        Some(left) => Err(TreeError::Fault {
            fault: Fault::Repeated,
            left,
        }),
    }
}

/// What a tag says that stands there within these open elements.
#[tactic(auto, unfolding(crate::specs::Names::said))]
pub(crate) fn tag_said<'s>(
    alloc: Global,
    opens: &[Open<'s>],
    left: usize,
    tag: &Tag<'s>,
) -> Result<Said<'s>, TreeError>
    ensures { Gives refusal_of said_view result
        (said (scope_of (opens_of opens.now)) left (tag_view tag.now)) }
{
    let values = all_valued(alloc, tag.attributes.as_slice())?;
    let own = declared(alloc, values.as_slice())?;
    let all = expanded(alloc, &own, opens, values)?;
    let attributes = distinct(alloc, all)?;
    let space = element_space(alloc, &own, opens, left, tag.name.prefix)?;
    let name = FullName {
        space,
        local: tag.name.local,
    };
    Ok(Said {
        own,
        name,
        attributes,
    })
}
