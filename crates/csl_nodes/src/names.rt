//! Names, without what is printed in their place.

ghost use Rattle.std.specs.Prelude.{◌≡◌, ℕ, List, IfOk, codes};
ghost use Rattle.std.specs.List.{list_any};
ghost use Rattle.std.specs.Option.{option_map};
ghost use Rattle.rendering_taxonomy.specs.Variables.{is_name_variable};
ghost use Rattle.rendering_taxonomy.specs.declared.variable.NameVariable.TheVariants as people;
ghost use Rattle.rendering_style.specs.Views.{name_part_view, name_look_view, et_al_view, label_look_view, names_node_view};
ghost use Rattle.xml_tree.specs.Trees.{content_of};
ghost use Rattle.xml_tree.specs.Views.{element_view, children_of};
ghost use Rattle.csl_words.specs.Elements.{content_in, part_called};
ghost use Rattle.csl_nodes.specs.Looks.{label_look};
ghost use Rattle.csl_nodes.specs.Names.{name_part, is_part, first_part, part_for, name_look, et_al, label_leads, label_is_first, merges, names_node};

use crate::looks::{formatting, label_look, look, text_case};
use crate::options::name_options;
use csl_words::{
    ET_AL_TERMS, NAME_VARIABLES, children_of, is_called, part_called, printed, printed_text, says,
    value_by, values_by,
};
use rendering_style::{EtAl, LabelLook, Name, NamePart, Names};
use rendering_taxonomy::{EtAlTerm, NameVariable};
use std::alloc::{AllocError, Global};
use xml_tree::Element;

/// What is specified for a part of single names.
fn name_part(alloc: Global, element: &Element<'_>) -> Result<NamePart, AllocError>
    ensures { IfOk result (λ p. name_part_view p ≡ name_part (element_view element.now)) }
{
    let prefix = printed_text(alloc, "prefix", element)?;
    let suffix = printed_text(alloc, "suffix", element)?;
    Ok(NamePart {
        formatting: formatting(element),
        text_case: text_case(element),
        prefix,
        suffix,
    })
}

/// Whether an element is for the part of that word.
fn is_part(word: &str, element: &Element<'_>) -> bool
    ensures { result ≡ is_part word.now (element_view element.now) }
{
    is_called("name-part", element) && says("name", word, element)
}

/// The first of these elements that is for the part of that word.
fn first_part<'e, 's>(word: &str, children: &'e [(String, Element<'s>)]) -> Option<&'e Element<'s>>
    ensures { (t : List ℕ) → option_map (λ e. element_view e.now) result
        ≡ first_part word.now (content_of (children_of children.now) t) }
{
    for child in children {
        if is_part(word, &child.1) {
            return Some(&child.1);
        }
    }
    None
}

/// The first element in an element that is for the part of that word.
fn part_element<'e, 's>(word: &str, element: &'e Element<'s>) -> Option<&'e Element<'s>>
    ensures { option_map (λ e. element_view e.now) result
        ≡ first_part word.now (content_in (element_view element.now)) }
{
    first_part(word, children_of(element))
}

/// What is specified for the part of that word.
fn part_for(
    alloc: Global,
    word: &str,
    element: &Element<'_>,
) -> Result<Option<NamePart>, AllocError>
    ensures { IfOk result (λ p. option_map name_part_view p
        ≡ part_for word.now (element_view element.now)) }
{
    match part_element(word, element) {
        Some(part) => Ok(Some(name_part(alloc, part)?)),
        None => Ok(None),
    }
}

/// What is specified for single names.
fn name_look(alloc: Global, element: &Element<'_>) -> Result<Name, AllocError>
    ensures { IfOk result (λ n. name_look_view n ≡ name_look (element_view element.now)) }
{
    let options = name_options(alloc, "form", "delimiter", element)?;
    let prefix = printed_text(alloc, "prefix", element)?;
    let suffix = printed_text(alloc, "suffix", element)?;
    let given = part_for(alloc, "given", element)?;
    let family = part_for(alloc, "family", element)?;
    Ok(Name {
        options,
        formatting: formatting(element),
        prefix,
        suffix,
        given,
        family,
    })
}

/// What is specified for single names, if an element has one for it.
fn name_in(alloc: Global, element: &Element<'_>) -> Result<Option<Name>, AllocError>
    ensures { IfOk result (λ n. option_map name_look_view n
        ≡ option_map name_look (part_called (codes "name") (element_view element.now))) }
{
    match part_called("name", element) {
        Some(part) => Ok(Some(name_look(alloc, part)?)),
        None => Ok(None),
    }
}

/// The term for the names left out.
fn et_al(element: &Element<'_>) -> EtAl
    ensures { et_al_view result ≡ et_al (element_view element.now) }
{
    EtAl {
        term: value_by(ET_AL_TERMS, "term", element).unwrap_or(EtAlTerm::EtAl),
        formatting: formatting(element),
    }
}

/// The term for the names left out, if an element has one for it.
fn et_al_in(element: &Element<'_>) -> Option<EtAl>
    ensures { option_map et_al_view result
        ≡ option_map et_al (part_called (codes "et-al") (element_view element.now)) }
{
    match part_called("et-al", element) {
        Some(part) => Some(et_al(part)),
        None => None,
    }
}

/// The look of the label of names, if an element has one for it.
fn label_in(alloc: Global, element: &Element<'_>) -> Result<Option<LabelLook>, AllocError>
    ensures { IfOk result (λ l. option_map label_look_view l
        ≡ option_map label_look (part_called (codes "label") (element_view element.now))) }
{
    match part_called("label", element) {
        Some(part) => Ok(Some(label_look(alloc, part)?)),
        None => Ok(None),
    }
}

/// Whether the first of the elements for a label and for single names is one for a label.
fn label_leads(children: &[(String, Element<'_>)]) -> bool
    ensures { (t : List ℕ) → result ≡ label_leads (content_of (children_of children.now) t) }
{
    for child in children {
        if is_called("label", &child.1) {
            return true;
        }
        if is_called("name", &child.1) {
            return false;
        }
    }
    false
}

/// Whether a label stands before the names.
fn label_is_first(element: &Element<'_>) -> bool
    ensures { result ≡ label_is_first (element_view element.now) }
{
    part_called("name", element).is_some() && label_leads(children_of(element))
}

/// Whether a variable is that of editors.
fn is_editor(variable: NameVariable) -> bool
    ensures { result ≡ is_name_variable people.Editor variable }
{
    match variable {
        NameVariable::Editor => true,
        _ => false,
    }
}

/// Whether a variable is that of translators.
fn is_translator(variable: NameVariable) -> bool
    ensures { result ≡ is_name_variable people.Translator variable }
{
    match variable {
        NameVariable::Translator => true,
        _ => false,
    }
}

/// Whether editors are asked for.
fn has_editor(variables: &[NameVariable]) -> bool
    ensures { result ≡ list_any (is_name_variable people.Editor) variables.now }
{
    variables.iter().any(|variable| is_editor(*variable))
}

/// Whether translators are asked for.
fn has_translator(variables: &[NameVariable]) -> bool
    ensures { result ≡ list_any (is_name_variable people.Translator) variables.now }
{
    variables.iter().any(|variable| is_translator(*variable))
}

/// Whether editors and translators are asked for together.
fn merges(variables: &[NameVariable]) -> bool
    ensures { result ≡ merges variables.now }
{
    has_editor(variables) && has_translator(variables)
}

/// The people of variables.
pub(crate) fn names_of(alloc: Global, element: &Element<'_>) -> Result<Names, AllocError>
    ensures { IfOk result (λ n. names_node_view n ≡ names_node (element_view element.now)) }
{
    let variables = values_by(alloc, NAME_VARIABLES, "variable", element)?;
    let name = name_in(alloc, element)?;
    let label = label_in(alloc, element)?;
    let delimiter = printed(alloc, "delimiter", element)?;
    let look = look(alloc, element)?;
    let merges_editor_translator = merges(variables.as_slice());
    Ok(Names {
        variables,
        name,
        et_al: et_al_in(element),
        label,
        label_is_first: label_is_first(element),
        merges_editor_translator,
        delimiter,
        look,
    })
}
