//! The language that an element says it is in.

ghost use Rattle.std.specs.Prelude.{◌≡◌, map, IfOk};
ghost use Rattle.std.specs.Option.{option_map};
ghost use Rattle.std.specs.Str.{chars, bytes_eq};
ghost use Rattle.laws.specs.Text.{text as text_of, spelled};
ghost use Rattle.xml_text.specs.Views.{placed_view};
ghost use Rattle.xml_tree.specs.Scope as scope;
ghost use Rattle.xml_tree.specs.Scope.{xml_space};
ghost use Rattle.xml_tree.specs.Views.{space_view, attribute_view, element_view};
ghost use Rattle.rendering_locale.specs.CodeViews.{code_view};
ghost use Rattle.csl_locales.specs.Languages.{is_of_xml, xml_value, language};

use rendering_locale::LocaleCode;
use std::alloc::{AllocError, Global};
use std::rc::RcStr;
use texts::owned;
use xml_text::Placed;
use xml_tree::{Attribute, Element};

/// Whether the text is this word.
#[tactic(auto, using(laws::proofs::Text::text_of_chars))]
pub(crate) fn is_word(text: &str, word: &str) -> bool
    ensures { result ≡ bytes_eq (text_of (chars text.now)) word.now }
{
    text == word
}

/// Whether a namespace is that of the prefix `xml`.
fn is_xml(space: &Option<RcStr>) -> bool
    ensures { result ≡ scope.is_word xml_space (space_view space.now) }
{
    match space {
        Some(space) => is_word(space.as_str(), "http://www.w3.org/XML/1998/namespace"),
        None => false,
    }
}

/// Whether an attribute has that local name, and the prefix `xml`.
fn is_of_xml(attribute: &Placed<Attribute<'_>>, name: &str) -> bool
    ensures { result ≡ is_of_xml name.now (placed_view attribute_view attribute.now) }
{
    is_xml(&attribute.v.name.space) && is_word(attribute.v.name.local, name)
}

/// The value of the first of these attributes that has that local name and the prefix `xml`.
fn xml_value<'e>(attributes: &'e [Placed<Attribute<'_>>], name: &str) -> Option<&'e str>
    ensures { option_map spelled result
        ≡ xml_value name.now (map (placed_view attribute_view) attributes.now) }
{
    for attribute in attributes {
        if is_of_xml(attribute, name) {
            return Some(attribute.v.value.as_str());
        }
    }
    None
}

/// The code of the language that an element says it is in.
pub(crate) fn language(
    alloc: Global,
    element: &Element<'_>,
) -> Result<Option<LocaleCode>, AllocError>
    ensures { IfOk result (λ c. option_map code_view c ≡ language (element_view element.now)) }
{
    match xml_value(element.attributes.as_slice(), "lang") {
        Some(code) => Ok(Some(LocaleCode(owned(alloc, code)?))),
        None => Ok(None),
    }
}
