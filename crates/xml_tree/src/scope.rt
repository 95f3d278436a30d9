//! What prefixes are bound to.

ghost use Rattle.std.specs.Prelude.{◌≡◌, IfOk};
ghost use Rattle.std.specs.Option.{option_map};
ghost use Rattle.std.specs.Str.{chars};
ghost use Rattle.laws.specs.Text.{spelled, if_filled};
ghost use Rattle.xml_text.specs.Views.{name_view};
ghost use Rattle.xml_tree.specs.Scope.{same_text, same_prefix, same_name, is_word, declared_prefix, keeps_xml, is_of_xmlns, binds_something, is_allowed, xml_space};
ghost use Rattle.xml_tree.specs.Views.{shared, space_view};

use std::alloc::{AllocError, Global};
use std::rc::RcStr;
use texts::{has_text, split_first};
use xml_text::Name;

/// Whether two texts are one.
fn same_text(a: &str, b: &str) -> bool
    ensures { result ≡ same_text (chars a.now) (chars b.now) }
{
    a == b
}

/// Whether two texts that may be absent are one, or both absent.
fn same_prefix(a: Option<&str>, b: Option<&str>) -> bool
    ensures { result ≡ same_prefix (option_map spelled a.entry) (option_map spelled b.entry) }
{
    match (a, b) {
        (Some(a), Some(b)) => same_text(a, b),
        (None, None) => true,
        _ => false,
    }
}

/// Whether two names are written in one way.
pub(crate) fn same_name(a: &Name<'_>, b: &Name<'_>) -> bool
    ensures { result ≡ same_name (name_view a.now) (name_view b.now) }
{
    same_prefix(a.prefix, b.prefix) && same_text(a.local, b.local)
}

/// A namespace, borrowed.
pub(crate) fn borrowed_space(space: &Option<RcStr>) -> Option<&str>
    ensures { option_map spelled result ≡ space_view space.now }
{
    match space {
        Some(space) => Some(space.as_str()),
        None => None,
    }
}

/// Whether the text is there, and is this word.
pub(crate) fn is_word(text: Option<&str>, word: &str) -> bool
    ensures { result ≡ is_word word.now (option_map spelled text.entry) }
{
    match text {
        Some(text) => same_text(text, word),
        None => false,
    }
}

/// The prefix that an attribute of this name declares, if it declares one.
pub(crate) fn declared_prefix<'s>(name: Name<'s>) -> Option<Option<&'s str>>
    ensures { option_map (λ p. option_map spelled p) result
        ≡ declared_prefix (name_view name.entry) }
{
    if is_word(name.prefix, "xmlns") {
        Some(Some(name.local))
    } else if name.prefix.is_none() && is_word(Some(name.local), "xmlns") {
        Some(None)
    } else {
        None
    }
}

/// Whether a declaration binds `xml` to its own namespace alone, and nothing else to that.
fn keeps_xml(prefix: Option<&str>, space: &str) -> bool
    ensures { result ≡ keeps_xml (option_map spelled prefix.entry) (chars space.now) }
{
    let is_xml = is_word(Some(space), "http://www.w3.org/XML/1998/namespace");
    if is_word(prefix, "xml") {
        is_xml
    } else {
        !is_xml
    }
}

/// Whether this is the prefix or the namespace of declarations.
fn is_of_xmlns(prefix: Option<&str>, space: &str) -> bool
    ensures { result ≡ is_of_xmlns (option_map spelled prefix.entry) (chars space.now) }
{
    is_word(prefix, "xmlns") || is_word(Some(space), "http://www.w3.org/2000/xmlns/")
}

/// Whether a declaration binds a prefix to something, or is one of the default namespace.
fn binds_something(prefix: Option<&str>, space: &str) -> bool
    ensures { result ≡ binds_something (option_map spelled prefix.entry) (chars space.now) }
{
    prefix.is_none() || has_text(space)
}

/// Whether a declaration may bind the prefix, or none, to the namespace.
pub(crate) fn is_allowed(prefix: Option<&str>, space: &str) -> bool
    ensures { result ≡ is_allowed (option_map spelled prefix.entry) (chars space.now) }
{
    !is_of_xmlns(prefix, space) && (keeps_xml(prefix, space) && binds_something(prefix, space))
}

/// The namespace of this name, if the name is not empty.
pub(crate) fn space_if_filled(alloc: Global, space: &str) -> Result<Option<RcStr>, AllocError>
    ensures { IfOk result (λ s. space_view s ≡ if_filled (chars space.now)) }
{
    match split_first(space) {
        Some(_) => Ok(Some(RcStr::from_str(alloc, space)?)),
        None => Ok(None),
    }
}

/// The namespace that the prefix `xml` is bound to.
pub(crate) fn xml_space(alloc: Global) -> Result<RcStr, AllocError>
    ensures { IfOk result (λ s. shared s ≡ xml_space) }
{
    let space = RcStr::from_str(alloc, "http://www.w3.org/XML/1998/namespace")?;
    Ok(space)
}
