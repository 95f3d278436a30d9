//! Whole styles.

ghost use Rattle.std.specs.Prelude.{◌≡◌, map, IfOk};
ghost use Rattle.std.specs.Option.{option_map};
ghost use Rattle.xml_tree.specs.Views.{element_view};
ghost use Rattle.rendering_locale.specs.CodeViews.{code_view};
ghost use Rattle.rendering_style.specs.Views.{options_view, citation_layout_view, bibliography_layout_view, sort_key_view, style_parts_view};
ghost use Rattle.csl_nodes.specs.Views.{words_view};
ghost use Rattle.csl_styles.specs.Styles as specs;

use crate::bibliographies::bibliography;
use crate::citations::citation;
use crate::information::categories_of;
use crate::layouts::empty_layout;
use crate::locales::locales_of;
use crate::locators::asks_locator;
use crate::macros::macros_of;
use crate::sorting::sort_keys;
use csl_nodes::{Words, name_options};
use csl_words::{CLASSES, PAGE_RANGES, attribute, part_called, value_by};
use rendering_locale::LocaleCode;
use rendering_style::{Bibliography, Citation, NameOptions, SortKey, StyleParts};
use rendering_taxonomy::{PageRule, StyleClass};
use std::alloc::{AllocError, Global};
use texts::owned;
use xml_tree::Element;

/// Options of names under which particles go after given names, where they say nothing of it.
fn demoting(options: NameOptions) -> NameOptions
    ensures { options_view result ≡ specs.demoting (options_view options) }
{
    NameOptions {
        demote_non_dropping_particle: Some(options.demote_non_dropping_particle.unwrap_or(true)),
        ..options
    }
}

/// Options of names under which full stops part what has an initial.
fn splitting(options: NameOptions) -> NameOptions
    ensures { options_view result ≡ specs.splitting (options_view options) }
{
    NameOptions {
        splits_initials: Some(true),
        ..options
    }
}

/// The options of names that a style has for all of its layouts.
fn style_options(alloc: Global, element: &Element<'_>) -> Result<NameOptions, AllocError>
    ensures { IfOk result (λ o. options_view o
        ≡ specs.style_options (element_view element.now)) }
{
    let own = name_options(alloc, "name-form", "name-delimiter", element)?;
    Ok(splitting(demoting(own)))
}

/// The default locale of a style.
pub(crate) fn default_locale(
    alloc: Global,
    element: &Element<'_>,
) -> Result<Option<LocaleCode>, AllocError>
    ensures { IfOk result (λ c. option_map code_view c
        ≡ specs.default_locale (element_view element.now)) }
{
    match attribute("default-locale", element) {
        Some(code) => Ok(Some(LocaleCode(owned(alloc, code)?))),
        None => Ok(None),
    }
}

/// The citation of a style.
fn citation_in(alloc: Global, words: &Words, element: &Element<'_>) -> Result<Citation, AllocError>
    ensures { IfOk result (λ c. citation_layout_view c
        ≡ specs.citation_in (words_view words.now) (element_view element.now)) }
{
    match part_called("citation", element) {
        Some(part) => citation(alloc, words, asks_locator(element), part),
        None => Ok(Citation::new(empty_layout(alloc))),
    }
}

/// The bibliography of a style, if it has one.
fn bibliography_in(
    alloc: Global,
    words: &Words,
    element: &Element<'_>,
) -> Result<Option<Bibliography>, AllocError>
    ensures { IfOk result (λ b. option_map bibliography_layout_view b
        ≡ specs.bibliography_in (words_view words.now) (element_view element.now)) }
{
    match part_called("bibliography", element) {
        Some(part) => Ok(Some(bibliography(alloc, words, part)?)),
        None => Ok(None),
    }
}

/// The keys of the citation or of the bibliography of a style.
fn keys_in(alloc: Global, name: &str, element: &Element<'_>) -> Result<Vec<SortKey>, AllocError>
    ensures { IfOk result (λ v. map sort_key_view v.items
        ≡ specs.keys_in name.now (element_view element.now)) }
{
    match part_called(name, element) {
        Some(part) => sort_keys(alloc, part),
        None => Ok(Vec::new(alloc)),
    }
}

/// What the style is made of that an element means, by the words of terms that no list has.
///
/// # Errors
/// Where a request for memory was refused.
pub fn style(alloc: Global, words: &Words, element: &Element<'_>) -> Result<StyleParts, AllocError>
    ensures { IfOk result (λ p. style_parts_view p
        ≡ specs.style (words_view words.now) (element_view element.now)) }
{
    let categories = categories_of(alloc, element)?;
    let default_locale = default_locale(alloc, element)?;
    let citation_sort = keys_in(alloc, "citation", element)?;
    let bibliography_sort = keys_in(alloc, "bibliography", element)?;
    let name_options = style_options(alloc, element)?;
    let locales = locales_of(alloc, words, element)?;
    let macros = macros_of(alloc, words, element)?;
    let bibliography = bibliography_in(alloc, words, element)?;
    let citation = citation_in(alloc, words, element)?;
    Ok(StyleParts {
        class: value_by(CLASSES, "class", element).unwrap_or(StyleClass::InText),
        categories,
        default_locale,
        page_ranges: value_by(PAGE_RANGES, "page-range-format", element),
        page_rule: PageRule::Joined,
        name_options,
        locales,
        macros,
        citation,
        bibliography,
        citation_sort,
        bibliography_sort,
    })
}
