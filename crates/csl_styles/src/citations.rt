//! Citations.

ghost use Rattle.std.specs.Prelude.{◌≡◌, IfOk};
ghost use Rattle.std.specs.Option.{option_map};
ghost use Rattle.laws.specs.Text.{characters};
ghost use Rattle.xml_tree.specs.Views.{element_view};
ghost use Rattle.rendering_style.specs.Views.{citation_layout_view};
ghost use Rattle.csl_nodes.specs.Views.{words_view};
ghost use Rattle.csl_styles.specs.Citations as specs;

use crate::layouts::layout_in;
use csl_nodes::{Words, name_options};
use csl_words::{COLLAPSES, GIVEN_NAME_RULES, is_true, number, printed, value_by};
use rendering_style::Citation;
use rendering_taxonomy::{Collapse, DisambiguationRule};
use std::alloc::{AllocError, Global};
use texts::owned;
use xml_tree::Element;

/// Whether given names are added to disambiguate cites alone.
fn is_by_cite(rule: DisambiguationRule) -> bool
    ensures { result ≡ specs.is_by_cite rule }
{
    match rule {
        DisambiguationRule::ByCite => true,
        DisambiguationRule::AllNames
        | DisambiguationRule::AllNamesWithInitials
        | DisambiguationRule::PrimaryName
        | DisambiguationRule::PrimaryNameWithInitials => false,
    }
}

/// The rule by which given names are added.
fn givenname_rule(element: &Element<'_>) -> DisambiguationRule
    ensures { result ≡ specs.givenname_rule (element_view element.now) }
{
    value_by(GIVEN_NAME_RULES, "givenname-disambiguation-rule", element).unwrap_or(
        DisambiguationRule::ByCite,
    )
}

/// Whether given names are added before cites are compared.
fn raises_names_first(element: &Element<'_>) -> bool
    ensures { result ≡ specs.raises_names_first (element_view element.now) }
{
    is_true("disambiguate-add-givenname", element) && !is_by_cite(givenname_rule(element))
}

/// How cites are collapsed.
fn collapse(element: &Element<'_>) -> Option<Collapse>
    ensures { result ≡ specs.collapse (element_view element.now) }
{
    value_by(COLLAPSES, "collapse", element)
}

/// Whether cites are collapsed by their years.
fn is_by_year(collapse: Option<Collapse>) -> bool
    ensures { result ≡ specs.is_by_year collapse }
{
    match collapse {
        Some(Collapse::Year) | Some(Collapse::YearSuffix) | Some(Collapse::YearSuffixRanged) =>
            true,
        Some(Collapse::CitationNumber) | None => false,
    }
}

/// The text between cites of a group that are collapsed so, where a style says none.
fn usual_delimiter(alloc: Global, collapse: Option<Collapse>) -> Result<Option<String>, AllocError>
    ensures { IfOk result (λ s. option_map characters s ≡ specs.usual_delimiter collapse) }
{
    if !is_by_year(collapse) {
        return Ok(None);
    }
    let comma = owned(alloc, ", ")?;
    Ok(Some(comma))
}

/// The text between cites of a group.
fn group_delimiter(alloc: Global, element: &Element<'_>) -> Result<Option<String>, AllocError>
    ensures { IfOk result (λ s. option_map characters s
        ≡ specs.group_delimiter (element_view element.now)) }
{
    match printed(alloc, "cite-group-delimiter", element)? {
        Some(delimiter) => Ok(Some(delimiter)),
        None => usual_delimiter(alloc, collapse(element)),
    }
}

/// Up to how many notes back a note is near.
fn near_note_distance(element: &Element<'_>) -> u32
    ensures { result ≡ specs.near_note_distance (element_view element.now) }
{
    number("near-note-distance", element).unwrap_or(5)
}

/// A citation. Where the style prints locators, these end runs of numbers.
pub(crate) fn citation(
    alloc: Global,
    words: &Words,
    prints_locators: bool,
    element: &Element<'_>,
) -> Result<Citation, AllocError>
    ensures { IfOk result (λ c. citation_layout_view c
        ≡ specs.citation (words_view words.now) prints_locators (element_view element.now)) }
{
    let cite_group_delimiter = group_delimiter(alloc, element)?;
    let after_collapse_delimiter = printed(alloc, "after-collapse-delimiter", element)?;
    let year_suffix_delimiter = printed(alloc, "year-suffix-delimiter", element)?;
    let name_options = name_options(alloc, "name-form", "name-delimiter", element)?;
    let layout = layout_in(alloc, words, element)?;
    Ok(Citation {
        layout,
        name_options,
        add_names: is_true("disambiguate-add-names", element),
        add_givenname: is_true("disambiguate-add-givenname", element),
        givenname_rule: givenname_rule(element),
        add_year_suffix: is_true("disambiguate-add-year-suffix", element),
        collapse: collapse(element),
        cite_group_delimiter,
        after_collapse_delimiter,
        year_suffix_delimiter,
        near_note_distance: near_note_distance(element),
        first_chooses_too: true,
        ibid_after_one: true,
        same_entry_is_no_rival: true,
        suffixes_by_number: true,
        raises_names_first: raises_names_first(element),
        gathers_by_text: true,
        locators_end_runs: prints_locators,
        repeats_no_years: true,
    })
}
