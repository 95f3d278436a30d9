//! The parts of a style.

use crate::styles::looks::changes;
use crate::styles::members::{maybe_count, short_or};
use crate::styles::name_options::name_options;
use crate::styles::nodes::nodes_of;
use cases::{Session, Value, member};
use csl_words::{COLLAPSES, GIVEN_NAME_RULES, SECOND_FIELDS, SUBSTITUTE_RULES};
use rendering_style::{Bibliography, Citation, Layout};
use rendering_taxonomy::{DisambiguationRule, FormattingChanges, SubsequentAuthorSubstituteRule};
use std::num::NonZeroI16;

/// The members of a layout.
const LAYOUT_MEMBERS: [&str; 5] = ["nodes", "formatting", "prefix", "suffix", "delimiter"];

/// The layout of the member `layout`; an empty one where it is left out.
fn layout(session: &mut Session, object: &Value<'_>) -> Layout {
    let Some(given) = member(object, "layout") else {
        return empty_layout(session);
    };
    session.only(given, &LAYOUT_MEMBERS);
    Layout {
        formatting: changes(session, given),
        prefix: session.maybe_owned_text(given, "prefix"),
        suffix: session.maybe_owned_text(given, "suffix"),
        delimiter: session.maybe_owned_text(given, "delimiter"),
        nodes: nodes_of(session, given, "nodes"),
    }
}

/// A layout without nodes, for which nothing is specified.
fn empty_layout(session: &mut Session) -> Layout {
    Layout {
        formatting: FormattingChanges::default(),
        prefix: None,
        suffix: None,
        delimiter: None,
        nodes: Vec::new(session.alloc),
    }
}

/// The members of a citation.
const CITATION_MEMBERS: [&str; 11] = [
    "layout",
    "name_options",
    "add_names",
    "add_givenname",
    "givenname_rule",
    "add_year_suffix",
    "collapse",
    "cite_group_delimiter",
    "after_collapse_delimiter",
    "year_suffix_delimiter",
    "near_note_distance",
];

/// How cites are printed: what the member `citation` says of them, if it is not left out.
pub(crate) fn citation(session: &mut Session, style: &Value<'_>) -> Citation {
    let Some(given) = member(style, "citation") else {
        return Citation::new(empty_layout(session));
    };
    session.only(given, &CITATION_MEMBERS);
    Citation {
        add_names: session.is_set(given, "add_names"),
        add_givenname: session.is_set(given, "add_givenname"),
        givenname_rule: session.word_or(
            given,
            "givenname_rule",
            GIVEN_NAME_RULES,
            DisambiguationRule::ByCite,
        ),
        add_year_suffix: session.is_set(given, "add_year_suffix"),
        collapse: session.maybe_word(given, "collapse", COLLAPSES),
        near_note_distance: maybe_count(session, given, "near_note_distance").unwrap_or(5),
        cite_group_delimiter: session.maybe_owned_text(given, "cite_group_delimiter"),
        after_collapse_delimiter: session.maybe_owned_text(given, "after_collapse_delimiter"),
        year_suffix_delimiter: session.maybe_owned_text(given, "year_suffix_delimiter"),
        name_options: name_options(session, given),
        layout: layout(session, given),
        first_chooses_too: false,
        ibid_after_one: false,
        same_entry_is_no_rival: false,
        suffixes_by_number: false,
        raises_names_first: false,
        gathers_by_text: false,
        locators_end_runs: false,
        repeats_no_years: false,
    }
}

/// The space between lines; none where it is 0, which is refused.
fn line_spacing(session: &mut Session, given: &Value<'_>) -> Option<NonZeroI16> {
    let spacing = NonZeroI16::new(short_or(session, given, "line_spacing", 1));
    if spacing.is_none() {
        session.want("line_spacing", "a number that is not 0");
    }
    spacing
}

/// The members of a bibliography.
const BIBLIOGRAPHY_MEMBERS: [&str; 9] = [
    "layout",
    "name_options",
    "hanging_indent",
    "second_field_align",
    "line_spacing",
    "entry_spacing",
    "substitute",
    "substitute_rule",
    "substitutes_names_alone",
];

/// The bibliography of a style, where it has one.
pub(crate) fn maybe_bibliography(session: &mut Session, style: &Value<'_>) -> Option<Bibliography> {
    let Some(given) = member(style, "bibliography") else {
        return None;
    };
    session.only(given, &BIBLIOGRAPHY_MEMBERS);
    let Some(line_spacing) = line_spacing(session, given) else {
        return None;
    };
    Some(Bibliography {
        hanging_indent: session.is_set(given, "hanging_indent"),
        second_field_align: session.maybe_word(given, "second_field_align", SECOND_FIELDS),
        line_spacing,
        entry_spacing: short_or(session, given, "entry_spacing", 1),
        subsequent_author_substitute_rule: session.word_or(
            given,
            "substitute_rule",
            SUBSTITUTE_RULES,
            SubsequentAuthorSubstituteRule::CompleteAll,
        ),
        subsequent_author_substitute: session.maybe_owned_text(given, "substitute"),
        substitutes_names_alone: session.is_set(given, "substitutes_names_alone"),
        name_options: name_options(session, given),
        layout: layout(session, given),
    })
}
