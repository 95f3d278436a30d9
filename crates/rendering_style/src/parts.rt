//! The parts of a style.

use crate::node::Node;
use crate::options::NameOptions;
use crate::sort::SortKey;
use rendering_locale::{Locale, LocaleCode};
use rendering_taxonomy::{
    Collapse, DisambiguationRule, FormattingChanges, PageRangeFormat, PageRule, SecondFieldAlign,
    StyleCategory, StyleClass, SubsequentAuthorSubstituteRule,
};
use std::num::NonZeroI16;

/// Nodes, how they look and what stands round them. An affix or a delimiter that is left open is not the same as an empty one.
#[derive(Debug, PartialEq, Eq, Drop)]
pub struct Layout {
    pub nodes: Vec<Node>,
    pub formatting: FormattingChanges,
    pub prefix: Option<String>,
    pub suffix: Option<String>,
    /// The text between cites.
    pub delimiter: Option<String>,
}

/// Nodes under a name. Of equal names the first counts.
#[derive(Debug, PartialEq, Eq, Drop)]
pub struct Macro {
    pub name: String,
    pub nodes: Vec<Node>,
}

/// How cites are printed, disambiguated, gathered and collapsed.
#[derive(Debug, PartialEq, Eq, Drop)]
pub struct Citation {
    pub layout: Layout,
    pub name_options: NameOptions,
    /// Whether names, given names by the rule and year suffixes disambiguate like cites.
    pub add_names: bool,
    pub add_givenname: bool,
    pub givenname_rule: DisambiguationRule,
    pub add_year_suffix: bool,
    pub collapse: Option<Collapse>,
    /// The text between the cites of a group, after a collapsed group, and between suffixes of years.
    pub cite_group_delimiter: Option<String>,
    pub after_collapse_delimiter: Option<String>,
    pub year_suffix_delimiter: Option<String>,
    /// Up to how many notes back a note is near.
    pub near_note_distance: u32,
    /// Whether the first of alike cites takes the branch for alike ones too.
    pub first_chooses_too: bool,
    /// Whether only a citation of one cite is repeated by ibid, and a cite that repeats the one before it and prints neither people nor a
    /// date is alike to no other.
    pub ibid_after_one: bool,
    /// Whether names are compared with those of other entries alone.
    pub same_entry_is_no_rival: bool,
    /// Whether year suffixes go by the numbers of entries, and not by first cites.
    pub suffixes_by_number: bool,
    /// Whether given names are added by the rule before cites are compared.
    pub raises_names_first: bool,
    /// Whether cites are gathered whose names print the same text of the same people, whoever they leave out.
    pub gathers_by_text: bool,
    /// Whether a cite with a locator stands in no run of numbers.
    pub locators_end_runs: bool,
    /// Whether a cite whose years are collapsed leaves its year out where its year suffix is of the class of the one shown before it.
    pub repeats_no_years: bool,
}

impl Citation {
    ghost use Rattle.std.specs.Prelude.{◌≡◌};
    ghost use Rattle.rendering_style.specs.Styles.{plain_citation};
    ghost use Rattle.rendering_style.specs.Views.{citation_layout_view, layout_view};

    /// Cites in the layout that are not disambiguated, not gathered and not collapsed. A note is near up to 5 notes back.
    pub fn new(layout: Layout) -> Citation
        ensures { citation_layout_view result ≡ plain_citation (layout_view layout) }
    {
        Citation {
            layout,
            name_options: NameOptions::default(),
            add_names: false,
            add_givenname: false,
            givenname_rule: DisambiguationRule::ByCite,
            add_year_suffix: false,
            collapse: None,
            cite_group_delimiter: None,
            after_collapse_delimiter: None,
            year_suffix_delimiter: None,
            near_note_distance: 5,
            first_chooses_too: false,
            ibid_after_one: false,
            same_entry_is_no_rival: false,
            suffixes_by_number: false,
            raises_names_first: false,
            gathers_by_text: false,
            locators_end_runs: false,
            repeats_no_years: false,
        }
    }
}

/// How the items of a bibliography are printed.
#[derive(Debug, PartialEq, Eq, Drop)]
pub struct Bibliography {
    pub layout: Layout,
    pub name_options: NameOptions,
    pub hanging_indent: bool,
    pub second_field_align: Option<SecondFieldAlign>,
    /// The space between lines, in lines.
    pub line_spacing: NonZeroI16,
    /// The space between items, in lines.
    pub entry_spacing: i16,
    /// What stands for names that are those of the item before, and by which rule.
    pub subsequent_author_substitute: Option<String>,
    pub subsequent_author_substitute_rule: SubsequentAuthorSubstituteRule,
    /// Whether it stands for names alone, so that their labels and affixes stay, and names are compared by what they print.
    pub substitutes_names_alone: bool,
}

/// What a style is made of.
#[derive(Debug, PartialEq, Eq)]
pub struct StyleParts {
    pub class: StyleClass,
    pub categories: Vec<StyleCategory>,
    pub default_locale: Option<LocaleCode>,
    /// How ranges of pages are shortened, and how a text meets the one before it.
    pub page_ranges: Option<PageRangeFormat>,
    pub page_rule: PageRule,
    pub name_options: NameOptions,
    /// The style's own locales.
    pub locales: Vec<Locale>,
    pub macros: Vec<Macro>,
    pub citation: Citation,
    pub bibliography: Option<Bibliography>,
    /// By what the cites of a citation are sorted, and the items of the bibliography; those without keys stay in their order.
    pub citation_sort: Vec<SortKey>,
    pub bibliography_sort: Vec<SortKey>,
}

impl Drop for StyleParts {
    fn drop(self) {
        let StyleParts {
            class: _,
            categories: _,
            default_locale: _,
            page_ranges: _,
            page_rule: _,
            name_options: _,
            locales: _,
            macros: _,
            citation: _,
            bibliography: _,
            citation_sort: _,
            bibliography_sort: _,
        } = self;
    }
}
