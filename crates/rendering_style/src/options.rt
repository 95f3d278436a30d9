//! What a style says of names.

use rendering_taxonomy::{DelimiterBehavior, NameAnd, NameAsSortOrder, NameForm};

/// What is specified for names; each option may be left open.
#[derive(Debug, Default, PartialEq, Eq, Drop)]
pub struct NameOptions {
    /// What stands before the last name.
    pub and: Option<NameAnd>,
    /// The text between names.
    pub delimiter: Option<String>,
    /// Whether the delimiter stands before the last name.
    pub delimiter_precedes_last: Option<DelimiterBehavior>,
    /// From how many names on not all are shown.
    pub et_al_min: Option<u32>,
    /// How many are shown then.
    pub et_al_use_first: Option<u32>,
    /// From how many names on not all are shown in subsequent cites, and how many are shown then.
    pub et_al_subsequent_min: Option<u32>,
    pub et_al_subsequent_use_first: Option<u32>,
    /// Whether the last name is shown after those left out.
    pub et_al_use_last: Option<bool>,
    pub form: Option<NameForm>,
    /// What stands after each initial; given names are cut to initials where this is specified.
    pub initialize_with: Option<String>,
    /// Which names are inverted.
    pub name_as_sort_order: Option<NameAsSortOrder>,
    /// What stands after the family name of an inverted name.
    pub sort_separator: Option<String>,
    /// Whether the particle of a family name goes after the given name.
    pub demote_non_dropping_particle: Option<bool>,
    /// Whether the delimiter stands before the term for the names left out.
    pub delimiter_precedes_et_al: Option<DelimiterBehavior>,
    /// Whether whole given names are cut to initials; else only what stands behind initials changes.
    pub initialize: Option<bool>,
    /// Whether hyphens stay between initials.
    pub initialize_with_hyphen: Option<bool>,
    /// Whether each run of letters of a given name has an initial; else each word of it has one.
    pub splits_initials: Option<bool>,
    /// The text between the people of two variables, where their node says none.
    pub names_delimiter: Option<String>,
}
