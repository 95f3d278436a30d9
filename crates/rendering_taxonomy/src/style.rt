//! Attributes of a whole style.

/// Where citations stand.
#[derive(Clone, Copy, Debug, PartialEq, Eq, Hash)]
pub enum StyleClass {
    InText,
    Note,
}

/// What citations are made of.
#[derive(Clone, Copy, Debug, PartialEq, Eq, Hash)]
pub enum StyleCategory {
    Author,
    AuthorDate,
    Label,
    Note,
    Numeric,
}

/// How citations of more than one cite are collapsed.
#[derive(Clone, Copy, Debug, PartialEq, Eq, Hash)]
pub enum Collapse {
    CitationNumber,
    Year,
    YearSuffix,
    YearSuffixRanged,
}

/// How given names are added to disambiguate cites.
#[derive(Clone, Copy, Debug, PartialEq, Eq, Hash)]
pub enum DisambiguationRule {
    ByCite,
    AllNames,
    AllNamesWithInitials,
    PrimaryName,
    PrimaryNameWithInitials,
}

/// Which names of a bibliography item are substituted.
#[derive(Clone, Copy, Debug, PartialEq, Eq, Hash)]
pub enum SubsequentAuthorSubstituteRule {
    CompleteAll,
    CompleteEach,
    PartialEach,
    PartialFirst,
}

/// How the second field of bibliography items is aligned.
#[derive(Clone, Copy, Debug, PartialEq, Eq, Hash)]
pub enum SecondFieldAlign {
    Margin,
    Flush,
}

/// The direction in which items are sorted by a key. Ascending by default.
#[derive(Clone, Copy, Debug, Default, PartialEq, Eq, Hash)]
pub enum SortDirection {
    #[default]
    Ascending,
    Descending,
}
