//! How a cite stands among the others, and what is printed of it.

/// Whether the cite before is of the same entry, and whether its locator is the same.
#[derive(Clone, Copy, Debug, PartialEq, Eq, Hash)]
pub enum IbidState {
    Different,
    IbidWithLocator,
    Ibid,
}

/// Which identifiers cites printed. None by default.
#[derive(Clone, Copy, Debug, Default, PartialEq, Eq, Hash)]
pub enum IdentifierUsage {
    #[default]
    None,
    OnlyCitationLabel,
    OnlyCitationNumber,
    Mixed,
}

/// What a cite is for, where it is no ordinary one.
#[derive(Clone, Copy, Debug, PartialEq, Eq, Hash)]
pub enum CitePurpose {
    Author,
    Year,
    Full,
    Prose,
}

/// What collapsing leaves of a cite: its first date, or its suffix.
#[derive(Clone, Copy, Debug, PartialEq, Eq, Hash)]
pub enum CollapseVerdict {
    First,
    YearSuffix,
}
