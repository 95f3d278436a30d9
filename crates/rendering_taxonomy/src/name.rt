//! How names are printed.

ghost use Rattle.std.specs.Prelude.{◌≡◌};
ghost use Rattle.rendering_taxonomy.specs.NameForms.{is_long, raised};

/// What stands before the last name.
#[derive(Clone, Copy, Debug, PartialEq, Eq, Hash)]
pub enum NameAnd {
    Text,
    Symbol,
}

/// Where the delimiter stands before the last name.
#[derive(Clone, Copy, Debug, PartialEq, Eq, Hash)]
pub enum DelimiterBehavior {
    Contextual,
    Always,
    Never,
    AfterInvertedName,
}

/// A form of names.
#[derive(Clone, Copy, Debug, PartialEq, Eq, Hash)]
pub enum NameForm {
    Long,
    Short,
    Count,
}

/// Which names are inverted.
#[derive(Clone, Copy, Debug, PartialEq, Eq, Hash)]
pub enum NameAsSortOrder {
    First,
    All,
}

/// The term for the names left out.
#[derive(Clone, Copy, Debug, PartialEq, Eq, Hash)]
pub enum EtAlTerm {
    EtAl,
    AndOthers,
}

/// How much of a name is printed, from the least on.
#[derive(Clone, Copy, Debug, PartialEq, Eq, Hash)]
pub enum DisambiguatedNameForm {
    Count,
    ShortInitialized,
    ShortFull,
    LongInitialized,
    LongFull,
}

impl DisambiguatedNameForm {
    /// The next form in which more of the given names is printed: their initials first, or the whole names where these are
    /// allowed. None where there is no such form.
    pub fn disambiguate(self, allow_full_first_name: bool) -> Option<DisambiguatedNameForm>
        ensures { result ≡ raised self allow_full_first_name }
    {
        match (self, allow_full_first_name) {
            (DisambiguatedNameForm::ShortInitialized, _) => {
                Some(DisambiguatedNameForm::LongInitialized)
            }
            (DisambiguatedNameForm::ShortFull | DisambiguatedNameForm::LongInitialized, true) => {
                Some(DisambiguatedNameForm::LongFull)
            }
            (DisambiguatedNameForm::ShortFull | DisambiguatedNameForm::LongInitialized, false)
            | (DisambiguatedNameForm::Count | DisambiguatedNameForm::LongFull, _) => None,
        }
    }

    /// Whether given names are printed.
    pub fn is_long(self) -> bool
        ensures { result ≡ is_long self }
    {
        match self {
            DisambiguatedNameForm::LongInitialized | DisambiguatedNameForm::LongFull => true,
            DisambiguatedNameForm::Count
            | DisambiguatedNameForm::ShortInitialized
            | DisambiguatedNameForm::ShortFull => false,
        }
    }
}
