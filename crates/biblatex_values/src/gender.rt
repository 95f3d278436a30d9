//! The genders of people.

ghost use Rattle.std.specs.Prelude.{◌≡◌, IfOk};
ghost use Rattle.std.specs.List.{list_all};
ghost use Rattle.std.specs.Str.{chars};
ghost use Rattle.laws.specs.Text.{lowered};
ghost use Rattle.biblatex_values.specs.Gender.{gender_of, gender_name, plural, singular, is_female, is_male, coalesced, coalesced_many};

use std::alloc::{AllocError, Global};

/// One person, or several people, that are female, male, or neither alone.
#[derive(Clone, Copy, Debug, PartialEq, Eq, Hash)]
pub enum Gender {
    SingularFemale,
    SingularMale,
    SingularNeuter,
    PluralFemale,
    PluralMale,
    PluralNeuter,
}

impl Gender {
    /// The gender of that name in any ASCII case: `sf`, `sm`, `sn`, `pf`, `pm` or `pn`.
    pub fn read(alloc: Global, name: &str) -> Result<Option<Gender>, AllocError>
        ensures { IfOk result (λ g. g ≡ gender_of (lowered (chars name.now))) }
    {
        let name = name.to_ascii_lowercase(alloc)?;
        Ok(named(name.as_str()))
    }

    /// Its name: `sf`, `sm`, `sn`, `pf`, `pm` or `pn`.
    pub fn name(self) -> &'static str
        ensures { result.now ≡ gender_name self }
    {
        match self {
            Gender::SingularFemale => "sf",
            Gender::SingularMale => "sm",
            Gender::SingularNeuter => "sn",
            Gender::PluralFemale => "pf",
            Gender::PluralMale => "pm",
            Gender::PluralNeuter => "pn",
        }
    }

    /// The same gender, of several people.
    pub fn plural(self) -> Gender
        ensures { result ≡ plural self }
    {
        match self {
            Gender::SingularFemale | Gender::PluralFemale => Gender::PluralFemale,
            Gender::SingularMale | Gender::PluralMale => Gender::PluralMale,
            Gender::SingularNeuter | Gender::PluralNeuter => Gender::PluralNeuter,
        }
    }

    /// The same gender, of one person.
    pub fn singular(self) -> Gender
        ensures { result ≡ singular self }
    {
        match self {
            Gender::SingularFemale | Gender::PluralFemale => Gender::SingularFemale,
            Gender::SingularMale | Gender::PluralMale => Gender::SingularMale,
            Gender::SingularNeuter | Gender::PluralNeuter => Gender::SingularNeuter,
        }
    }

    /// The gender of a list together: of one its own; of more it is plural, and neuter unless all are female or all are
    /// male. An empty list has none.
    pub fn coalesce(list: &[Gender]) -> Option<Gender>
        ensures { result ≡ coalesced list.now }
    {
        match list {
            [] => None,
            [one] => Some(*one),
            _ => Some(coalesced_many(list)),
        }
    }

    /// Whether it is female, of one or several.
    fn is_female(self) -> bool
        ensures { result ≡ is_female self }
    {
        matches!(self, Gender::SingularFemale | Gender::PluralFemale)
    }

    /// Whether it is male, of one or several.
    fn is_male(self) -> bool
        ensures { result ≡ is_male self }
    {
        matches!(self, Gender::SingularMale | Gender::PluralMale)
    }
}

/// The plural of a list together.
fn coalesced_many(list: &[Gender]) -> Gender
    ensures { result ≡ coalesced_many list.now }
{
    if are_female(list) {
        return Gender::PluralFemale;
    }
    if are_male(list) {
        return Gender::PluralMale;
    }
    Gender::PluralNeuter
}

fn are_female(list: &[Gender]) -> bool
    ensures { result ≡ list_all is_female list.now }
{
    for gender in list {
        if !gender.is_female() {
            return false;
        }
    }
    true
}

fn are_male(list: &[Gender]) -> bool
    ensures { result ≡ list_all is_male list.now }
{
    for gender in list {
        if !gender.is_male() {
            return false;
        }
    }
    true
}

/// The gender of a name in lower case.
fn named(name: &str) -> Option<Gender>
    ensures { result ≡ gender_of name.now }
{
    match name {
        "sf" => Some(Gender::SingularFemale),
        "sm" => Some(Gender::SingularMale),
        "sn" => Some(Gender::SingularNeuter),
        "pf" => Some(Gender::PluralFemale),
        "pm" => Some(Gender::PluralMale),
        "pn" => Some(Gender::PluralNeuter),
        _ => None,
    }
}
