//! How people of the cites of a class are compared.

ghost use Rattle.std.specs.Prelude.{◌≡◌, ◌&&◌, bytes_eq};
ghost use Rattle.std.specs.Option.{option_copied, option_eq, option_map};
ghost use Rattle.laws.specs.Text.{characters};
ghost use Rattle.rendering_tree.specs.Metas.{is_person};
ghost use Rattle.driver_names.specs.Names.{compared, initialed, initials, is_namesake, ungiven};
ghost use Rattle.driver_names.specs.NamesViews.{is_alike_namesake};
ghost use Rattle.driver_names.specs.Shared.{compared_name_view};

use crate::names_people::CitedPerson;
use rendering_taxonomy::DisambiguationRule;

/// A name as it is compared.
#[derive(Clone, Copy, PartialEq, Eq, PartialOrd, Ord)]
pub(crate) struct ComparedName<'p> {
    pub(crate) name: &'p String,
    pub(crate) given_name: Option<&'p String>,
    pub(crate) prefix: Option<&'p String>,
    pub(crate) suffix: Option<&'p String>,
}

impl<'a> CitedPerson<'a> {
    /// The name as a rule compares it, of a person at an index.
    pub(crate) fn compared(
        &self,
        rule: Option<DisambiguationRule>,
        index: usize,
    ) -> ComparedName<'_>
        ensures { compared_name_view result ≡ compared rule index self.now }
    {
        match rule {
            None => self.ungiven(),
            Some(DisambiguationRule::ByCite | DisambiguationRule::AllNames) => self.whole(),
            Some(DisambiguationRule::AllNamesWithInitials) => self.initialed(),
            Some(DisambiguationRule::PrimaryName) => {
                if index == 0 {
                    self.whole()
                } else {
                    self.ungiven()
                }
            }
            Some(DisambiguationRule::PrimaryNameWithInitials) => {
                if index == 0 {
                    self.initialed()
                } else {
                    self.ungiven()
                }
            }
        }
    }

    /// The name with its given name.
    pub(crate) fn whole(&self) -> ComparedName<'_>
        ensures { compared_name_view result ≡ self.now }
    {
        self.with_given_name(self.person.given_name.as_ref())
    }

    /// The name with initials instead of its given name.
    fn initialed(&self) -> ComparedName<'_>
        ensures { compared_name_view result ≡ initialed self.now }
    {
        self.with_given_name(self.given_initials())
    }

    /// The name without its given name.
    fn ungiven(&self) -> ComparedName<'_>
        ensures { compared_name_view result ≡ ungiven self.now }
    {
        self.with_given_name(None)
    }

    /// The name with another given name.
    fn with_given_name<'p>(&'p self, given_name: Option<&'p String>) -> ComparedName<'p>
        ensures { compared_name_view result ≡ record (self.now)
            { given_name = option_map characters (option_copied given_name.entry) } }
    {
        ComparedName {
            name: &self.person.name,
            given_name,
            prefix: self.person.prefix.as_ref(),
            suffix: self.person.suffix.as_ref(),
        }
    }

    /// The initials, where there is a given name.
    fn given_initials(&self) -> Option<&String>
        ensures { option_map characters (option_copied result) ≡ (initialed self.now).given_name }
    {
        match &self.person.given_name {
            Some(_) => Some(&self.initials),
            None => None,
        }
    }

    /// Whether two people have one name.
    fn is_person(&self, other: &CitedPerson) -> bool
        ensures { result ≡ is_person self.now other.now }
    {
        self.has_same_family(other)
            && is_same_part(&self.person.given_name, &other.person.given_name)
    }

    /// Whether two people have one name, if given names are not looked at.
    fn has_same_family(&self, other: &CitedPerson) -> bool
        ensures { result ≡ is_person (ungiven self.now) (ungiven other.now) }
    {
        is_same_text(&self.person.name, &other.person.name)
            && is_same_part(&self.person.prefix, &other.person.prefix)
            && is_same_part(&self.person.suffix, &other.person.suffix)
    }

    /// Whether two people have the same family name and are not one.
    pub(crate) fn is_namesake(&self, other: &CitedPerson) -> bool
        ensures { result ≡ is_namesake self.now other.now }
    {
        is_same_text(&self.person.name, &other.person.name) && !self.is_person(other)
    }

    /// Whether two people are namesakes and have the same initials.
    pub(crate) fn is_alike_namesake(&self, other: &CitedPerson) -> bool
        ensures { result ≡ is_alike_namesake self.now other.now }
    {
        self.is_namesake(other) && other.has_same_initials(self)
    }

    /// Whether the initials of two people are the same.
    fn has_same_initials(&self, other: &CitedPerson) -> bool
        ensures { result ≡ bytes_eq (initials self.now) (initials other.now) }
    {
        is_same_text(&self.initials, &other.initials)
    }
}

/// Whether two texts are the same.
fn is_same_text(text: &String, other: &String) -> bool
    ensures { result ≡ bytes_eq (characters text.now) (characters other.now) }
{
    *text == *other
}

/// Whether two parts of names are the same.
fn is_same_part(part: &Option<String>, other: &Option<String>) -> bool
    ensures { result
        ≡ option_eq bytes_eq (option_map characters part.now) (option_map characters other.now) }
{
    match (part, other) {
        (Some(part), Some(other)) => is_same_text(part, other),
        (None, None) => true,
        _ => false,
    }
}
