//! How much of names is printed to disambiguate cites.

ghost use Rattle.std.specs.Prelude.{◌≡◌, ◌≤◌, ◌&&◌, ◌++◌, drop, map, nat_lt, sum_by, take};
ghost use Rattle.std.specs.Borrow.{sem};
ghost use Rattle.std.specs.Cmp.Lexicographic.{pointwise};
ghost use Rattle.std.specs.Cmp.Rules.{comparing};
ghost use Rattle.std.specs.Hash as fed;
ghost use Rattle.std.specs.List.{list_any};
ghost use Rattle.std.specs.Option.{option_map};
ghost use Rattle.std.specs.Ordering.{eq_of_both, on};
ghost use Rattle.rendering_people.specs.contracts.properties.PeopleCountEq.TheImpl.Laws as people_eq;
ghost use Rattle.rendering_people.specs.contracts.properties.PeopleCountHash.TheImpl.Laws as people_hash;
ghost use Rattle.rendering_taxonomy.specs.contracts.name.DisambiguatedNameFormEq.TheImpl.Laws as form_eq;
ghost use Rattle.rendering_taxonomy.specs.contracts.name.DisambiguatedNameFormHash.TheImpl.Laws as form_hash;
ghost use Rattle.rendering_taxonomy.specs.NameForms.{rank};
ghost use Rattle.rendering_people.specs.Counts.{counted};
ghost use Rattle.rendering_people.specs.Properties.{is_above};

use rendering_taxonomy::{DisambiguatedNameForm, NameVariable};
use std::alloc::AllocError;
use std::hash::{Hash, Hasher};
use std::marker::Model;

/// How many people of a variable there are, and how many of them are shown.
#[derive(Clone, Copy, Debug, PartialEq, Eq, Hash)]
pub struct PeopleCount {
    pub variable: NameVariable,
    pub people: usize,
    /// From the first on; at most all.
    pub shown: usize,
}

/// What is printed of the people of a names node: of each variable that has people how many are shown, and the form of each
/// person.
#[derive(Debug)]
pub struct NameDisambiguationProperties {
    /// For each variable, in order, how many people it has and how many are shown.
    pub(crate) counts: Vec<PeopleCount>,
    /// The forms of all people, those of one variable after those of another.
    pub(crate) forms: Vec<DisambiguatedNameForm>,
}

impl Drop for NameDisambiguationProperties {
    fn drop(self) {
        let NameDisambiguationProperties {
            counts: _,
            forms: _,
        } = self;
    }
}

impl Model for NameDisambiguationProperties {
    ghost use Rattle.rendering_people.specs.Properties.{Properties};
    ghost use Rattle.rendering_people.specs.Counts.{cut, IsWhole};

    ghost Value = { Properties };

    ghost view = { λ p. cut p.counts.items p.forms.items };

    ghost invariant = { λ p. IsWhole p.counts.items p.forms.items };
}

impl NameDisambiguationProperties {
    ghost use Rattle.rendering_people.specs.Properties.{with_name, adds_name, form_at, all_forms, all_shown, prints_more, greater};
    ghost use Rattle.rendering_people.specs.Counts.{cut, IsWhole};
    ghost use Rattle.rendering_people.specs.Lending.{LendsForm};

    /// What is printed of so many people of each variable, each in its form.
    pub fn new(
        counts: Vec<PeopleCount>,
        forms: Vec<DisambiguatedNameForm>,
    ) -> NameDisambiguationProperties
        requires { IsWhole counts.items forms.items }
        ensures { result ≡ cut counts.items forms.items }
    {
        NameDisambiguationProperties { counts, forms }
    }

    /// Shows so many people of each variable at least, as far as there are people. Returns whether that shows more.
    pub fn add_name(&mut self, num: usize) -> bool
        ensures properties { self.new ≡ with_name num self.old }
        ensures changed { result ≡ adds_name num self.old }
    {
        show_at_least(self.counts.as_mut_slice(), num)
    }

    /// The one that prints more: the one that shows more people; of as many people the one whose form is greater at the first index where
    /// they differ, or else the one that has more forms. `other` where both print as much.
    pub fn max(self, other: Self) -> Self
        ensures { result ≡ greater self other }
    {
        if self.prints_more(&other) {
            self
        } else {
            other
        }
    }

    /// The form of the person at an index from zero among all people, those of one variable after those of another.
    pub fn get_form_mut(&mut self, idx: usize) -> Option<&mut DisambiguatedNameForm>
        ensures* writes_back { sem 𝓛 (LendsForm self.entry idx result) }
        ensures value { option_map (λ f. f.now) result ≡ form_at idx self.old }
    {
        self.forms.get_mut(idx)
    }

    /// The forms of all people, those of one variable after those of another.
    pub fn forms(&self) -> &[DisambiguatedNameForm]
        ensures { result.now ≡ all_forms self.now }
    {
        self.forms.as_slice()
    }

    /// For each variable, in order, how many people it has and how many are shown.
    pub fn counts(&self) -> &[PeopleCount]
        ensures { cut result.now (all_forms self.now) ≡ self.now }
    {
        self.counts.as_slice()
    }

    /// How many people are shown.
    pub fn all_shown(&self) -> usize
        ensures { result ≡ all_shown self.now }
    {
        let forms = self.forms.as_slice();
        total_shown(self.counts.as_slice(), forms.len())
    }

    /// Whether more is printed than by others: more people, or as many in greater forms, by the first index where they differ, or
    /// else by going on where the others end.
    pub fn prints_more(&self, other: &Self) -> bool
        ensures { result ≡ prints_more self.now other.now }
    {
        let shown = self.all_shown();
        let others = other.all_shown();
        others < shown || shown == others && is_above(self.forms(), other.forms())
    }
}

impl Clone for NameDisambiguationProperties {
    ghost is_clone = { λ p q. q ≡ p };

    fn clone(&self) -> Result<NameDisambiguationProperties, AllocError> {
        Ok(NameDisambiguationProperties {
            counts: self.counts.clone()?,
            forms: self.forms.clone()?,
        })
    }
}

/// Properties are equal where the numbers of each variable and all forms are.
impl PartialEq for NameDisambiguationProperties {
    ghost use Rattle.rendering_people.specs.Properties.{all_forms};
    ghost use Rattle.rendering_people.specs.Counts.{counts_of};

    ghost eq = { eq_of_both (on counts_of (pointwise ⟦<PeopleCount as PartialEq>⟧.eq))
        (on all_forms (pointwise ⟦<DisambiguatedNameForm as PartialEq>⟧.eq)) };

    ghost laws = { Prim.search (comparing, people_eq.laws-law, form_eq.laws-law) depth 10 };

    fn eq(&self, other: &NameDisambiguationProperties) -> bool {
        are_same(
            self.counts.as_slice(),
            other.counts.as_slice(),
            self.forms.as_slice(),
            other.forms.as_slice(),
        )
    }
}

impl Eq for NameDisambiguationProperties {
    ghost laws = { Prim.search (comparing, people_eq.laws-law, form_eq.laws-law) depth 10 };
}

impl Hash for NameDisambiguationProperties {
    ghost use Rattle.rendering_people.specs.Properties.{all_forms};
    ghost use Rattle.rendering_people.specs.Counts.{counts_of};
    ghost use Rattle.std.specs.Hash.{and-Alike, items_Alike, on_Alike};

    ghost hash_input = { λ p. fed.slice ⟦<PeopleCount as Hash>⟧.hash_input (counts_of p)
        ++ fed.slice ⟦<DisambiguatedNameForm as Hash>⟧.hash_input (all_forms p) };

    ghost respects_eq = { (and-Alike
        (on_Alike counts_of (items_Alike (record { fed = people_hash.respects_eq-law })))
        (on_Alike all_forms (items_Alike (record { fed = form_hash.respects_eq-law })))).fed };

    fn hash<H: Hasher>(&self, state: &mut H) {
        self.counts.hash(state);
        self.forms.hash(state);
    }
}

/// Whether counts and forms are equal to others.
fn are_same(
    counts: &[PeopleCount],
    other_counts: &[PeopleCount],
    forms: &[DisambiguatedNameForm],
    other_forms: &[DisambiguatedNameForm],
) -> bool
    ensures { result ≡ (pointwise ⟦<PeopleCount as PartialEq>⟧.eq counts.now other_counts.now
        && pointwise ⟦<DisambiguatedNameForm as PartialEq>⟧.eq forms.now other_forms.now) }
{
    counts == other_counts && forms == other_forms
}

/// Shows so many people of each variable at least, as far as there are people. Returns whether that shows more.
fn show_at_least(counts: &mut [PeopleCount], num: usize) -> bool
    ensures after { counts.new ≡ map (counted num) counts.old }
    ensures changed { result ≡ list_any (λ c. nat_lt c.shown (counted num c).shown) counts.old }
{
    let mut shows_more = false;
    for count in counts.iter_mut() {
        if count.show_at_least(num) {
            shows_more = true;
        }
    }
    shows_more
}

impl PeopleCount {
    /// Shows so many people of one variable at least, as far as there are people. Returns whether that shows more.
    fn show_at_least(&mut self, num: usize) -> bool
        ensures after { self.new ≡ counted num self.old }
        ensures changed { result ≡ nat_lt self.old.shown (counted num self.old).shown }
    {
        let before = self.shown;
        self.shown = before.max(num).min(self.people);
        before < self.shown
    }
}

/// How many people are shown, of so many at most.
fn total_shown(counts: &[PeopleCount], people: usize) -> usize
    requires { sum_by (λ c. c.shown) counts.now ≤ people }
    ensures { result ≡ sum_by (λ c. c.shown) counts.now }
{
    let mut total = 0;
    for count in counts {
        total += count.shown;
    }
    total
}

/// The first forms, so many or all, and the others.
pub fn split_forms(
    forms: &[DisambiguatedNameForm],
    count: usize,
) -> (&[DisambiguatedNameForm], &[DisambiguatedNameForm])
    ensures first { result.0.now ≡ take count forms.now }
    ensures others { result.1.now ≡ drop count forms.now }
{
    forms.split_at(count.min(forms.len()))
}

/// Whether forms are above others: by the first index where they differ, or else by going on where the others end.
fn is_above(forms: &[DisambiguatedNameForm], others: &[DisambiguatedNameForm]) -> bool
    ensures { result ≡ is_above (map rank forms.now) (map rank others.now) }
{
    let mut left = others;
    for form in forms {
        let Some((other, after)) = left.split_first() else {
            return true;
        };
        if rank(*form) != rank(*other) {
            return rank(*other) < rank(*form);
        }
        left = after;
    }
    false
}

/// The rank of a form among all forms, from the least on.
pub(crate) fn rank(form: DisambiguatedNameForm) -> u8
    ensures { result ≡ rank form }
{
    match form {
        DisambiguatedNameForm::Count => 0,
        DisambiguatedNameForm::ShortInitialized => 1,
        DisambiguatedNameForm::ShortFull => 2,
        DisambiguatedNameForm::LongInitialized => 3,
        DisambiguatedNameForm::LongFull => 4,
    }
}
