//! The terms of a locale, and where in their list one is found by its name and form.

ghost use Rattle.std.specs.Prelude.{◌≡◌, Some, if◌then◌else◌, map, IfOk, OnOk};
ghost use Rattle.rendering_locale.specs.Indexed.{place_of, is_named, IsIndex};
ghost use Rattle.rendering_locale.specs.TermViews.{term_view};

use crate::locale::LocalizedTerm;
use crate::words::{TermKey, term_key};
use rendering_taxonomy::{Term, TermForm};
use std::alloc::{AllocError, Global};
use std::collections::BTreeMap;

/// The terms of a locale in an order. Of equal names and forms the first counts, and it is found without a walk along the others.
#[derive(Debug, PartialEq, Eq, Drop)]
pub struct Terms {
    terms: Vec<LocalizedTerm>,
    /// For the name and the form of each term the place of the first that has them.
    index: BTreeMap<TermKey, usize>,
    ghost indexed: { IsIndex index (map term_view terms.items) },
}

/// Puts a term into an index, in front of those of its name and form that are there.
fn put_first(
    index: &mut BTreeMap<TermKey, usize>,
    term: &LocalizedTerm,
    place: usize,
) -> Result<(), AllocError>
    ensures { OnOk result ((name : Term) (form : TermForm) → place_of index.new name form
        ≡ if is_named name form (term_view term.now) then Some place
        else place_of index.old name form) }
{
    index.insert(term_key(term.name, term.form), place)?;
    Ok(())
}

/// The place of the first of these terms of each name and form. They are put in from the last one to the first.
fn index_of(alloc: Global, terms: &[LocalizedTerm]) -> Result<BTreeMap<TermKey, usize>, AllocError>
    ensures { IfOk result (λ index. IsIndex index (map term_view terms.now)) }
{
    let mut index = BTreeMap::new(alloc);
    let mut left = terms.len();
    while left > 0 {
        left -= 1;
        put_first(&mut index, &terms[left], left)?;
    }
    Ok(index)
}

impl Terms {
    ghost use Rattle.std.specs.Prelude.{◌≡◌, ◌&&◌, [], find, map, IfOk};
    ghost use Rattle.std.specs.Option.{option_map};
    ghost use Rattle.rendering_taxonomy.specs.Terms.{is_term, is_form};
    ghost use Rattle.rendering_locale.specs.Views.{terms_view};

    /// These terms in their order.
    ///
    /// # Errors
    /// Out of memory.
    pub fn new(alloc: Global, terms: Vec<LocalizedTerm>) -> Result<Terms, AllocError>
        ensures { IfOk result (λ t. terms_view t ≡ map term_view terms.items) }
    {
        let index = index_of(alloc, terms.as_slice())?;
        Ok(Terms { terms, index })
    }

    /// No terms.
    pub fn empty(alloc: Global) -> Terms
        ensures { terms_view result ≡ [] }
    {
        Terms {
            terms: Vec::new(alloc),
            index: BTreeMap::new(alloc),
        }
    }

    /// The first term of that name and form.
    pub fn get(&self, name: Term, form: TermForm) -> Option<&LocalizedTerm>
        ensures { option_map (λ t. term_view t.now) result ≡ find
            (λ t. is_term t.name name && is_form t.form form) (terms_view self.now) }
    {
        let key = term_key(name, form);
        match self.index.get(&key) {
            Some(place) => Some(&self.terms[*place]),
            None => None,
        }
    }

    /// The terms in their order.
    pub fn as_slice(&self) -> &[LocalizedTerm]
        ensures { map term_view result.now ≡ terms_view self.now }
    {
        self.terms.as_slice()
    }

    /// The terms in their order, to be changed.
    pub fn into_vec(self) -> Vec<LocalizedTerm>
        ensures { map term_view result.items ≡ terms_view self }
    {
        let Terms { terms, index: _ } = self;
        terms
    }
}
