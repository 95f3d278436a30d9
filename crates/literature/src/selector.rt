//! Selectors.

ghost use Rattle.std.specs.Prelude.{◌≡◌, ℕ, List, is_some, IfOk, IfSome};
ghost use Rattle.std.specs.Option.{option_copied};
ghost use Rattle.std.specs.Str.{chars};
ghost use Rattle.literature.specs.Bindings.{bindings, last_bound, bound_to, settled};
ghost use Rattle.literature.specs.Grammar.{IsSelector};
ghost use Rattle.literature.specs.Holding.{holds};
ghost use Rattle.literature.specs.Pairs.{bindings_view, named_in};
ghost use Rattle.literature.specs.Reading.{selector_of};
ghost use Rattle.literature.specs.Trees.{Tree};
ghost use Rattle.literature.specs.Views.{selector_view, fault};
ghost use Rattle.laws.specs.Results.{GivesBack, Gives};

use crate::bindings::Bindings;
use crate::node::Node;
use crate::parser::read_selector;
use crate::selector_error::SelectorError;
use literature_entries::Entry;
use std::alloc::{AllocError, Global};
use std::fmt;

/// What is asked of an entry and of its parents. A selector is read of a text, so it is at most 128 levels deep.
#[derive(PartialEq, Eq)]
pub struct Selector {
    root: Node,
}

impl Drop for Selector {
    fn drop(self) {
        let Selector { root: _ } = self;
    }
}

impl Selector {
    /// The selector that the longest expression at the text's start spells.
    ///
    /// # Errors
    /// The first fault from the left: `MissingValue` where an operand is missing, `MalformedAttribute` where a list wants a
    /// name, `MissingComma` where neither `,` nor `]` follows one, `UnbalancedParens` where `)` is missing,
    /// `UnknownEntryType` for the name of no type, `TooDeep` at the token that opens a 129th level. `Memory` where a
    /// request for memory was refused.
    pub fn parse(alloc: Global, text: &str) -> Result<Selector, SelectorError>
        // What is read is spelled by the longest expression at the text's start.
        ensures found { IfOk result (λ s. IsSelector (chars text.now) (selector_view s)) }
        // What is spelled there is read, unless memory runs out.
        ensures only { (x : Tree) → IsSelector (chars text.now) x
            → GivesBack fault selector_view result x }
        // The tree, or the first fault from the left.
        ensures reading { Gives fault selector_view result (selector_of (chars text.now)) }
    {
        rooted(alloc, text)
    }

    /// Whether it holds at the entry. This takes no memory, and no part of the selector is asked of an entry twice.
    pub fn matches(&self, entry: &Entry) -> bool
        ensures { result ≡ holds (selector_view self.now) entry.now }
    {
        self.root.holds(entry)
    }

    /// The names with the entries that they are bound to, where the selector holds at the entry, else none. Of equal names
    /// that are bound the last one of the text counts.
    ///
    /// # Errors
    /// Out of memory.
    #[tactic(auto, using(crate::proofs::BindingsNames::last_is_found))]
    pub fn apply<'e>(
        &self,
        alloc: Global,
        entry: &'e Entry,
    ) -> Result<Option<Bindings<'e>>, AllocError>
        // There is an answer exactly where the selector holds.
        ensures holds { IfOk result (λ o. is_some o ≡ holds (selector_view self.now) entry.now) }
        // Each name stands once, where it was bound first.
        ensures bound { IfOk result (λ o. IfSome o (λ b. bindings_view b
            ≡ settled (bindings (selector_view self.now) entry.now))) }
        // A name means the last entry that is bound to it.
        ensures last { IfOk result (λ o. IfSome o (λ b. (name : List ℕ)
            → named_in b name ≡ last_bound name (bindings (selector_view self.now) entry.now))) }
    {
        let mut found = Vec::new(alloc);
        if !self.root.bind(entry, &mut found)? {
            return Ok(None);
        }
        Ok(Some(Bindings::settled(alloc, found.as_slice())?))
    }

    /// The entry that is bound to the name, where the selector holds at the entry.
    ///
    /// # Errors
    /// Out of memory.
    pub fn bound<'e>(
        &self,
        alloc: Global,
        entry: &'e Entry,
        name: &str,
    ) -> Result<Option<&'e Entry>, AllocError>
        ensures { IfOk result (λ e. option_copied e
            ≡ bound_to (selector_view self.now) entry.now name.now) }
    {
        match self.apply(alloc, entry)? {
            Some(bindings) => Ok(bindings.get(name)),
            None => Ok(None),
        }
    }
}

/// The selector of the tree that the text spells.
fn rooted(alloc: Global, text: &str) -> Result<Selector, SelectorError>
    ensures { Gives fault selector_view result (selector_of (chars text.now)) }
{
    let root = read_selector(alloc, text)?;
    Ok(Selector { root })
}

impl fmt::Debug for Selector {
    fn fmt<W: fmt::Write>(&self, f: &mut fmt::Formatter<W>) -> fmt::Result {
        fmt::Debug::fmt(&self.root, f)
    }
}
