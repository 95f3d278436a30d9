//! Cites that are to be disambiguated.

ghost use Rattle.std.specs.Prelude.{◌≡◌, [], ◌∷◌, ◌++◌, if◌then◌else◌, IfOk, OnOk};
ghost use Rattle.rendering_context.specs.Views.{state_view};
ghost use Rattle.rendering_context.specs.Cites as cites;
ghost use Rattle.rendering_context.specs.Cites.{may_change};
ghost use Rattle.rendering_style.specs.Views.{citation_layout_view};
ghost use Rattle.rendering_tree.specs.Trees.{Children, nothing};
ghost use Rattle.rendering_tree.specs.Views as trees;
ghost use Rattle.rendering_tree.specs.Views.{tree_view};
ghost use Rattle.rendering_tree.specs.Writing.{plain_text};
ghost use Rattle.laws.specs.Text.{characters};
ghost use Rattle.driver_names.specs.Prints as prints;
ghost use Rattle.driver_names.specs.Prints.{may_be_alike, only_repeats, printed_as, prints_date};
ghost use Rattle.driver_names.specs.Views.{class_view, printed_again, printed_as_view, printed_view};

use rendering_context::DisambiguateState;
use rendering_people::NameDisambiguationProperties;
use rendering_style::Citation;
use rendering_taxonomy::DisambiguationRule;
use rendering_tree::{ElemChildren, ElemMeta};
use std::alloc::{AllocError, Global};
use std::mem;

/// What is known of a cite before it is disambiguated from others.
#[derive(Debug, Drop)]
pub struct Candidate {
    /// The index of its entry among all that are cited, from zero.
    pub entry: usize,
    /// The number of its entry, from zero.
    pub number: usize,
    /// Whether its entry has a date.
    pub has_date: bool,
    /// By which rule its style compares given names, where it adds them.
    pub rule: Option<DisambiguationRule>,
    /// Whether its style adds year suffixes.
    pub adds_suffix: bool,
    /// Whether the first of alike cites takes the branch for these too.
    pub first_chooses_too: bool,
    /// Whether its names are compared with those of other entries alone.
    pub same_entry_is_no_rival: bool,
    /// Whether year suffixes are given in the order of the numbers of entries.
    pub suffixes_by_number: bool,
    /// Whether it repeats the cite before it, in a style that lets such cites be alike to none.
    pub repeats: bool,
    /// Whether the test `disambiguate` was evaluated when it was printed undisambiguated.
    pub met_disambiguate: bool,
    /// How much of its first names is printed undisambiguated.
    pub names: Option<NameDisambiguationProperties>,
}

impl Candidate {
    /// A cite of the entry at an index, which has a number, by whether it repeats the cite before it, and what it printed
    /// undisambiguated.
    pub fn new(
        entry: usize,
        number: usize,
        has_date: bool,
        style: &Citation,
        repeats: bool,
        met_disambiguate: bool,
        names: Option<NameDisambiguationProperties>,
    ) -> Candidate
        ensures { (printed : cites.DisambiguateState → Children) (state : cites.DisambiguateState) (t : Children) → printed_as_view result state t ≡ printed_as (record { entry = entry; number = number; has_date = has_date; style = citation_layout_view style.now; repeats = repeats; printed = printed; met_disambiguate = met_disambiguate; names = names }) state t }
    {
        let rule = if style.add_givenname {
            Some(style.givenname_rule)
        } else {
            None
        };
        Candidate {
            entry,
            number,
            has_date,
            rule,
            adds_suffix: style.add_year_suffix,
            first_chooses_too: style.first_chooses_too,
            same_entry_is_no_rival: style.same_entry_is_no_rival,
            suffixes_by_number: style.suffixes_by_number,
            repeats,
            met_disambiguate,
            names,
        }
    }
}

/// A cite at the start of a round.
#[derive(Debug)]
pub struct Printed {
    pub cite: Candidate,
    pub state: DisambiguateState,
    /// What it prints by its state, without its locator.
    pub tree: ElemChildren,
    /// That tree in plain text.
    pub text: String,
}

impl Drop for Printed {
    fn drop(self) {
        let Printed {
            cite: _,
            state: _,
            tree: _,
            text: _,
        } = self;
    }
}

impl Printed {
    /// A cite that prints a tree by its state.
    ///
    /// # Errors
    /// Out of memory.
    pub fn new(
        alloc: Global,
        cite: Candidate,
        state: DisambiguateState,
        printed: ElemChildren,
    ) -> Result<Printed, AllocError>
        ensures { IfOk result (λ s. printed_view s
            ≡ printed_as_view cite (state_view state) (tree_view printed)) }
    {
        let text = plain_text(alloc, &printed)?;
        Ok(Printed {
            cite,
            state,
            tree: printed,
            text,
        })
    }

    /// Makes it the cite that prints a tree by another state.
    pub fn set_print(&mut self, state: DisambiguateState, printed: ElemChildren, text: String)
        requires { characters text ≡ plain_text (tree_view printed) }
        ensures print { printed_view self.new
            ≡ printed_again (printed_view self.old) (state_view state) (tree_view printed) }
        ensures text { self.new.text ≡ text }
    {
        self.state = state;
        self.tree = printed;
        self.text = text;
    }

    /// The index of its entry among all that are cited, from zero.
    pub fn entry(&self) -> usize
        ensures { result ≡ (printed_view self.now).entry }
    {
        self.cite.entry
    }

    /// What it prints by its state, without its locator.
    pub fn tree(&self) -> &ElemChildren
        ensures { tree_view result.now ≡ (printed_view self.now).tree }
    {
        &self.tree
    }

    /// Takes what it prints by its state, without its locator, and leaves nothing instead.
    pub fn take_tree(&mut self, alloc: Global) -> ElemChildren
        ensures tree { tree_view result ≡ (printed_view self.old).tree }
        ensures nothing { (printed_view self.new).tree ≡ nothing }
    {
        mem::replace(&mut self.tree, ElemChildren::new(alloc))
    }

    /// Whether it may be alike to cites of other entries: a year suffix may still be given to it, and it does not only repeat the cite
    /// before it.
    pub fn may_be_alike(&self) -> bool
        ensures { result ≡ may_be_alike (printed_view self.now) }
    {
        self.state.allows_suffix() && !self.only_repeats()
    }

    /// Whether it repeats the cite before it, and prints neither people nor a date.
    fn only_repeats(&self) -> bool
        ensures { result ≡ only_repeats (printed_view self.now) }
    {
        self.cite.repeats && !has_names_or_date(&self.tree)
    }

    /// Whether names and branches may still change it.
    pub fn may_change(&self) -> bool
        ensures { result ≡ may_change (printed_view self.now).state }
    {
        self.state.may_change()
    }

    /// Whether it prints a date, or a label that has one.
    pub fn prints_date(&self) -> bool
        ensures { result ≡ prints_date (printed_view self.now) }
    {
        self.tree.find_meta(&ElemMeta::Date).is_some()
            || self.cite.has_date && self.tree.find_meta(&ElemMeta::CitationLabel).is_some()
    }
}

/// Whether a tree has people or a date.
fn has_names_or_date(tree: &ElemChildren) -> bool
    ensures { result ≡ prints.has_names_or_date (tree_view tree.now) }
{
    tree.find_names().is_some() || tree.find_meta(&ElemMeta::Date).is_some()
}

pub fn plain_text(alloc: Global, tree: &ElemChildren) -> Result<String, AllocError>
    ensures { IfOk result (λ s. characters s ≡ plain_text (trees.tree_view tree.now)) }
{
    tree.to_string(alloc)
}

pub fn push_where<'a>(
    cites: &mut Vec<&'a Printed>,
    cite: &'a Printed,
    is_wanted: bool,
) -> Result<(), AllocError>
    ensures { OnOk result (class_view cites.new.items ≡ class_view cites.old.items
        ++ (if is_wanted then printed_view cite.entry.now ∷ [] else [])) }
{
    if is_wanted {
        cites.push(cite)?;
    }
    Ok(())
}
