//! Reading selectors. Functions that open a level count the levels that are left.

ghost use Rattle.std.specs.Prelude.{◌≡◌, map};
ghost use Rattle.std.specs.Str.{chars};
ghost use Rattle.literature.specs.Reading.{taken, name_at, names_at, lists_at, listed_at, alternatives_of, multi_of, parenthesised, named, unary_in, ancestry_in, level, selector_of};
ghost use Rattle.literature.specs.Views.{left, tree_view, fault, IsUnknown};
ghost use Rattle.laws.specs.Results.{Gives, GivesRest};
ghost use Rattle.laws.specs.Text.{characters};

use crate::node::{
    Node, ancestry, binding, not, one_or_alternatives, one_or_multi, with_attributes,
};
use crate::reader::Reader;
use crate::selector_error::SelectorError;
use crate::token::Token;
use literature_values::EntryType;
use std::alloc::Global;

/// How many levels may be open in a text. Each `(`, `!`, `name:` and `>` opens one.
const MAX_LEVELS: usize = 128;

/// The selector that the longest expression at the text's start spells.
#[tactic(auto, unfolding(crate::specs::Reading::selector_of, crate::specs::Reading::selector_at))]
pub(crate) fn read_selector(alloc: Global, text: &str) -> Result<Node, SelectorError>
    ensures { Gives fault tree_view result (selector_of (chars text.now)) }
{
    Reader::new(text).alternatives(alloc, MAX_LEVELS + 1)
}

/// The error of a name that is that of no type.
fn unknown(alloc: Global, name: &str) -> SelectorError
    ensures { IsUnknown result (chars name.now) }
{
    match String::from_str(alloc, name) {
        Ok(name) => SelectorError::UnknownEntryType(name),
        Err(_) => SelectorError::Memory,
    }
}

impl<'s> Reader<'s> {
    /// The name of a list that stands here.
    fn name(&mut self, alloc: Global) -> Result<String, SelectorError>
        ensures { GivesRest fault characters result (left self.new) (name_at (left self.old)) }
    {
        match self.first() {
            Some((Token::Name(name), next)) => {
                *self = next;
                Ok(String::from_str(alloc, name)?)
            }
            _ => Err(SelectorError::MalformedAttribute),
        }
    }

    /// The names of the list whose opening bracket was taken.
    #[tactic(auto, unfolding(crate::specs::Reading::names_at))]
    fn names(&mut self, alloc: Global) -> Result<Vec<String>, SelectorError>
        ensures { GivesRest fault (λ v. map characters v.items) result
            (left self.new) (names_at (left self.old)) }
    {
        let mut names = Vec::new(alloc);
        names.push(self.name(alloc)?)?;
        while self.take(',') {
            names.push(self.name(alloc)?)?;
        }
        if !self.take(']') {
            return Err(SelectorError::MissingComma);
        }
        Ok(names)
    }

    /// The names of the lists that stand here.
    #[tactic(auto, unfolding(crate::specs::Reading::lists_at))]
    fn lists(&mut self, alloc: Global) -> Result<Vec<String>, SelectorError>
        ensures { GivesRest fault (λ v. map characters v.items) result
            (left self.new) (lists_at (left self.old)) }
    {
        let mut names = Vec::new(alloc);
        while self.take('[') {
            let mut list = self.names(alloc)?;
            names.append(&mut list)?;
        }
        Ok(names)
    }

    /// The selector with the lists that stand here.
    #[tactic(auto, unfolding(crate::specs::Reading::listed_at))]
    fn listed(&mut self, alloc: Global, selector: Node) -> Result<Node, SelectorError>
        ensures { GivesRest fault tree_view result (left self.new)
            (listed_at (tree_view selector) (left self.old)) }
    {
        let names = self.lists(alloc)?;
        Ok(with_attributes(alloc, selector, names)?)
    }

    /// What the name that was taken begins: a binding before a colon, else a type.
    #[cycle(selector)]
    fn named(&mut self, alloc: Global, levels: usize, name: &'s str) -> Result<Node, SelectorError>
        ensures { GivesRest fault tree_view result (left self.new)
            (named (level levels) (chars name.now) (taken 58 (left self.old))) }
    {
        if self.take(':') {
            let bound = self.unary(alloc, levels)?;
            return Ok(binding(alloc, name, bound)?);
        }
        match EntryType::read(name) {
            Some(entry_type) => self.listed(alloc, Node::Entry(entry_type)),
            None => Err(unknown(alloc, name)),
        }
    }

    /// What stands after the opening parenthesis that was taken.
    #[cycle(selector)]
    #[tactic(auto, unfolding(crate::specs::Reading::parenthesised))]
    fn parenthesised(&mut self, alloc: Global, levels: usize) -> Result<Node, SelectorError>
        ensures { GivesRest fault tree_view result (left self.new)
            (parenthesised (level levels) (left self.old)) }
    {
        let inside = self.alternatives(alloc, levels)?;
        if !self.take(')') {
            return Err(SelectorError::UnbalancedParens);
        }
        self.listed(alloc, inside)
    }

    /// A unary expression, in which `levels` more levels may be open.
    #[cycle(selector)]
    #[tactic(auto, unfolding(crate::specs::Reading::unary_in))]
    fn unary_in(&mut self, alloc: Global, levels: usize) -> Result<Node, SelectorError>
        ensures { GivesRest fault tree_view result (left self.new)
            (unary_in (level levels) (left self.old)) }
    {
        match self.first() {
            None => Err(SelectorError::MissingValue),
            Some((Token::Name(name), next)) => {
                *self = next;
                self.named(alloc, levels, name)
            }
            Some((Token::Sign('!'), next)) => {
                *self = next;
                let negated = self.unary(alloc, levels)?;
                Ok(not(alloc, negated)?)
            }
            Some((Token::Sign('*'), next)) => {
                *self = next;
                self.listed(alloc, Node::Any)
            }
            Some((Token::Sign('['), _)) => self.listed(alloc, Node::Any),
            Some((Token::Sign('('), next)) => {
                *self = next;
                self.parenthesised(alloc, levels)
            }
            Some((Token::Sign(_), _)) => Err(SelectorError::MissingValue),
        }
    }

    /// A unary expression one level further in.
    #[cycle(selector)]
    fn unary(&mut self, alloc: Global, levels: usize) -> Result<Node, SelectorError>
        ensures { GivesRest fault tree_view result (left self.new)
            ((level levels).unary (left self.old)) }
    {
        if levels == 0 {
            return Err(SelectorError::TooDeep);
        }
        self.unary_in(alloc, levels - 1)
    }

    /// Unary expressions parted by ampersands, in each of which `levels` more levels may be open.
    #[cycle(selector)]
    #[tactic(auto, unfolding(crate::specs::Reading::parted))]
    fn multi(&mut self, alloc: Global, levels: usize) -> Result<Node, SelectorError>
        ensures { GivesRest fault tree_view result (left self.new)
            (multi_of (unary_in (level levels)) (left self.old)) }
    {
        let first = self.unary_in(alloc, levels)?;
        let mut others = Vec::new(alloc);
        while self.take('&') {
            others.push(self.unary_in(alloc, levels)?)?;
        }
        Ok(one_or_multi(first, others)?)
    }

    /// An expression and what is asked of parents, in which `levels` more levels may be open.
    #[cycle(selector)]
    #[tactic(auto, unfolding(crate::specs::Reading::ancestry_in))]
    fn ancestry_in(&mut self, alloc: Global, levels: usize) -> Result<Node, SelectorError>
        ensures { GivesRest fault tree_view result (left self.new)
            (ancestry_in (level levels) (left self.old)) }
    {
        let of = self.multi(alloc, levels)?;
        if !self.take('>') {
            return Ok(of);
        }
        let above = self.ancestry(alloc, levels)?;
        Ok(ancestry(alloc, of, above)?)
    }

    /// The same one level further in.
    #[cycle(selector)]
    fn ancestry(&mut self, alloc: Global, levels: usize) -> Result<Node, SelectorError>
        ensures { GivesRest fault tree_view result (left self.new)
            ((level levels).ancestry (left self.old)) }
    {
        if levels == 0 {
            return Err(SelectorError::TooDeep);
        }
        self.ancestry_in(alloc, levels - 1)
    }

    /// Expressions parted by bars, one level further in.
    #[cycle(selector)]
    #[tactic(auto, unfolding(crate::specs::Reading::parted))]
    fn alternatives(&mut self, alloc: Global, levels: usize) -> Result<Node, SelectorError>
        ensures { GivesRest fault tree_view result (left self.new)
            (alternatives_of (level levels).ancestry (left self.old)) }
    {
        let first = self.ancestry(alloc, levels)?;
        let mut others = Vec::new(alloc);
        while self.take('|') {
            others.push(self.ancestry(alloc, levels)?)?;
        }
        Ok(one_or_alternatives(first, others)?)
    }
}
