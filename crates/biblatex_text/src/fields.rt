//! Reading fields, up to the end of an item.

ghost use Rattle.std.specs.Prelude.{IfSome, IfOk};
ghost use Rattle.std.specs.Option.{option_map};
ghost use Rattle.biblatex_text.specs.Views.{left, size, GoesOn, field_view, fields_view, prepended, Gives};
ghost use Rattle.biblatex_text.specs.Span.{IsPairOf, ArePairsOf};
ghost use Rattle.biblatex_text.specs.Fields.{field_at, field_or_end_at, next_field_at, more_fields_at, definitions_at};

use crate::bracket::Bracket;
use crate::cursor::Reader;
use crate::error::Stop;
use crate::raw::Pair;
use crate::token::{Fault, Token};
use std::alloc::Global;

impl<'s> Reader<'s> {
    /// The field that stands here.
    #[tactic(auto, unfolding(crate::specs::Fields::field_at))]
    fn field(&mut self, alloc: Global) -> Result<Pair<'s>, Stop>
        ensures on { GoesOn self.old self.new }
        ensures slice { IfOk result (IsPairOf self.old.source.now) }
        ensures reads { Gives field_view result (left self.new)
            (field_at (size self.old) (left self.old)) }
    {
        let key = self.identifier()?;
        self.skip_blanks();
        self.expect('=', Token::Equals)?;
        self.skip_blanks();
        let value = self.value(alloc)?;
        Ok(Pair { key, value })
    }

    /// The field that stands here, or nothing at the end of the item, which is taken.
    pub(crate) fn field_or_end(
        &mut self,
        alloc: Global,
        bracket: Bracket,
    ) -> Result<Option<Pair<'s>>, Stop>
        ensures on { GoesOn self.old self.new }
        ensures slice { IfOk result (λ o. IfSome o (IsPairOf self.old.source.now)) }
        ensures reads { Gives (option_map field_view) result (left self.new)
            (field_or_end_at (size self.old) bracket (left self.old)) }
    {
        match self.first() {
            None => Err(Stop::Fault(Fault::UnexpectedEof)),
            Some((c, next)) if c == bracket.closing() => {
                *self = next;
                Ok(None)
            }
            Some(_) => Ok(Some(self.field(alloc)?)),
        }
    }

    /// The field after a key or a field and a comma, or nothing at the end of the item, which is taken.
    #[tactic(auto, unfolding(crate::specs::Fields::next_field_at))]
    pub(crate) fn next_field(
        &mut self,
        alloc: Global,
        bracket: Bracket,
    ) -> Result<Option<Pair<'s>>, Stop>
        ensures on { GoesOn self.old self.new }
        ensures slice { IfOk result (λ o. IfSome o (IsPairOf self.old.source.now)) }
        ensures reads { Gives (option_map field_view) result (left self.new)
            (next_field_at (size self.old) bracket (left self.old)) }
    {
        self.skip_blanks();
        match self.first() {
            None => Err(Stop::Fault(Fault::UnexpectedEof)),
            Some((c, next)) if c == bracket.closing() => {
                *self = next;
                Ok(None)
            }
            Some((',', next)) => {
                *self = next;
                self.skip_blanks();
                self.field_or_end(alloc, bracket)
            }
            Some(_) => Err(Stop::Fault(Fault::Expected(Token::Comma))),
        }
    }

    /// The fields, and those that follow a key or a field here, up to the end of the item.
    pub(crate) fn more_fields(
        &mut self,
        alloc: Global,
        bracket: Bracket,
        mut pairs: Vec<Pair<'s>>,
    ) -> Result<Vec<Pair<'s>>, Stop>
        ensures on { GoesOn self.old self.new }
        ensures slice { ArePairsOf self.old.source.now pairs.entry
            → IfOk result (ArePairsOf self.old.source.now) }
        ensures reads { Gives fields_view result (left self.new) (prepended
            (fields_view pairs.entry) (more_fields_at (size self.old) bracket (left self.old))) }
    {
        while let Some(pair) = self.next_field(alloc, bracket)? {
            pairs.push(pair)?;
        }
        Ok(pairs)
    }

    /// The abbreviations of the item whose opening was taken.
    #[tactic(auto, unfolding(crate::specs::Fields::definitions_at))]
    pub(crate) fn definitions(
        &mut self,
        alloc: Global,
        bracket: Bracket,
    ) -> Result<Vec<Pair<'s>>, Stop>
        ensures on { GoesOn self.old self.new }
        ensures slice { IfOk result (ArePairsOf self.old.source.now) }
        ensures reads { Gives fields_view result (left self.new)
            (definitions_at (size self.old) bracket (left self.old)) }
    {
        self.skip_blanks();
        match self.field_or_end(alloc, bracket)? {
            None => Ok(Vec::new(alloc)),
            Some(first) => {
                let mut pairs = Vec::with_capacity(alloc, 1)?;
                pairs.push(first)?;
                self.more_fields(alloc, bracket, pairs)
            }
        }
    }
}
