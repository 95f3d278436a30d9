//! Reading the items of a text.

ghost use Rattle.std.specs.Prelude.{◌≡◌, ℕ, List, IfSome, IfOk, IfErr, OnOk};
ghost use Rattle.std.specs.Str.{chars, bytes_eq, str_to_ascii_lowercase};
ghost use Rattle.std.specs.Option.{option_map};
ghost use Rattle.biblatex_text.specs.Views.{left, size, GoesOn, spanned_text_view, raw_entry_view, raw_item_view, item_view, raw_view, Reads, Passes, Gives, GivesRest, GivesAll};
ghost use Rattle.biblatex_text.specs.Span.{IsTextOf, IsEntryOf, IsItemOf, IsSpannedItemOf, IsRawOf};
ghost use Rattle.biblatex_text.specs.Items.{opening_at, remark_at, preamble_at, entry_at, is_named, body_at, item_of_kind_at, item_at, next_item_at, raw_at};
ghost use Rattle.biblatex_text.specs.Raw.{with_item};
ghost use Rattle.laws.specs.Text.{lowered};
ghost use Rattle.biblatex_text.specs.declared.error.Stop.TheVariants as stops;

use crate::bracket::Bracket;
use crate::cursor::Reader;
use crate::error::Stop;
use crate::raw::{RawBibliography, RawEntry, RawItem};
use crate::run::Run;
use crate::spanned::Spanned;
use crate::token::{Fault, Token};
use std::alloc::Global;

impl<'s> Reader<'s> {
    /// The entry of the kind whose opening was taken.
    #[tactic(auto, unfolding(crate::specs::Items::entry_at))]
    fn entry(
        &mut self,
        alloc: Global,
        kind: Spanned<&'s str>,
        bracket: Bracket,
    ) -> Result<RawEntry<'s>, Stop>
        ensures on { GoesOn self.old self.new }
        ensures slice { IsTextOf self.old.source.now kind.entry
            → IfOk result (IsEntryOf self.old.source.now) }
        ensures reads { Gives raw_entry_view result (left self.new)
            (entry_at (size self.old) (spanned_text_view kind.entry) bracket (left self.old)) }
    {
        self.skip_blanks();
        let key = self.run(bracket.key_run());
        let fields = self.more_fields(alloc, bracket, Vec::new(alloc))?;
        Ok(RawEntry { key, kind, fields })
    }

    /// Takes the preamble whose opening was taken.
    #[tactic(auto, unfolding(crate::specs::Items::preamble_at))]
    fn preamble(&mut self, alloc: Global, bracket: Bracket) -> Result<(), Stop>
        ensures on { GoesOn self.old self.new }
        ensures reads { GivesRest result (left self.new)
            (preamble_at (size self.old) bracket (left self.old)) }
    {
        self.skip_blanks();
        self.value(alloc)?;
        self.skip_blanks();
        self.expect(bracket.closing(), Token::ClosingBrace)?;
        Ok(())
    }

    /// Takes the text in braces that stands here, or nothing where no brace opens.
    fn remark(&mut self) -> Result<(), Fault>
        ensures on { GoesOn self.old self.new }
        ensures reads { Passes result (left self.new) (remark_at (left self.old)) }
    {
        match self.first() {
            Some(('{', next)) => {
                *self = next;
                self.run(Run::Remark(0));
                self.close()
            }
            _ => Ok(()),
        }
    }

    /// Takes the brace or the parenthesis that opens a body.
    fn opening(&mut self) -> Result<Bracket, Fault>
        ensures on { GoesOn self.old self.new }
        ensures reads { Reads (λ b. b) result (left self.new) (opening_at (left self.old)) }
    {
        match self.first() {
            None => Err(Fault::UnexpectedEof),
            Some(('{', next)) => {
                *self = next;
                Ok(Bracket::Brace)
            }
            Some(('(', next)) => {
                *self = next;
                Ok(Bracket::Parenthesis)
            }
            Some(_) => Err(Fault::Expected(Token::OpeningBrace)),
        }
    }

    /// The body of the kind whose opening was taken. The kind is no comment.
    fn body(
        &mut self,
        alloc: Global,
        kind: Spanned<&'s str>,
        bracket: Bracket,
    ) -> Result<RawItem<'s>, Stop>
        ensures on { GoesOn self.old self.new }
        ensures slice { IsTextOf self.old.source.now kind.entry
            → IfOk result (IsItemOf self.old.source.now) }
        ensures reads { Gives raw_item_view result (left self.new)
            (body_at (size self.old) (spanned_text_view kind.entry) bracket (left self.old)) }
    {
        if is_named(kind.v, "preamble") {
            self.preamble(alloc, bracket)?;
            Ok(RawItem::Nothing)
        } else if is_named(kind.v, "string") {
            Ok(RawItem::Definitions(self.definitions(alloc, bracket)?))
        } else {
            Ok(RawItem::Entry(self.entry(alloc, kind, bracket)?))
        }
    }

    /// The item of the kind that was taken.
    fn item_of_kind(&mut self, alloc: Global, kind: Spanned<&'s str>) -> Result<RawItem<'s>, Stop>
        ensures on { GoesOn self.old self.new }
        ensures slice { IsTextOf self.old.source.now kind.entry
            → IfOk result (IsItemOf self.old.source.now) }
        ensures reads { Gives raw_item_view result (left self.new)
            (item_of_kind_at (size self.old) (spanned_text_view kind.entry) (left self.old)) }
    {
        if is_named(kind.v, "comment") {
            self.remark()?;
            Ok(RawItem::Nothing)
        } else {
            let bracket = self.opening()?;
            self.body(alloc, kind, bracket)
        }
    }

    /// The item whose at sign was taken.
    #[tactic(auto, unfolding(crate::specs::Items::item_at))]
    fn item(&mut self, alloc: Global) -> Result<RawItem<'s>, Stop>
        ensures on { GoesOn self.old self.new }
        ensures slice { IfOk result (IsItemOf self.old.source.now) }
        ensures reads { Gives raw_item_view result (left self.new)
            (item_at (size self.old) (left self.old)) }
    {
        self.skip_blanks();
        let kind = self.identifier()?;
        self.skip_blanks();
        self.item_of_kind(alloc, kind)
    }

    /// The next item, or nothing at the end of the source.
    #[tactic(auto, unfolding(crate::specs::Items::next_item_at))]
    fn next_item(&mut self, alloc: Global) -> Result<Option<Spanned<RawItem<'s>>>, Stop>
        ensures on { GoesOn self.old self.new }
        ensures slice { IfOk result (λ o. IfSome o (IsSpannedItemOf self.old.source.now)) }
        ensures reads { Gives (option_map item_view) result (left self.new)
            (next_item_at (size self.old) (left self.old)) }
    {
        self.run(Run::Outside);
        let start = self.offset();
        match self.first() {
            None => Ok(None),
            Some((_, next)) => {
                *self = next;
                let item = self.item(alloc)?;
                let end = self.offset();
                Ok(Some(Spanned {
                    v: item,
                    span: start..end,
                }))
            }
        }
    }

    /// All that the source holds.
    #[tactic(auto, unfolding(crate::specs::Items::raw_at))]
    pub(crate) fn all(&mut self, alloc: Global) -> Result<RawBibliography<'s>, Stop>
        ensures on { GoesOn self.old self.new }
        ensures slice { IfOk result (IsRawOf self.old.source.now) }
        ensures reads { GivesAll raw_view result (left self.new)
            (raw_at (size self.old) (left self.old)) }
    {
        let mut found = RawBibliography {
            entries: Vec::new(alloc),
            abbreviations: Vec::new(alloc),
        };
        while let Some(item) = self.next_item(alloc)? {
            found.add(item)?;
        }
        Ok(found)
    }
}

impl<'s> RawBibliography<'s> {
    /// Appends what the item gives.
    fn add(&mut self, found: Spanned<RawItem<'s>>) -> Result<(), Stop>
        ensures value { OnOk result (raw_view self.new
            ≡ with_item (raw_view self.old) (item_view found.entry)) }
        ensures memory { IfErr result (λ s. s ≡ stops.Memory) }
        ensures slice { (source : List ℕ) → IsRawOf source self.old
            → IsSpannedItemOf source found.entry → OnOk result (IsRawOf source self.new) }
    {
        let Spanned { v, span } = found;
        match v {
            RawItem::Nothing => {}
            RawItem::Definitions(mut pairs) => self.abbreviations.append(&mut pairs)?,
            RawItem::Entry(entry) => self.entries.push(Spanned { v: entry, span })?,
        }
        Ok(())
    }
}

/// Whether the name is the wanted one, in any ASCII case.
fn is_named(name: &str, wanted: &str) -> bool
    ensures { result ≡ bytes_eq (lowered (chars name.now)) (str_to_ascii_lowercase wanted.now) }
{
    name.eq_ignore_ascii_case(wanted)
}
