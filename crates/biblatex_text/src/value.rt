//! Reading values: pieces parted by number signs.

ghost use Rattle.std.specs.Prelude.{◌≡◌, IfSome, IfOk};
ghost use Rattle.std.specs.Str.{chars};
ghost use Rattle.std.specs.Char.{is_ascii_digit};
ghost use Rattle.std.specs.List.{list_any};
ghost use Rattle.std.specs.Option.{option_map};
ghost use Rattle.biblatex_text.specs.Run.{after};
ghost use Rattle.biblatex_text.specs.Views.{left, size, GoesOn, piece_view, value_view, Reads, Passes, Gives};
ghost use Rattle.biblatex_text.specs.Span.{IsPieceOf, IsValueOf};
ghost use Rattle.biblatex_text.specs.Reading.{run_at};
ghost use Rattle.biblatex_text.specs.Value.{unquoted_at, braced_at, quoted_at, is_end, is_number, bare, piece_at, next_piece_at, value_at};
ghost use Rattle.biblatex_text.specs.Raw.{at_map};
ghost use Rattle.biblatex_text.specs.declared.run.Run.TheVariants as runs;

use crate::character::is_id_continue;
use crate::cursor::Reader;
use crate::error::Stop;
use crate::raw::{Field, RawChunk};
use crate::run::{Run, split_run};
use crate::spanned::Spanned;
use crate::token::{Fault, Token};
use std::alloc::Global;
use texts::split_first;

impl<'s> Reader<'s> {
    /// Takes the quotation mark that ended a run. A brace that ended it may not stand there.
    fn unquote(&mut self) -> Result<(), Fault>
        ensures on { GoesOn self.old self.new }
        ensures reads { Passes result (left self.new) (unquoted_at (left self.old)) }
    {
        match self.first() {
            None => Err(Fault::UnexpectedEof),
            Some((c, next)) if c == '"' => {
                *self = next;
                Ok(())
            }
            Some(_) => Err(Fault::Unexpected(Token::ClosingBrace)),
        }
    }

    /// The piece whose opening brace was taken.
    #[tactic(auto, unfolding(crate::specs::Value::braced_at))]
    fn braced(&mut self) -> Result<Spanned<RawChunk<'s>>, Fault>
        ensures on { GoesOn self.old self.new }
        ensures slice { IfOk result (IsPieceOf self.old.source.now) }
        ensures reads { Reads piece_view result (left self.new)
            (braced_at (size self.old) (left self.old)) }
    {
        let text = self.run(Run::Braced(0));
        self.close()?;
        Ok(text.map(RawChunk::Normal))
    }

    /// The piece whose opening quotation mark was taken.
    #[tactic(auto, unfolding(crate::specs::Value::quoted_at))]
    fn quoted(&mut self) -> Result<Spanned<RawChunk<'s>>, Fault>
        ensures on { GoesOn self.old self.new }
        ensures slice { IfOk result (IsPieceOf self.old.source.now) }
        ensures reads { Reads piece_view result (left self.new)
            (quoted_at (size self.old) (left self.old)) }
    {
        let text = self.run(Run::Quoted(0));
        self.unquote()?;
        Ok(text.map(RawChunk::Normal))
    }

    /// The piece that stands bare here.
    fn bare(&mut self) -> Spanned<RawChunk<'s>>
        ensures on { GoesOn self.old self.new }
        ensures slice { IsPieceOf self.old.source.now result }
        ensures piece { piece_view result
            ≡ at_map bare (run_at (size self.old) runs.Identifier (left self.old)) }
        ensures rest { left self.new ≡ after runs.Identifier (left self.old) }
    {
        let text = self.run(Run::Identifier);
        if is_number(text.v) {
            text.map(RawChunk::Normal)
        } else {
            text.map(RawChunk::Abbreviation)
        }
    }

    /// The piece that stands here.
    fn piece(&mut self) -> Result<Spanned<RawChunk<'s>>, Fault>
        ensures on { GoesOn self.old self.new }
        ensures slice { IfOk result (IsPieceOf self.old.source.now) }
        ensures reads { Reads piece_view result (left self.new)
            (piece_at (size self.old) (left self.old)) }
    {
        match self.first() {
            None => Err(Fault::UnexpectedEof),
            Some(('{', next)) => {
                *self = next;
                self.braced()
            }
            Some(('"', next)) => {
                *self = next;
                self.quoted()
            }
            Some((c, _)) if is_id_continue(c) => Ok(self.bare()),
            Some(_) => Err(Fault::Expected(Token::Identifier)),
        }
    }

    /// The piece after a piece and a number sign, or nothing at the end of the value.
    #[tactic(auto, unfolding(crate::specs::Value::next_piece_at))]
    fn next_piece(&mut self) -> Result<Option<Spanned<RawChunk<'s>>>, Fault>
        ensures on { GoesOn self.old self.new }
        ensures slice { IfOk result (λ o. IfSome o (IsPieceOf self.old.source.now)) }
        ensures reads { Reads (option_map piece_view) result (left self.new)
            (next_piece_at (size self.old) (left self.old)) }
    {
        let end = *self;
        self.skip_blanks();
        match self.first() {
            Some(('#', next)) => {
                *self = next;
                self.skip_blanks();
                Ok(Some(self.piece()?))
            }
            _ => {
                *self = end;
                Ok(None)
            }
        }
    }

    /// The value that stands here.
    #[tactic(auto, unfolding(crate::specs::Value::value_at))]
    pub(crate) fn value(&mut self, alloc: Global) -> Result<Spanned<Field<'s>>, Stop>
        ensures on { GoesOn self.old self.new }
        ensures slice { IfOk result (IsValueOf self.old.source.now) }
        ensures reads { Gives value_view result (left self.new)
            (value_at (size self.old) (left self.old)) }
    {
        let start = self.offset();
        let first = self.piece()?;
        let mut pieces = Vec::with_capacity(alloc, 1)?;
        pieces.push(first)?;
        while let Some(piece) = self.next_piece()? {
            pieces.push(piece)?;
        }
        Ok(Spanned {
            v: pieces,
            span: start..self.offset(),
        })
    }
}

/// Whether the text has an ASCII digit.
fn has_digit(text: &str) -> bool
    ensures { result ≡ list_any is_ascii_digit (chars text.now) }
{
    text.chars().any(|c| c.is_ascii_digit())
}

/// Whether the text has no character.
fn is_end(text: &str) -> bool
    ensures { result ≡ is_end (chars text.now) }
{
    match split_first(text) {
        None => true,
        Some(_) => false,
    }
}

/// Whether the text is ASCII digits, one at least, with at most one point.
fn is_number(text: &str) -> bool
    ensures { result ≡ is_number (chars text.now) }
{
    let (_, rest) = split_run(text, Run::Number);
    is_end(rest) && has_digit(text)
}
