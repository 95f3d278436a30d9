//! The reader goes over a source once, from the left.

ghost use Rattle.std.specs.Prelude.{◌≡◌, ◌+◌, ◌-◌, ◌∷◌, [], length, ◌≤◌, MatchOption, IfSome, IfOk};
ghost use Rattle.std.specs.Str.{chars};
ghost use Rattle.biblatex_text.specs.Run.{depth_of, after};
ghost use Rattle.biblatex_text.specs.Views.{left, size, GoesOn, spanned_text_view, Reads, Passes};
ghost use Rattle.biblatex_text.specs.Span.{IsTextOf};
ghost use Rattle.biblatex_text.specs.Reading.{offset, token_at, after_blanks, run_at, identifier_at, closed_at};

use crate::character::is_id_start;
use crate::cursor::Reader;
use crate::run::{Run, split_run};
use crate::spanned::Spanned;
use crate::state::byte_len;
use crate::token::{Fault, Token};
use texts::split_first;

impl<'s> Reader<'s> {
    /// A reader of the whole source.
    pub(crate) fn new(source: &'s str) -> Reader<'s>
        ensures source { result.source.now ≡ source.now }
        ensures left { left result ≡ chars source.now }
    {
        Reader {
            source,
            rest: source,
        }
    }

    /// How many bytes were read.
    pub(crate) fn offset(&self) -> usize
        ensures bytes { result ≡ length self.now.source.now - length self.now.rest.now }
        ensures offset { result ≡ offset (size self.now) (left self.now) }
    {
        self.source.len() - byte_len(self.rest)
    }

    /// The first character that is left, and the reader after it.
    pub(crate) fn first(&self) -> Option<(char, Reader<'s>)>
        ensures reads { MatchOption result (left self.now ≡ []) (λ x. left self.now
            ≡ x.0 ∷ left x.1) }
        ensures on { IfSome result (λ x. GoesOn self.now x.1) }
    {
        let (c, rest) = split_first(self.rest)?;
        Some((
            c,
            Reader {
                source: self.source,
                rest,
            },
        ))
    }

    /// Takes the longest prefix that goes on with the run.
    pub(crate) fn run(&mut self, run: Run) -> Spanned<&'s str>
        requires { depth_of run ≡ 0 }
        ensures on { GoesOn self.old self.new }
        ensures slice { IsTextOf self.old.source.now result }
        ensures part { spanned_text_view result ≡ run_at (size self.old) run (left self.old) }
        ensures rest { left self.new ≡ after run (left self.old) }
    {
        let start = self.offset();
        let (prefix, rest) = split_run(self.rest, run);
        self.rest = rest;
        Spanned {
            v: prefix,
            span: start..self.offset(),
        }
    }

    /// Takes white space and comments.
    pub(crate) fn skip_blanks(&mut self)
        ensures on { GoesOn self.old self.new }
        ensures rest { left self.new ≡ after_blanks (left self.old) }
    {
        self.run(Run::Blank);
    }

    /// Takes the character, which is the token that must stand here.
    pub(crate) fn expect(&mut self, wanted: char, token: Token) -> Result<(), Fault>
        ensures on { GoesOn self.old self.new }
        ensures reads { Passes result (left self.new) (token_at wanted token (left self.old)) }
    {
        match self.first() {
            None => Err(Fault::UnexpectedEof),
            Some((c, next)) if c == wanted => {
                *self = next;
                Ok(())
            }
            Some(_) => Err(Fault::Expected(token)),
        }
    }

    /// The identifier that stands here.
    pub(crate) fn identifier(&mut self) -> Result<Spanned<&'s str>, Fault>
        ensures on { GoesOn self.old self.new }
        ensures slice { IfOk result (IsTextOf self.old.source.now) }
        ensures reads { Reads spanned_text_view result (left self.new)
            (identifier_at (size self.old) (left self.old)) }
    {
        match self.first() {
            None => Err(Fault::UnexpectedEof),
            Some((c, _)) if is_id_start(c) => Ok(self.run(Run::Identifier)),
            Some(_) => Err(Fault::Expected(Token::Identifier)),
        }
    }

    /// Takes the character that ended a run, where the end of the source did not.
    pub(crate) fn close(&mut self) -> Result<(), Fault>
        ensures on { GoesOn self.old self.new }
        ensures reads { Passes result (left self.new) (closed_at (left self.old)) }
    {
        match self.first() {
            None => Err(Fault::UnexpectedEof),
            Some((_, next)) => {
                *self = next;
                Ok(())
            }
        }
    }
}
