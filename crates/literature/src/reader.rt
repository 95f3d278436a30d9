//! The reader goes over the tokens of a text once, from the left.

ghost use Rattle.std.specs.Prelude.{◌≡◌, ◌∷◌, [], MatchOption};
ghost use Rattle.std.specs.Str.{chars};
ghost use Rattle.literature.specs.Tokens.{tokens};
ghost use Rattle.literature.specs.TokenViews.{token_view};
ghost use Rattle.literature.specs.Reading.{taken};
ghost use Rattle.literature.specs.Views.{left};

use crate::token::{Token, split_token};

/// What is left to read.
#[derive(Clone, Copy)]
pub(crate) struct Reader<'s> {
    pub(crate) rest: &'s str,
}

impl<'s> Reader<'s> {
    /// A reader of the whole text.
    pub(crate) fn new(text: &'s str) -> Reader<'s>
        ensures { left result ≡ tokens (chars text.now) }
    {
        Reader { rest: text }
    }

    /// The first token that is left, and the reader after it.
    #[tactic(auto, using(crate::proofs::Tokens::tokens_none, crate::proofs::Tokens::tokens_some))]
    pub(crate) fn first(&self) -> Option<(Token<'s>, Reader<'s>)>
        ensures { MatchOption result (left self.now ≡ []) (λ x. left self.now
            ≡ token_view x.0 ∷ left x.1) }
    {
        let (token, rest) = split_token(self.rest)?;
        Some((token, Reader { rest }))
    }

    /// Takes the sign where it stands here, and says whether it does.
    pub(crate) fn take(&mut self, sign: char) -> bool
        ensures { taken sign (left self.old) ≡ (result, left self.new) }
    {
        match self.first() {
            Some((Token::Sign(c), next)) if c == sign => {
                *self = next;
                true
            }
            _ => false,
        }
    }
}
