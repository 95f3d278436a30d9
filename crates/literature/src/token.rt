//! Tokens: names and signs.

ghost use Rattle.std.specs.Prelude.{◌≡◌, Some, None, MatchOption};
ghost use Rattle.std.specs.Str.{chars};
ghost use Rattle.literature.specs.Tokens.{token_at};
ghost use Rattle.literature.specs.TokenViews.{token_view};

use crate::character::{is_name_character, is_sign, split_name};
use texts::{Class, split_first, split_run};

/// A name, or a sign of the language.
#[derive(Clone, Copy)]
pub(crate) enum Token<'s> {
    Name(&'s str),
    Sign(char),
}

/// The first token after white space, and what follows it.
#[tactic(auto, unfolding(crate::specs::Tokens::token_at))]
pub(crate) fn split_token(text: &str) -> Option<(Token<'_>, &str)>
    ensures { MatchOption result (token_at (chars text.now) ≡ None) (λ x. token_at (chars text.now)
        ≡ Some (token_view x.0, chars x.1.now)) }
{
    let (_, text) = split_run(text, Class::Blank);
    let (c, rest) = split_first(text)?;
    if is_name_character(c) {
        let (name, rest) = split_name(text);
        Some((Token::Name(name), rest))
    } else if is_sign(c) {
        Some((Token::Sign(c), rest))
    } else {
        None
    }
}
