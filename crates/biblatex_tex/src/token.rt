//! The tokens of an ordinary field.

ghost use Rattle.std.specs.Prelude.{◌≡◌, IfOk, OnOk, reverse};
ghost use Rattle.std.specs.Option.{option_map};
ghost use Rattle.std.specs.Str.{chars};
ghost use Rattle.laws.specs.Results.{Reads, Gives};
ghost use Rattle.laws.specs.Runs.{prefix_of, after};
ghost use Rattle.biblatex_tex.specs.Character.{passes};
ghost use Rattle.biblatex_tex.specs.Results.{refusal_of};
ghost use Rattle.biblatex_tex.specs.Token.{begins_command, command_at, token_at, tokens_of, paired_of, partnered, dollars_before, innermost};
ghost use Rattle.biblatex_tex.specs.TokenViews.{left, token_view, tokens_view};

use crate::character::Class;
use crate::error::ContentError;
use std::alloc::{AllocError, Global};
use texts::{CharacterClass, split_first, split_run};

/// Room for the tokens of most texts.
const FEW_TOKENS: usize = 16;

/// What an ordinary field is made of.
#[derive(Clone, Copy)]
pub enum Token<'s> {
    /// Characters that stand for themselves.
    Text(&'s str),
    /// A run of hyphens.
    Hyphens(&'s str),
    /// A tilde.
    Tie,
    /// An opening brace, and whether a backslash follows.
    Open(bool),
    /// A closing brace.
    Close,
    /// A dollar sign, and whether its group has a further one.
    Dollar(bool),
    /// A backslash and a character that is no letter.
    Sign(char),
    /// A backslash, letters, and the blanks after them.
    Command(&'s str, &'s str),
}

/// What is left to read.
#[derive(Drop)]
pub struct Lexer<'s> {
    rest: &'s str,
}

/// Whether the text begins with a backslash.
fn begins_command(text: &str) -> bool
    ensures { result ≡ begins_command (chars text.now) }
{
    match split_first(text) {
        Some((c, _)) => c == '\\',
        None => false,
    }
}

impl<'s> Lexer<'s> {
    /// Before the first token of a text.
    pub fn new(text: &'s str) -> Lexer<'s>
        ensures { left result ≡ chars text.now }
    {
        Lexer { rest: text }
    }

    /// The longest run of the class that stands here.
    fn run(&mut self, class: Class) -> &'s str
        ensures prefix { chars result.now ≡ prefix_of (passes class) (left self.old) }
        ensures rest { left self.new ≡ after (passes class) (left self.old) }
    {
        let (prefix, rest) = split_run(self.rest, class);
        self.rest = rest;
        prefix
    }

    /// What stands after a backslash.
    fn command(&mut self) -> Result<Option<Token<'s>>, ContentError>
        ensures { Reads (option_map token_view) result
            (left self.new) (command_at (left self.old)) }
    {
        match split_first(self.rest) {
            None => Err(ContentError::MalformedCommand),
            Some((c, _)) if Class::Letter.contains(c) => {
                let name = self.run(Class::Letter);
                Ok(Some(Token::Command(name, self.run(Class::Blank))))
            }
            Some((c, rest)) => {
                self.rest = rest;
                Ok(Some(Token::Sign(c)))
            }
        }
    }

    /// The next token, or nothing at the end of the text. A dollar sign counts as one without a partner.
    ///
    /// # Errors
    /// `MalformedCommand` at a lone backslash at the end.
    #[tactic(auto, unfolding(crate::specs::Token::token_at))]
    pub fn next_token(&mut self) -> Result<Option<Token<'s>>, ContentError>
        ensures { Reads (option_map token_view) result (left self.new) (token_at (left self.old)) }
    {
        let Some((c, rest)) = split_first(self.rest) else {
            return Ok(None);
        };
        match c {
            '\\' => {
                self.rest = rest;
                return self.command();
            }
            '-' => return Ok(Some(Token::Hyphens(self.run(Class::Hyphen)))),
            _ => {}
        }
        let token = match c {
            '{' => Token::Open(begins_command(rest)),
            '}' => Token::Close,
            '$' => Token::Dollar(false),
            '~' => Token::Tie,
            _ => return Ok(Some(Token::Text(self.run(Class::Plain)))),
        };
        self.rest = rest;
        Ok(Some(token))
    }
}

/// The tokens of a text, a dollar sign as one without a partner.
#[tactic(auto, unfolding(crate::specs::Token::tokens_of))]
fn written_tokens<'s>(alloc: Global, text: &'s str) -> Result<Vec<Token<'s>>, ContentError>
    ensures { Gives refusal_of (λ v. tokens_view v.items) result (tokens_of (chars text.now)) }
{
    let mut lexer = Lexer { rest: text };
    let mut tokens = Vec::with_capacity(alloc, FEW_TOKENS)?;
    while let Some(token) = lexer.next_token()? {
        tokens.push(token)?;
    }
    Ok(tokens)
}

/// Which groups that are open here have a dollar sign of their own further on, the innermost last.
#[derive(Drop)]
struct Dollars {
    groups: Vec<bool>,
}

impl Dollars {
    /// Whether the innermost group has one.
    fn innermost(&self) -> bool
        ensures { result ≡ innermost (reverse self.now.groups.items) }
    {
        match self.groups.last() {
            Some(has_dollar) => *has_dollar,
            None => false,
        }
    }

    /// Goes back over a token, and says which it is now that its partner is known.
    fn pass<'s>(&mut self, written: Token<'s>) -> Result<Token<'s>, AllocError>
        ensures token { IfOk result (λ t. token_view t
            ≡ partnered (token_view written.entry) (reverse self.old.groups.items)) }
        ensures groups { OnOk result (reverse self.new.groups.items
            ≡ dollars_before (token_view written.entry) (reverse self.old.groups.items)) }
    {
        match written {
            Token::Open(_) => {
                self.groups.pop();
            }
            Token::Close => self.groups.push(false)?,
            Token::Dollar(_) => {
                let has_partner = self.innermost();
                self.groups.pop();
                self.groups.push(true)?;
                return Ok(Token::Dollar(has_partner));
            }
            _ => {}
        }
        Ok(written)
    }
}

/// The tokens of a text, each dollar sign with whether it has a partner; the first token is the last of the list.
pub fn paired_tokens<'s>(alloc: Global, text: &'s str) -> Result<Vec<Token<'s>>, ContentError>
    ensures { Gives refusal_of (λ v. tokens_view (reverse v.items)) result
        (paired_of (chars text.now)) }
{
    let mut tokens = written_tokens(alloc, text)?;
    let mut dollars = Dollars {
        groups: Vec::new(alloc),
    };
    let mut paired = Vec::with_capacity(alloc, tokens.len())?;
    while let Some(token) = tokens.pop() {
        paired.push(dollars.pass(token)?)?;
    }
    Ok(paired)
}
