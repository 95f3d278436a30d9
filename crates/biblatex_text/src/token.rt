//! Marks of the grammar, and why a text is refused.

use std::fmt;
use thiserror::Error;

/// A mark of the grammar.
#[derive(Clone, Copy, Debug, PartialEq, Eq)]
pub enum Token {
    /// A kind, the name of a field, or the start of a piece of a value.
    Identifier,
    /// `{`, or `(` instead.
    OpeningBrace,
    /// `}`, or `)` instead.
    ClosingBrace,
    /// `,`
    Comma,
    /// `"`
    QuotationMark,
    /// `=`
    Equals,
    /// `.`
    DecimalPoint,
}

impl fmt::Display for Token {
    ghost use Rattle.std.specs.Prelude.{Some};
    ghost use Rattle.biblatex_text.specs.Token.{token_name};

    ghost output = { λ token. Some (token_name token) };

    fn fmt<W: fmt::Write>(&self, f: &mut fmt::Formatter<W>) -> fmt::Result {
        match self {
            Token::Identifier => f.write_str("identifier"),
            Token::OpeningBrace => f.write_str("opening brace"),
            Token::ClosingBrace => f.write_str("closing brace"),
            Token::Comma => f.write_str("comma"),
            Token::QuotationMark => f.write_str("double quote"),
            Token::Equals => f.write_str("equals"),
            Token::DecimalPoint => f.write_str("decimal point"),
        }
    }
}

/// Why a text is not of the grammar.
#[derive(Clone, Copy, Debug, PartialEq, Eq, Error)]
pub enum Fault {
    /// The text ends where an item is open.
    #[error("unexpected end of file")]
    UnexpectedEof,
    /// The mark may not stand there.
    #[error("unexpected {0}")]
    Unexpected(Token),
    /// Another mark must stand there.
    #[error("expected {0}")]
    Expected(Token),
}
