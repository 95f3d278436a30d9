//! Characters of keys and identifiers.

ghost use Rattle.std.specs.Prelude.{◌≡◌};
ghost use Rattle.biblatex_text.specs.Character.{is_id_start, is_id_continue, is_key};

/// Whether the character may stand in a key: anything but white space, control characters and `,`, `}`, `%`.
pub fn is_key(c: char) -> bool
    ensures { result ≡ is_key c }
{
    !(c.is_whitespace() || c.is_control() || matches!(c, ',' | '}' | '%'))
}

/// Whether the character may stand in an identifier, as a kind, the name of a field or a bare value: anything but white
/// space, control characters and `@ { } " # ' ( ) , = % \ ~`.
pub fn is_id_continue(c: char) -> bool
    ensures { result ≡ is_id_continue c }
{
    match c {
        'a'..='z' | 'A'..='Z' | '0'..='9' => true,
        '@' | '{' | '}' | '"' | '#' | '\'' | '(' | ')' | ',' | '=' | '%' | '\\' | '~' => false,
        _ => !(c.is_whitespace() || c.is_control()),
    }
}

/// Whether a kind or the name of a field may begin with the character: it may stand in an identifier, and is none of
/// `: < - >`.
pub fn is_id_start(c: char) -> bool
    ensures { result ≡ is_id_start c }
{
    is_id_continue(c) && !matches!(c, ':' | '<' | '-' | '>')
}
