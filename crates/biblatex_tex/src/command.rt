//! What the commands of an ordinary field stand for.

ghost use Rattle.std.specs.Prelude.{◌≡◌, option_to_list};
ghost use Rattle.biblatex_tex.specs.Command.{sign_mark, letter_mark, letter_character, ligature, letter, symbol, text_symbol, sign_text};

use crate::character::is_blank;

/// The mark of an accent that is written as a backslash and the sign.
#[tactic(auto, unfolding(crate::specs::Command::sign_mark))]
pub fn sign_mark(c: char) -> Option<char>
    ensures { result ≡ sign_mark c }
{
    match c {
        '`' => Some('\u{300}'),
        '\'' => Some('\u{301}'),
        '^' => Some('\u{302}'),
        '~' => Some('\u{303}'),
        '=' => Some('\u{304}'),
        '.' => Some('\u{307}'),
        '"' => Some('\u{308}'),
        _ => None,
    }
}

/// What a backslash and a sign that is no accent give.
#[tactic(auto, unfolding(crate::specs::Command::sign_text))]
pub fn sign_character(c: char) -> Option<char>
    ensures { option_to_list result ≡ sign_text c }
{
    match c {
        '\\' => Some(' '),
        _ if is_blank(c) => Some(' '),
        ',' => Some('\u{2009}'),
        '-' | '/' => None,
        _ => Some(c),
    }
}

/// The mark of an accent that is written as a command of letters.
#[tactic(auto, unfolding(crate::specs::Command::letter_mark))]
pub fn letter_mark(name: &str) -> Option<char>
    ensures { result ≡ letter_mark name.now }
{
    match name {
        "u" => Some('\u{306}'),
        "r" => Some('\u{30a}'),
        "H" => Some('\u{30b}'),
        "v" => Some('\u{30c}'),
        "d" => Some('\u{323}'),
        "c" => Some('\u{327}'),
        "k" => Some('\u{328}'),
        "b" => Some('\u{331}'),
        _ => None,
    }
}

/// The character that a command of letters stands for.
#[tactic(auto, unfolding(crate::specs::Command::letter_character))]
pub fn letter_character(name: &str) -> Option<char>
    ensures { result ≡ letter_character name.now }
{
    ligature(name)
        .or(letter(name))
        .or(symbol(name))
        .or(text_symbol(name))
}

/// Ligatures, and letters with a ring.
#[tactic(auto, unfolding(crate::specs::Command::ligature))]
fn ligature(name: &str) -> Option<char>
    ensures { result ≡ ligature name.now }
{
    match name {
        "ss" => Some('ß'),
        "ae" => Some('æ'),
        "AE" => Some('Æ'),
        "oe" => Some('œ'),
        "OE" => Some('Œ'),
        "aa" => Some('å'),
        "AA" => Some('Å'),
        _ => None,
    }
}

/// Letters with a stroke or without a dot, and Icelandic letters.
#[tactic(auto, unfolding(crate::specs::Command::letter))]
fn letter(name: &str) -> Option<char>
    ensures { result ≡ letter name.now }
{
    match name {
        "o" => Some('ø'),
        "O" => Some('Ø'),
        "l" => Some('ł'),
        "L" => Some('Ł'),
        "i" => Some('ı'),
        "j" => Some('ȷ'),
        "dh" => Some('ð'),
        "DH" => Some('Ð'),
        "th" => Some('þ'),
        "TH" => Some('Þ'),
        _ => None,
    }
}

/// Signs with names of their own.
#[tactic(auto, unfolding(crate::specs::Command::symbol))]
fn symbol(name: &str) -> Option<char>
    ensures { result ≡ symbol name.now }
{
    match name {
        "S" => Some('§'),
        "P" => Some('¶'),
        "copyright" => Some('©'),
        "pounds" => Some('£'),
        "ldots" | "dots" | "textellipsis" => Some('…'),
        _ => None,
    }
}

/// Signs whose names begin with `text`.
#[tactic(auto, unfolding(crate::specs::Command::text_symbol))]
fn text_symbol(name: &str) -> Option<char>
    ensures { result ≡ text_symbol name.now }
{
    match name {
        "textendash" => Some('–'),
        "textemdash" => Some('—'),
        "textquoteleft" => Some('‘'),
        "textquoteright" => Some('’'),
        "textquotedblleft" => Some('“'),
        "textquotedblright" => Some('”'),
        "textbackslash" => Some('\\'),
        "textasciitilde" => Some('~'),
        "textasciicircum" => Some('^'),
        _ => None,
    }
}
