//! Where faults of a tree stand in its text: at start-tags, but text where its first line begins that is more than white space.

ghost use Rattle.std.specs.Prelude.{◌≡◌, ◌+◌, ◌<◌, ◌≤◌, ◌^◌, map, IfOk};
ghost use Rattle.std.specs.Str.{chars};
ghost use Rattle.laws.specs.Steps.{each};
ghost use Rattle.texts.specs.Views.{left};
ghost use Rattle.xml_text.specs.Character.{is_space};
ghost use Rattle.xml_text.specs.Markup.{token_at};
ghost use Rattle.xml_text.specs.Values.{character_of};
ghost use Rattle.xml_text.specs.Views.{placed_view, reference_view, token_view, Gives};
ghost use Rattle.xml_schema.specs.Placing as specs;
ghost use Rattle.xml_schema.specs.Placing.{read_or_none, tokens_of, after_place, is_no_space, line_after, words_line, line_left, words_or_none, words_at, words_right_in, open_after, text_left, fault_left};
ghost use Rattle.xml_schema.specs.Views.{wrong_view, tokens_view};

use crate::fault::Wrong;
use crate::value::has_words;
use std::alloc::{AllocError, Global};
use texts::{Reader, split_first};
use xml_text::{Placed, Reference, Token, XmlError, byte_len, next_token, take_prolog};

/// Takes the tokens that are left.
fn take_tokens<'s>(
    alloc: Global,
    reader: &mut Reader<'s>,
) -> Result<Vec<Placed<Token<'s>>>, XmlError>
    ensures { Gives tokens_view result (left reader.new) (each token_at (left reader.old)) }
{
    let mut tokens = Vec::new(alloc);
    while let Some(token) = next_token(alloc, reader)? {
        tokens.push(token)?;
    }
    Ok(tokens)
}

/// The tokens that are left; none where there is a fault.
fn tokens_left<'s>(
    alloc: Global,
    reader: &mut Reader<'s>,
) -> Result<Vec<Placed<Token<'s>>>, AllocError>
    ensures { IfOk result (λ v. tokens_view v ≡ read_or_none (each token_at (left reader.old))) }
{
    match take_tokens(alloc, reader) {
        Ok(tokens) => Ok(tokens),
        Err(XmlError::Memory) => Err(AllocError),
        Err(XmlError::Fault(_)) => Ok(Vec::new(alloc)),
    }
}

/// The tokens of a text; none where it has a fault.
fn tokens_of<'s>(alloc: Global, text: &'s str) -> Result<Vec<Placed<Token<'s>>>, AllocError>
    ensures { IfOk result (λ v. tokens_view v ≡ tokens_of (chars text.now)) }
{
    let mut reader = Reader::new(text);
    match take_prolog(alloc, &mut reader) {
        Ok(()) => tokens_left(alloc, &mut reader),
        Err(XmlError::Memory) => Err(AllocError),
        Err(XmlError::Fault(_)) => Ok(Vec::new(alloc)),
    }
}

/// The tokens after the one that begins where so many bytes of the text are left.
fn after_place<'t, 's>(tokens: &'t [Placed<Token<'s>>], left: usize) -> &'t [Placed<Token<'s>>]
    ensures { map (placed_view token_view) result.now
        ≡ after_place left (map (placed_view token_view) tokens.now) }
{
    let mut rest = tokens;
    while let [token, others @ ..] = rest {
        if token.left == left {
            return others;
        }
        rest = others;
    }
    rest
}

/// Whether a character is white space.
fn is_white(c: char) -> bool
    ensures { result ≡ is_space c }
{
    matches!(c, ' ' | '\t' | '\n' | '\r')
}

/// Whether a reference stands for a character that is no white space.
fn is_no_space(reference: Reference<'_>) -> bool
    ensures { result ≡ is_no_space (character_of (reference_view reference.entry)) }
{
    match reference.character() {
        Ok(c) => !is_white(c),
        Err(_) => false,
    }
}

/// The line that stands after a character of white space: what follows, where that ends a line.
fn line_after<'t>(c: char, line: &'t str, following: &'t str) -> &'t str
    ensures { chars result.now
        ≡ line_after c (chars line.entry.now) (chars following.entry.now) }
{
    if c == '\n' || c == '\r' {
        following
    } else {
        line
    }
}

/// A text from its first line on that is more than white space.
fn words_line(text: &str) -> &str
    ensures { chars result.now ≡ words_line (chars text.now) (chars text.now) }
{
    let mut line = text;
    let mut rest = text;
    while let Some((c, others)) = split_first(rest) {
        if is_white(c) {
            line = line_after(c, line, others);
            rest = others;
        } else {
            return line;
        }
    }
    line
}

/// Where the first line of a text begins that is more than white space, the text standing at that place.
fn line_left(left: usize, text: &str) -> usize
    ensures { result ≡ line_left left (chars text.now) }
{
    left.saturating_sub(byte_len(text).saturating_sub(byte_len(words_line(text))))
}

/// The place, if the text is more than white space.
fn words_or_none(text: &str, left: usize) -> Option<usize>
    ensures { result ≡ words_or_none (chars text.now) left }
{
    if has_words(text) { Some(left) } else { None }
}

/// Where the token that begins there has a line that is more than white space, if it has one.
fn words_at(left: usize, token: &Token<'_>) -> Option<usize>
    ensures { result ≡ words_at left (token_view token.now) }
{
    match token {
        Token::Start(_) => None,
        Token::End(_) => None,
        Token::Characters(text) => words_or_none(*text, line_left(left, *text)),
        Token::Reference(reference) => if is_no_space(*reference) {
            Some(left)
        } else {
            None
        },
        Token::Section(text) => words_or_none(*text, line_left(left.saturating_sub(9), *text)),
        Token::Nothing => None,
    }
}

/// The same, if it stands right in the outermost of so many open elements.
fn words_right_in(count: usize, token: &Placed<Token<'_>>) -> Option<usize>
    ensures { result ≡ words_right_in count (placed_view token_view token.now) }
{
    if count == 1 {
        words_at(token.left, &token.v)
    } else {
        None
    }
}

/// How many elements are open after a token.
fn open_after(count: usize, token: &Token<'_>) -> usize
    requires { count < 2 ^ 63 }
    ensures after { result ≡ open_after count (token_view token.now) }
    ensures small { result ≤ count + 1 }
{
    match token {
        Token::Start(tag) => if tag.empty { count } else { count + 1 },
        Token::End(_) => count.saturating_sub(1),
        Token::Characters(_) => count,
        Token::Reference(_) => count,
        Token::Section(_) => count,
        Token::Nothing => count,
    }
}

/// Where the first text right in an element has a line that is more than white space, by the tokens that follow its start-tag.
fn first_words(tokens: &[Placed<Token<'_>>]) -> Option<usize>
    ensures { result ≡ specs.first_words 1 (map (placed_view token_view) tokens.now) }
{
    // A slice has fewer than 2^63 tokens.
    let _most = tokens.len();
    let mut count = 1;
    for token in tokens {
        if count == 0 {
            return None;
        }
        match words_right_in(count, token) {
            Some(left) => return Some(left),
            None => {}
        }
        count = open_after(count, &token.v);
    }
    None
}

/// The same of the element whose start-tag begins where so many bytes of the text are left; there, where it has no such text.
fn text_left(alloc: Global, text: &str, left: usize) -> Result<usize, AllocError>
    ensures { IfOk result (λ n. n ≡ text_left (chars text.now) left) }
{
    let tokens = tokens_of(alloc, text)?;
    match first_words(after_place(tokens.as_slice(), left)) {
        Some(place) => Ok(place),
        None => Ok(left),
    }
}

/// How many bytes of a text are left where that is wrong with an element of its tree whose start-tag begins where so many are left: there, but text
/// where its first line begins that is more than white space.
///
/// # Errors
/// Where a request for memory was refused.
pub fn fault_left(
    alloc: Global,
    text: &str,
    wrong: Wrong<'_>,
    left: usize,
) -> Result<usize, AllocError>
    ensures { IfOk result (λ n. n ≡ fault_left (chars text.now) (wrong_view wrong.entry) left) }
{
    match wrong {
        Wrong::Text => text_left(alloc, text, left),
        _ => Ok(left),
    }
}
