//! Accents: a mark and the first character of what it stands on, composed.

ghost use Rattle.std.specs.Prelude.{◌≡◌, ◌++◌, [], OnOk, IfOk, reverse};
ghost use Rattle.std.specs.Str.{chars};
ghost use Rattle.biblatex_tex.specs.Accent.{dotted, with_mark, marked};

use std::alloc::{AllocError, Global};
use unicode_normalization::slice::extend_nfc;

/// A dotless i or j as i or j.
fn dotted(c: char) -> char
    ensures { result ≡ dotted c }
{
    match c {
        'ı' => 'i',
        'ȷ' => 'j',
        _ => c,
    }
}

/// The characters of a text.
fn characters(alloc: Global, text: &str) -> Result<Vec<char>, AllocError>
    ensures { IfOk result (λ v. v.items ≡ chars text.now) }
{
    text.chars().collect(alloc)
}

/// The characters of a text, the first one last.
pub fn reversed(alloc: Global, text: &str) -> Result<Vec<char>, AllocError>
    ensures { IfOk result (λ v. reverse v.items ≡ chars text.now) }
{
    let mut letters = characters(alloc, text)?;
    letters.reverse();
    Ok(letters)
}

/// Appends characters after others, the last one first.
fn push_reversed(text: &mut Vec<char>, mut more: Vec<char>) -> Result<(), AllocError>
    ensures { OnOk result (text.new.items ≡ text.old.items ++ reverse more.items) }
{
    while let Some(c) = more.pop() {
        text.push(c)?;
    }
    Ok(())
}

/// Puts a mark on the first character of a text, which is the last of the list.
fn put_mark(alloc: Global, text: &mut Vec<char>, mark: char) -> Result<(), AllocError>
    ensures { OnOk result (reverse text.new.items ≡ with_mark mark (reverse text.old.items)) }
{
    let Some(first) = text.pop() else {
        return Ok(());
    };
    let mut composed = Vec::new(alloc);
    extend_nfc(&mut composed, &[dotted(first), mark])?;
    push_reversed(text, composed)
}

/// Puts marks, from the last one, on the first character of a text, which is the last of the list. No mark is left.
pub fn put_marks(
    alloc: Global,
    text: &mut Vec<char>,
    marks: &mut Vec<char>,
) -> Result<(), AllocError>
    ensures text { OnOk result (reverse text.new.items
        ≡ marked marks.old.items (reverse text.old.items)) }
    ensures marks { OnOk result (marks.new.items ≡ []) }
{
    while let Some(mark) = marks.pop() {
        put_mark(alloc, text, mark)?;
    }
    Ok(())
}
