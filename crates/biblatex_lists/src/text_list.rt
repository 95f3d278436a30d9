//! Lists of texts.

ghost use Rattle.std.specs.Prelude.{◌≡◌, ◌++◌, ◌∷◌, [], IfOk, OnOk, flat_map, map};
ghost use Rattle.biblatex_content.specs.Views.{styled};
ghost use Rattle.laws.specs.Text.{characters};
ghost use Rattle.laws.specs.Borrowed.{borrowed};
ghost use Rattle.biblatex_lists.specs.TextList.{texts_in, texts_of};
ghost use Rattle.biblatex_lists.specs.Writing.{after_and, so_far, written_text, written_texts};

use crate::parting::parts;
use crate::styled_char::{StyledChar, plain_text, styled_chars};
use crate::writing::Writing;
use biblatex_content::{Chunk, Chunks, Spanned};
use std::alloc::{AllocError, Global};

/// Appends the text of a part, if it is not empty.
fn push_filled(
    alloc: Global,
    texts: &mut Vec<String>,
    part: &[StyledChar],
) -> Result<(), AllocError>
    ensures { OnOk result (map characters texts.new.items
        ≡ map characters texts.old.items ++ texts_of (part.now ∷ [])) }
{
    if !part.is_empty() {
        texts.push(plain_text(alloc, part)?)?;
    }
    Ok(())
}

/// The texts of parts that are not empty.
fn texts_of(alloc: Global, parts: &[&[StyledChar]]) -> Result<Vec<String>, AllocError>
    ensures { IfOk result (λ ts. map characters ts.items ≡ texts_of (borrowed parts.now)) }
{
    let mut texts = Vec::new(alloc);
    for part in parts {
        push_filled(alloc, &mut texts, part)?;
    }
    Ok(texts)
}

/// The texts in a value: its parts between the words `and`, of math what stands between the dollar signs. Empty parts are
/// left out.
pub fn read_texts(alloc: Global, value: &[Spanned<Chunk>]) -> Result<Vec<String>, AllocError>
    ensures { IfOk result (λ ts. map characters ts.items ≡ texts_in (styled value.now)) }
{
    let text = styled_chars(alloc, value)?;
    texts_of(alloc, &parts(alloc, &text)?)
}

/// Appends each text, after ` and `.
fn push_others(writing: &mut Writing, texts: &[String]) -> Result<(), AllocError>
    ensures { OnOk result (so_far writing.new
        ≡ so_far writing.old ++ flat_map after_and (map written_text (map characters texts.now))) }
{
    for text in texts {
        writing.push_and()?;
        writing.push_part(text.as_str())?;
    }
    Ok(())
}

/// Appends the texts, with ` and ` between them.
fn push_texts(writing: &mut Writing, texts: &[String]) -> Result<(), AllocError>
    ensures { OnOk result (so_far writing.new
        ≡ so_far writing.old ++ written_texts (map characters texts.now)) }
{
    match texts.split_first() {
        Some((first, others)) => {
            writing.push_part(first.as_str())?;
            push_others(writing, others)
        }
        None => Ok(()),
    }
}

/// The value that holds the texts: ` and ` between them, and as verbatim text those that would be read otherwise.
pub fn write_texts(alloc: Global, texts: &[String]) -> Result<Chunks, AllocError>
    ensures { IfOk result (λ cs. styled cs.items ≡ written_texts (map characters texts.now)) }
{
    let mut writing = Writing::new(alloc);
    push_texts(&mut writing, texts)?;
    writing.finish()
}
