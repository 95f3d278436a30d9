//! Values that are written.

ghost use Rattle.std.specs.Prelude.{◌≡◌, ◌++◌, ◌∷◌, [], IfOk, OnOk, true};
ghost use Rattle.std.specs.Str.{chars};
ghost use Rattle.biblatex_content.specs.declared.chunk.Kind.TheVariants.{Normal};
ghost use Rattle.biblatex_content.specs.Styled.{letters};
ghost use Rattle.biblatex_content.specs.Views.{members, styled};
ghost use Rattle.laws.specs.Text.{characters};
ghost use Rattle.biblatex_lists.specs.Writing.{and_word, holds, is_loose, is_plain, kind, padded, so_far, written_text};

use crate::parting::begins_and;
use crate::styled_char::{StyledChar, push_chars};
use biblatex_content::{Chunk, Chunks, Spanned};
use std::alloc::{AllocError, Global};
use texts::{empty_text, push_text, take_text};

/// A value that is being written. Neighbouring texts of one style become one chunk.
#[derive(Drop)]
pub struct Writing {
    alloc: Global,
    chunks: Chunks,
    run: String,
    is_normal: bool,
}

/// A chunk of text, Normal or not.
fn chunk_of(is_normal: bool, text: String) -> Chunk
    ensures { members result ≡ letters (kind is_normal) (characters text) }
{
    if is_normal {
        Chunk::Normal(text)
    } else {
        Chunk::Verbatim(text)
    }
}

/// A Normal space.
const SPACE: StyledChar = StyledChar {
    c: ' ',
    is_normal: true,
};

/// Whether what stands at the start is the word `and` between white space, or white space twice.
pub fn is_loose(text: &[StyledChar]) -> bool
    ensures { result ≡ is_loose text.now }
{
    begins_and(text) || matches!(text, [first, second, ..] if first.is_gap() && second.is_gap())
}

/// Whether something in the text is loose.
fn holds_loose(text: &[StyledChar]) -> bool
    ensures { result ≡ holds is_loose text.now }
{
    for i in 0..text.len() {
        if is_loose(&text[i..]) {
            return true;
        }
    }
    false
}

/// The characters of a Normal text, between two spaces.
pub fn padded(alloc: Global, text: &str) -> Result<Vec<StyledChar>, AllocError>
    ensures { IfOk result (λ ss. ss.items ≡ padded (chars text.now)) }
{
    let mut list = Vec::new(alloc);
    list.push(SPACE)?;
    push_chars(&mut list, text, true)?;
    list.push(SPACE)?;
    Ok(list)
}

/// Whether the text is read as one part, just as it stands, where it is Normal.
fn is_plain(alloc: Global, text: &str) -> Result<bool, AllocError>
    ensures { IfOk result (λ b. b ≡ is_plain (chars text.now)) }
{
    Ok(!holds_loose(&padded(alloc, text)?))
}

impl Writing {
    /// A value of which nothing has been written.
    pub fn new(alloc: Global) -> Writing
        ensures { so_far result ≡ [] }
    {
        Writing {
            alloc,
            chunks: Vec::new(alloc),
            run: empty_text(alloc),
            is_normal: true,
        }
    }

    /// Makes a chunk of the text that was begun.
    fn close_run(&mut self) -> Result<(), AllocError>
        ensures styled { OnOk result (so_far self.new ≡ so_far self.old) }
        ensures run { OnOk result (characters self.new.run ≡ []) }
    {
        if is_empty(self.run.as_str()) {
            return Ok(());
        }
        let run = take_text(self.alloc, &mut self.run);
        let chunk = chunk_of(self.is_normal, run);
        Ok(self.chunks.push(Spanned::detached(chunk))?)
    }

    /// Makes a chunk of the text that was begun, unless it is of that style.
    fn turn(&mut self, is_normal: bool) -> Result<(), AllocError>
        ensures styled { OnOk result (so_far self.new ≡ so_far self.old) }
        ensures kind { OnOk result (self.new.is_normal ≡ is_normal) }
    {
        if self.is_normal != is_normal {
            self.close_run()?;
            self.is_normal = is_normal;
        }
        Ok(())
    }

    /// Appends a text, Normal or verbatim. After an error some of it may have been written.
    pub fn push_str(&mut self, is_normal: bool, text: &str) -> Result<(), AllocError>
        ensures { OnOk result (so_far self.new
            ≡ so_far self.old ++ letters (kind is_normal) (chars text.now)) }
    {
        self.turn(is_normal)?;
        push_text(&mut self.run, text)
    }

    /// Appends ` and `. After an error some of it may have been written.
    pub fn push_and(&mut self) -> Result<(), AllocError>
        ensures { OnOk result (so_far self.new ≡ so_far self.old ++ letters Normal and_word) }
    {
        self.push_str(true, " and ")
    }

    /// Appends a text that is to be read as one part; it is verbatim where else it would not be. After an error some of it may have
    /// been written.
    pub fn push_part(&mut self, text: &str) -> Result<(), AllocError>
        ensures { OnOk result (so_far self.new ≡ so_far self.old ++ written_text (chars text.now)) }
    {
        let is_normal = is_plain(self.alloc, text)?;
        self.push_str(is_normal, text)
    }

    /// The chunks of what was written.
    pub fn finish(mut self) -> Result<Chunks, AllocError>
        ensures { IfOk result (λ cs. styled cs.items ≡ so_far self) }
    {
        self.close_run()?;
        Ok(self.chunks)
    }
}

/// Whether there is no character.
fn is_empty(text: &str) -> bool
    ensures { result ≡ true → chars text.now ≡ [] }
{
    text.is_empty()
}
