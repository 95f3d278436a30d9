//! Integers, texts, genders and editor types in fields.

ghost use Rattle.std.specs.Prelude.{◌≡◌, ℤ, ℕ, List, FitsSigned};
ghost use Rattle.std.specs.Int.{w64};
ghost use Rattle.laws.specs.Text.{characters};
ghost use Rattle.biblatex_values.specs.Integer.{reads_integer, writes_integer};
ghost use Rattle.biblatex_values.specs.Texts.{reads_text, writes_text, IsText};
ghost use Rattle.biblatex_values.specs.Gender.{reads_gender, writes_gender};
ghost use Rattle.biblatex_values.specs.EditorType.{EditorName, editor_name, reads_editor, writes_editor, IsEditorName};
ghost use Rattle.biblatex_values.specs.declared.gender.Gender.{Gender as GenderValue};
ghost use Rattle.biblatex_values.proofs.IntegerAgain.{integer_again};
ghost use Rattle.biblatex_values.proofs.TextsBack.{text_back};
ghost use Rattle.biblatex_values.proofs.GenderBack.{gender_again};
ghost use Rattle.biblatex_values.proofs.EditorTypeBack.{editor_again};

use crate::error::FieldTypeError;
use crate::field_type::{FieldType, at_span};
use biblatex_content::{Chunk, Chunks, Spanned};
use biblatex_dates::TypeErrorKind;
use biblatex_values::{
    EditorType, Gender, integer_text, normal_chunks, plain_text, read_integer, text_chunks,
};
use std::alloc::{AllocError, Global};

/// ASCII digits, negative after a hyphen.
impl FieldType for i64 {
    ghost View = { ℤ };

    ghost view = { λ z. z };

    ghost reads = { reads_integer };

    ghost writes = { writes_integer };

    ghost InClass = { λ z. FitsSigned w64 z };

    ghost back = { integer_again };

    fn from_chunks(alloc: Global, chunks: &[Spanned<Chunk>]) -> Result<i64, FieldTypeError> {
        let text = plain_text(alloc, chunks)?;
        at_span(chunks, read_integer(text.as_str()))
    }

    fn to_chunks(&self, alloc: Global) -> Result<Chunks, AllocError> {
        normal_chunks(alloc, integer_text(alloc, *self)?)
    }
}

/// The text as it is, of math what stands between the dollar signs.
impl FieldType for String {
    ghost View = { List ℕ };

    ghost view = { λ s. characters s };

    ghost reads = { reads_text };

    ghost writes = { writes_text };

    ghost InClass = { IsText };

    ghost back = { text_back };

    fn from_chunks(alloc: Global, chunks: &[Spanned<Chunk>]) -> Result<String, FieldTypeError> {
        Ok(plain_text(alloc, chunks)?)
    }

    fn to_chunks(&self, alloc: Global) -> Result<Chunks, AllocError> {
        text_chunks(alloc, self.as_str())
    }
}

/// `sf`, `sm`, `sn`, `pf`, `pm` or `pn`, read in any ASCII case.
impl FieldType for Gender {
    ghost View = { GenderValue };

    ghost view = { λ g. g };

    ghost reads = { reads_gender };

    ghost writes = { writes_gender };

    ghost InClass = { λ g. Unit {0} };

    ghost back = { gender_again };

    fn from_chunks(alloc: Global, chunks: &[Spanned<Chunk>]) -> Result<Gender, FieldTypeError> {
        let text = plain_text(alloc, chunks)?;
        let gender = Gender::read(alloc, text.as_str())?;
        at_span(chunks, gender.ok_or(TypeErrorKind::Unreadable))
    }

    fn to_chunks(&self, alloc: Global) -> Result<Chunks, AllocError> {
        text_chunks(alloc, Gender::name(*self))
    }
}

/// The name of an editor type, read in any ASCII case. No text is refused.
impl FieldType for EditorType {
    ghost View = { EditorName };

    ghost view = { λ t. editor_name t };

    ghost reads = { reads_editor };

    ghost writes = { writes_editor };

    ghost InClass = { IsEditorName };

    ghost back = { editor_again };

    fn from_chunks(alloc: Global, chunks: &[Spanned<Chunk>]) -> Result<EditorType, FieldTypeError> {
        let text = plain_text(alloc, chunks)?;
        Ok(EditorType::new(alloc, text.as_str())?)
    }

    fn to_chunks(&self, alloc: Global) -> Result<Chunks, AllocError> {
        text_chunks(alloc, self.name())
    }
}
