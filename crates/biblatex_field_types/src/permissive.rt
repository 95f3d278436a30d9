//! Values that may be chunks as they are.

ghost use Rattle.biblatex_values.specs.Permissive.{Permitted, reads_permissive, writes_permissive, IsPermitted};
ghost use Rattle.biblatex_values.proofs.PermissiveBack.{permissive_back};
ghost use Rattle.biblatex_field_types.specs.Views.{permitted_view};

use crate::error::FieldTypeError;
use crate::field_type::FieldType;
use biblatex_content::{Chunk, Chunks, Spanned, copied};
use std::alloc::{AllocError, Global};

/// A value of the type, or the chunks as they are where they are none.
#[derive(Debug, PartialEq, Eq, Drop)]
pub enum PermissiveType<T> {
    Typed(T),
    Chunks(Chunks),
}

/// The value where the type reads one, and else the chunks. Nothing is refused.
impl<T: FieldType> FieldType for PermissiveType<T> {
    ghost View = { Permitted T.View };

    ghost view = { permitted_view T.view };

    ghost reads = { reads_permissive T.reads };

    ghost writes = { writes_permissive T.writes };

    ghost InClass = { IsPermitted T.reads T.InClass };

    ghost back = { permissive_back T.reads T.writes T.InClass T.back };

    fn from_chunks(
        alloc: Global,
        chunks: &[Spanned<Chunk>],
    ) -> Result<PermissiveType<T>, FieldTypeError> {
        match T::from_chunks(alloc, chunks) {
            Ok(value) => Ok(PermissiveType::Typed(value)),
            Err(FieldTypeError::TypeError(_)) => {
                Ok(PermissiveType::Chunks(copied(alloc, chunks)?))
            }
            Err(FieldTypeError::Memory) => Err(FieldTypeError::Memory),
        }
    }

    fn to_chunks(&self, alloc: Global) -> Result<Chunks, AllocError> {
        match self {
            PermissiveType::Typed(value) => value.to_chunks(alloc),
            PermissiveType::Chunks(chunks) => copied(alloc, chunks.as_slice()),
        }
    }
}
