//! Lists of people in fields.

ghost use Rattle.std.specs.Prelude.{List, Ok, map};
ghost use Rattle.std.proofs.Common.{ap};
ghost use Rattle.biblatex_lists.specs.Reading.{Named};
ghost use Rattle.biblatex_lists.specs.Views.{named_view};
ghost use Rattle.biblatex_lists.specs.PeopleWriting.{written_people};
ghost use Rattle.biblatex_lists.specs.PeopleLaws.{AreReadBack};
ghost use Rattle.biblatex_lists.proofs.PeopleBack.{people_are_back};
ghost use Rattle.biblatex_field_types.specs.Views.{reads_people};

use crate::error::FieldTypeError;
use crate::field_type::FieldType;
use biblatex_content::{Chunk, Chunks, Spanned};
use biblatex_lists::{Person, read_people, write_people};
use std::alloc::{AllocError, Global};

/// People with the word `and` between. No text is refused; empty people are left out, as is a last one who is `others`.
impl FieldType for Vec<Person> {
    ghost View = { List Named };

    ghost view = { λ v. map named_view v.items };

    ghost reads = { reads_people };

    ghost writes = { written_people };

    ghost InClass = { AreReadBack };

    ghost back = { λ ns are. ap (λ (ms : List Named). Ok ms) (people_are_back ns are) };

    fn from_chunks(
        alloc: Global,
        chunks: &[Spanned<Chunk>],
    ) -> Result<Vec<Person>, FieldTypeError> {
        Ok(read_people(alloc, chunks)?)
    }

    fn to_chunks(&self, alloc: Global) -> Result<Chunks, AllocError> {
        write_people(alloc, self.as_slice())
    }
}
