//! Typed readings of BibLaTeX fields: what the chunks of a field mean as a value of a type, and how a value is written.
#![tactic(auto)]

mod classes;
mod dates;
mod error;
mod field_type;
mod lists;
mod parsing;
mod people;
mod permissive;
mod scalars;

pub use biblatex_dates::TypeErrorKind;
pub use biblatex_lists::Person;
pub use biblatex_values::{EditorType, Gender};
pub use classes::{
    editor_types_are_read_back, genders_are_read_back, integers_are_read_back,
    lists_of_people_are_read_back, lists_of_ranges_are_read_back, lists_of_texts_are_read_back,
    ranges_are_read_back, read_dates_are_read_back, refused_chunks_are_read_back,
    texts_are_read_back, typed_values_are_read_back,
};
pub use error::{FieldTypeError, TypeError};
pub use field_type::{FieldType, reread};
pub use parsing::ChunksParse;
pub use permissive::PermissiveType;
