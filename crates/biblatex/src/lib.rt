//! Reads BibLaTeX files: bibliographies, which are entries in file order, found by their names. What the crates below make public of
//! texts, contents, dates, fields and entries is re-exported, so that crates above name this one alone.
#![tactic(auto)]

mod apart;
mod bibliography;
mod catalog;
mod indexed;
mod indices;
mod iterators;
mod keys;
mod name;
mod naming;
mod parsing;
mod reading;

pub use biblatex_content::{
    Chunk, Chunks, ChunksExt, Span, is_escapable, is_verbatim_field, push_biblatex,
};
pub use biblatex_dates::{Date, DateValue, Datetime, Time, TimeOffset, TypeErrorKind};
pub use biblatex_entries::{Entry, EntryType, RetrievalError, Role};
pub use biblatex_field_types::{
    ChunksParse, EditorType, FieldType, FieldTypeError, Gender, PermissiveType, TypeError, reread,
};
pub use biblatex_fields::{Abbreviations, Fields, ParseError, ParseErrorKind};
pub use biblatex_lists::Person;
pub use biblatex_suppliers::FieldName;
pub use biblatex_text::{
    BiblatexParser, Fault, Field, Pair, RawBibliography, RawChunk, RawEntry, RawError, Spanned,
    Token, is_id_continue, is_id_start, is_key,
};
pub use biblatex_writing::{is_settled_content, written_name};
pub use bibliography::Bibliography;
pub use catalog::Catalog;
pub use keys::Keys;
pub use parsing::Counted;
pub use reading::parse_field;
