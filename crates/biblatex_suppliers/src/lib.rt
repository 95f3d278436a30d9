//! Where the values stand that entries inherit, so that a value is copied only into an entry that is asked for. What an entry inherits is
//! found along its references, as `biblatex_inheritance` resolves them, and no value is touched: of each field it is noted in which entry,
//! and under which name, its value is written. A long value that is written as one abbreviation alone is held once for all fields that have
//! it: entries are read with such fields beside them.
#![tactic(auto)]

mod along;
mod apart;
mod asked;
mod dates;
mod entries;
mod field_texts;
mod made;
mod names;
mod passing;
mod seeing;
mod shared;
mod supplier;
mod written;

pub use along::all_supplies;
pub use apart::{Known, set_aside};
pub use entries::{made_entry, named_entry, whole_entry};
pub use names::FieldName;
pub use shared::{Shared, Written};
pub use supplier::{Supplied, Supplier, Supplies};
pub use written::entry_at;
