//! The bridge from entries of BibLaTeX files to a library.
#![tactic(auto)]

mod bridge;
mod date_faults;
mod dates;
mod error;
mod fields;
mod kinds;
mod parents;
mod same_files;
mod setting;

pub use bridge::{entry, finished, from_biblatex, from_entries, is_xdata, put_work};
pub use date_faults::{check_dates, push_work_faults};
pub use error::{BridgeError, DateField, FieldFault};
pub use same_files::files_that_say_the_same_have_one_library;
