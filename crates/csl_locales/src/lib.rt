//! What a locale of a CSL file means: its terms, dates and endings of ordinal numbers. And the words of terms that no list of CSL 1.0.2 has.
#![tactic(auto)]

mod called;
mod endings;
mod language;
mod ordinals;
mod reading;
mod sets;
mod terms;
mod values;
mod words;

pub use called::all_called;
pub use ordinals::ORDINALS;
pub use reading::locale;
pub use sets::{add_text, has_text};
pub use values::value_of;
pub use words::{is_passed, unlisted_words};
