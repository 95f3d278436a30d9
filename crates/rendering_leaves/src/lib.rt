//! The nodes of a style that contain no others on a page: texts, numbers, labels and dates; what is handed down to nodes, and what a
//! call has printed so far.
#![tactic(auto)]

mod date;
mod date_shape;
mod entry_identifiers;
mod label;
mod links;
mod node_frame;
mod node_setting;
mod number;
mod numeral;
mod printed_answers;
mod quoted;
mod quotes;
mod state;
mod suppressed;
mod suppression;
mod text;
mod words;

pub use date::push_date;
pub use label::push_label;
pub use node_frame::{frame_of, look_manner, text_manner};
pub use node_setting::{NodeSetting, SpecialForm};
pub use number::push_number;
pub use quotes::{push_quote_after, push_quote_before};
pub use state::State;
pub use text::{push_term, push_value, push_variable};
