//! Where a byte of a source stands, as a reader counts: its line and its column, that line as it is shown, and a caret below the
//! position; and the message for a source that is refused there.
#![tactic(auto)]

mod escape;
mod position;
mod refusal;

pub use escape::push_escape;
pub use position::{ShownPosition, char_count, line_end, mark_below, push_shown_character};
pub use refusal::{push_head, push_line, refusal_lines};
