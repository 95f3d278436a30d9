//! Laws of CSL files: the order of attributes, places, white space where no text counts, comments, processing instructions, and in which
//! spelling a text is written, change nothing of what a style or a locale means, nor whether it is refused. The functions do nothing, and
//! carry the laws as their contracts.
#![tactic(auto)]

mod notes;
mod pieces_alike;
mod texts_alike;
mod trees_alike;

pub use notes::notes_say_nothing;
pub use pieces_alike::{comments_spell_nothing, pieces_of_one_text_spell_the_same};
pub use texts_alike::{alike_texts_are_refused_together, alike_texts_mean_the_same};
pub use trees_alike::{alike_trees_are_faultless_together, alike_trees_mean_the_same};
