//! What LaTeX prints for apostrophes and quotation marks as they are typed, in the texts of entries: `'` is `’`, `` ` `` is `‘`, `''` is `”`, and
//! ``` `` ``` is `“`. Keys, formulas and fields that are read verbatim stay as they are.
#![tactic(auto)]

mod changes;
mod entries;
mod text;

pub use entries::typographic;
