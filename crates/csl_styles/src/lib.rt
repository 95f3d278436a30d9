//! What a CSL file means: a style, the name of the parent of a dependent style, or a locale; and the first fault of a text that is none.
#![tactic(auto)]

mod bibliographies;
mod citations;
mod error;
mod fault;
mod faults;
mod file;
mod information;
mod layouts;
mod locales;
mod locators;
mod macros;
mod meanings;
mod reading;
mod second_fields;
mod sorting;
mod styles;

pub use error::CslError;
pub use fault::{Fault, Wrong};
pub use faults::first_fault;
pub use file::Csl;
pub use meanings::{
    each_text_is_refused_in_one_way, each_text_means_one_file, info_says_categories_and_parent,
    no_text_is_both,
};
pub use reading::{read, read_tree, sound_tree};
pub use styles::style;
