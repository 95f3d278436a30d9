//! The style and the locales that files are which were read for `cite_csl`: `found_at` says what a file is, `sheet_of` which style it has, that of
//! its parent where it is a dependent one, `locales_of` which locales files are. Where a file is refused, lines say why, with the line and the
//! column of the place; `feature_lines` says what a style asks for and is not carried out, `term_lines` which terms it prints that no locale has.
#![tactic(auto)]

mod csl_texts;
mod features;
mod joined_faults;
mod locales;
mod parents;
mod sheets;
mod sources;
mod stop;

pub use features::{feature_lines, term_lines};
pub use joined_faults::JoinedFaults;
pub use locales::locales_of;
pub use parents::{ParentPaths, parent_paths, paths_for};
pub use sheets::{Found, Sheet, found_at, found_in, sheet_of};
pub use sources::{
    SourceFile, file_at, files_at, joined, line, lines_at, push_lines_left, refused, refused_at,
    unread_lines,
};
pub use stop::Stop;
