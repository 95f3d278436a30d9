//! Names as a style prints them: what a node, the layout and the style say of them; and the people of a names node on a page, in the forms
//! that disambiguate cites.
#![tactic(auto)]

mod around;
mod label;
mod left_open;
mod list;
mod name_parts;
mod names;
mod options;
mod own;
mod parts;
mod person;
mod roles;
mod style;
mod words;

pub use around::{NamesAround, OverridingOptions};
pub use label::{label_manner, pluralizes};
pub use left_open::{
    hyphens_stay, names_are_one_text, node_delimits_people, nodes_say_their_own,
    roles_are_printed_each, runs_are_cut, term_is_delimited_from_two,
};
pub use names::{names_frame, push_names};
pub use options::ResolvedNameOptions;
pub use own::properties_by;
pub use parts::NamesParts;
pub use style::NameSetting;
