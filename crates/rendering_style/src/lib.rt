//! Styles: the nodes that say what is printed, and the parts that they stand in.
#![tactic(auto)]

mod calls;
mod error;
mod levels;
mod node;
mod opening;
mod options;
mod parts;
mod sort;
mod style;

pub use error::StyleError;
pub use node::{
    ChangedDatePart, ChooseBranch, ChooseTest, Condition, Date, DatePartChange, EtAl, Group, Label,
    LabelLook, Look, Name, NamePart, Names, Node, Number, Text, TextLook, TextTarget,
};
pub use opening::opening_deeper_changes_nothing;
pub use options::NameOptions;
pub use parts::{Bibliography, Citation, Layout, Macro, StyleParts};
pub use sort::{SortKey, SortTarget};
pub use style::Style;
