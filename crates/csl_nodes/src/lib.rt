//! What the elements of CSL 1.0.2 that print something mean, as the nodes of a style: texts, numbers, labels, dates, names, groups and
//! choices, with their looks, options and conditions. The meanings are those of trees that are valid by the schema of CSL; what that
//! excludes is passed over or stands for what is not said.
#![tactic(auto)]

mod conditions;
mod dates;
mod leaves;
mod looks;
mod macros;
mod names;
mod nodes;
mod options;
mod pushing;
mod terms;
mod words;

pub use dates::date_parts;
pub use looks::{formatting, term_form, text_case};
pub use macros::macro_of;
pub use nodes::nodes_inside;
pub use options::name_options;
pub use terms::{listed_term, term_of, variable_of};
pub use words::Words;
