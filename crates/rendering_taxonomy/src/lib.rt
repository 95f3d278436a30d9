//! The words of styles: variables, kinds, labels, terms and the values of attributes. Types alone.
#![tactic(auto)]

mod choose;
mod cite;
mod date;
mod formatting;
mod kind;
mod locator;
mod name;
mod number;
mod page;
mod style;
mod term;
mod text_case;
mod variable;

pub use choose::{ChooseMatch, TestPosition};
pub use cite::{CitePurpose, CollapseVerdict, IbidState, IdentifierUsage};
pub use date::{DateDayForm, DateForm, DateMonthForm, DatePartForm, DateParts, LongShortForm};
pub use formatting::{
    Display, FontStyle, FontVariant, FontWeight, Formatting, FormattingChanges, TextDecoration,
    VerticalAlign,
};
pub use kind::Kind;
pub use locator::Locator;
pub use name::{
    DelimiterBehavior, DisambiguatedNameForm, EtAlTerm, NameAnd, NameAsSortOrder, NameForm,
};
pub use number::{LabelPluralize, NumberForm};
pub use page::{PageRangeFormat, PageRule};
pub use style::{
    Collapse, DisambiguationRule, SecondFieldAlign, SortDirection, StyleCategory, StyleClass,
    SubsequentAuthorSubstituteRule,
};
pub use term::{Gender, OrdinalMatch, OtherTerm, Term, TermForm};
pub use text_case::TextCase;
pub use variable::{DateVariable, NameVariable, NumberVariable, StandardVariable, Variable};
