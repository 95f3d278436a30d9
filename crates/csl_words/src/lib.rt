//! What the words of CSL 1.0.2 stand for, the values of the attributes of an element, and the elements in an element by their names.
#![tactic(auto)]

mod elements;
mod kinds;
mod listing;
mod looking;
mod options;
mod printing;
mod terms;
mod variables;

pub use elements::{children_of, is_called, named_by, part_called};
pub use kinds::{KINDS, LOCATORS};
pub use listing::{values_by, words_in};
pub use looking::{attribute, in_table, is_set, is_true, number, number_in, says, value_by};
pub use options::{
    ALIGNMENTS, ANDS, BOOLEANS, CATEGORIES, CLASSES, COLLAPSES, DATE_FORMS, DATE_PART_NAMES,
    DATE_PARTS, DAY_FORMS, DECORATIONS, DELIMITERS, DEMOTES, DISPLAYS, ET_AL_TERMS, FONT_STYLES,
    FONT_VARIANTS, FONT_WEIGHTS, GIVEN_NAME_RULES, LENGTHS, MATCHES, MONTH_FORMS, NAME_FORMS,
    NUMBER_FORMS, PAGE_RANGES, PLURALS, POSITIONS, SECOND_FIELDS, SORT_DIRECTIONS, SORT_ORDERS,
    SUBSTITUTE_RULES, TEXT_CASES,
};
pub use printing::{printed, printed_text};
pub use terms::{DATE_TERMS, GENDERS, ORDINAL_MATCHES, OTHER_TERMS, TERM_FORMS};
pub use variables::{DATE_VARIABLES, NAME_VARIABLES, NUMBER_VARIABLES, TEXT_VARIABLES};
