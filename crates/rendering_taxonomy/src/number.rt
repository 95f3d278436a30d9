//! How numbers and their labels are printed.

/// How a number is printed.
#[derive(Clone, Copy, Debug, PartialEq, Eq, Hash)]
pub enum NumberForm {
    Numeric,
    Ordinal,
    Roman,
}

/// When a label stands in the plural: where its value does, always, or never.
#[derive(Clone, Copy, Debug, PartialEq, Eq, Hash)]
pub enum LabelPluralize {
    Contextual,
    Always,
    Never,
}
