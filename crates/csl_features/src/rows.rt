//! The table of features that are not carried out.

/// An attribute, and a word in its value. Where a text is empty, nothing is wanted there.
pub(crate) type Wanted = (&'static str, &'static str);

/// An element, two attributes of it, an element in it, and how the feature is called that it asks for then. Where a text is empty, nothing is
/// wanted there.
pub(crate) type Row = (&'static str, Wanted, Wanted, &'static str, &'static str);

/// No attribute is wanted.
const NOTHING: Wanted = ("", "");

/// All of them, in order.
pub(crate) const FEATURES: &[Row] = &[
    (
        "number",
        ("form", "long-ordinal"),
        NOTHING,
        "",
        "long-ordinal",
    ),
    ("term", ("gender-form", ""), NOTHING, "", "gender-form"),
    ("term", ("match", ""), NOTHING, "", "match"),
];
