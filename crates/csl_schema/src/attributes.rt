//! Attributes that several elements of CSL may have.

use crate::words::{BOOLEANS, CASES, DATES, DELIMITERS, KINDS, LOCATORS, NAMES, NUMBERS, TEXTS};
use xml_schema::AttributeRule;
use xml_schema::Values::{Any, Number, OneOf, SomeOf};

/// How what is printed looks.
pub(crate) const FORMATTING: &[AttributeRule] = &[
    ("font-style", OneOf(&[&["normal", "italic", "oblique"]])),
    ("font-variant", OneOf(&[&["normal", "small-caps"]])),
    ("font-weight", OneOf(&[&["normal", "bold", "light"]])),
    ("text-decoration", OneOf(&[&["none", "underline"]])),
    ("vertical-align", OneOf(&[&["baseline", "sup", "sub"]])),
];

/// What stands before and after what is printed.
pub(crate) const AFFIXES: &[AttributeRule] = &[("prefix", Any), ("suffix", Any)];

/// Where what is printed stands in an entry of a bibliography.
pub(crate) const DISPLAY: &[AttributeRule] = &[(
    "display",
    OneOf(&[&["block", "left-margin", "right-inline", "indent"]]),
)];

/// The text between what is printed.
pub(crate) const DELIMITER: &[AttributeRule] = &[("delimiter", Any)];

/// In which letters a text is printed.
pub(crate) const TEXT_CASE: &[AttributeRule] = &[("text-case", OneOf(&[CASES]))];

/// Whether full stops are left out.
pub(crate) const STRIP_PERIODS: &[AttributeRule] = &[("strip-periods", OneOf(&[BOOLEANS]))];

/// Options of names.
pub(crate) const NAME_OPTIONS: &[AttributeRule] = &[
    ("and", OneOf(&[&["text", "symbol"]])),
    ("delimiter-precedes-et-al", OneOf(&[DELIMITERS])),
    ("delimiter-precedes-last", OneOf(&[DELIMITERS])),
    ("et-al-min", Number),
    ("et-al-use-first", Number),
    ("et-al-subsequent-min", Number),
    ("et-al-subsequent-use-first", Number),
    ("et-al-use-last", OneOf(&[BOOLEANS])),
    ("initialize", OneOf(&[BOOLEANS])),
    ("initialize-with", Any),
    ("name-as-sort-order", OneOf(&[&["first", "all"]])),
    ("sort-separator", Any),
];

/// Options of names that a style or a layout passes on to its names.
pub(crate) const INHERITED: &[AttributeRule] = &[
    ("name-form", OneOf(&[&["long", "short", "count"]])),
    ("name-delimiter", Any),
    ("names-delimiter", Any),
];

/// The tests of a branch.
pub(crate) const TESTS: &[AttributeRule] = &[
    ("disambiguate", OneOf(&[&["true"]])),
    ("is-numeric", SomeOf(&[TEXTS, NUMBERS, NAMES, DATES])),
    ("is-uncertain-date", SomeOf(&[DATES])),
    ("locator", SomeOf(&[LOCATORS])),
    (
        "position",
        SomeOf(&[&[
            "first",
            "subsequent",
            "ibid",
            "ibid-with-locator",
            "near-note",
        ]]),
    ),
    ("type", SomeOf(&[KINDS])),
    ("variable", SomeOf(&[TEXTS, NUMBERS, NAMES, DATES])),
    ("match", OneOf(&[&["all", "any", "none"]])),
];
