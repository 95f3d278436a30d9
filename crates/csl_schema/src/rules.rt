//! The elements of CSL 1.0.2: one rule for each. `info` has none, so it is passed over.

use crate::attributes::{
    AFFIXES, DELIMITER, DISPLAY, FORMATTING, INHERITED, NAME_OPTIONS, STRIP_PERIODS, TESTS,
    TEXT_CASE,
};
use crate::words::{
    BOOLEANS, DATE_FORMS, DATES, GENDERS, NAME_FORMS, NAMES, NUMBERS, PLURALS, TERM_FORMS, TEXTS,
    VERSIONS,
};
use xml_schema::Need::{AtLeastOne, ExactlyOne};
use xml_schema::Times::{Any as AnyTimes, AtMostOnce, Once};
use xml_schema::Values::{Any, Number, OneOf, Signed, SomeOf};
use xml_schema::{AttributeRule, ChildRule, Need, Rule};

/// The namespace of CSL.
pub const SPACE: &str = "http://purl.org/net/xbiblio/csl";

/// What prints something.
const RENDERING: &[ChildRule] = &[
    ("text", Some("text"), AnyTimes),
    ("number", Some("number"), AnyTimes),
    ("label", Some("label"), AnyTimes),
    ("date", Some("date"), AnyTimes),
    ("names", Some("names"), AnyTimes),
    ("group", Some("group"), AnyTimes),
    ("choose", Some("choose"), AnyTimes),
];

/// What a citation and a bibliography have.
const ORDERED_LAYOUT: &[ChildRule] = &[
    ("sort", Some("sort"), AtMostOnce),
    ("layout", Some("layout"), Once),
];

/// The tests of which a branch has one at least.
const TESTED: &[Need] = &[AtLeastOne(&[
    "disambiguate",
    "is-numeric",
    "is-uncertain-date",
    "locator",
    "position",
    "type",
    "variable",
])];

/// The name has to be there.
const NAMED: &[Need] = &[AtLeastOne(&["name"])];

/// The variable has to be there.
const ABOUT_A_VARIABLE: &[Need] = &[AtLeastOne(&["variable"])];

/// The language of a style or of a locale.
const LANGUAGE: &[AttributeRule] = &[("lang", Any)];

/// What a style says beside its names.
const STYLE: &[AttributeRule] = &[
    ("class", OneOf(&[&["in-text", "note"]])),
    ("version", OneOf(&[VERSIONS])),
    ("default-locale", Any),
    ("initialize-with-hyphen", OneOf(&[BOOLEANS])),
    (
        "page-range-format",
        OneOf(&[&[
            "chicago",
            "chicago-15",
            "chicago-16",
            "expanded",
            "minimal",
            "minimal-two",
        ]]),
    ),
    (
        "demote-non-dropping-particle",
        OneOf(&[&["never", "sort-only", "display-and-sort"]]),
    ),
];

/// What a citation says beside its names.
const CITATION: &[AttributeRule] = &[
    ("disambiguate-add-names", OneOf(&[BOOLEANS])),
    ("disambiguate-add-givenname", OneOf(&[BOOLEANS])),
    ("disambiguate-add-year-suffix", OneOf(&[BOOLEANS])),
    (
        "givenname-disambiguation-rule",
        OneOf(&[&[
            "all-names",
            "all-names-with-initials",
            "primary-name",
            "primary-name-with-initials",
            "by-cite",
        ]]),
    ),
    (
        "collapse",
        OneOf(&[&[
            "citation-number",
            "year",
            "year-suffix",
            "year-suffix-ranged",
        ]]),
    ),
    ("cite-group-delimiter", Any),
    ("after-collapse-delimiter", Any),
    ("year-suffix-delimiter", Any),
    ("near-note-distance", Number),
];

/// What a bibliography says beside its names.
const BIBLIOGRAPHY: &[AttributeRule] = &[
    ("hanging-indent", OneOf(&[BOOLEANS])),
    ("second-field-align", OneOf(&[&["flush", "margin"]])),
    ("line-spacing", Number),
    ("entry-spacing", Signed),
    ("subsequent-author-substitute", Any),
    (
        "subsequent-author-substitute-rule",
        OneOf(&[&[
            "complete-all",
            "complete-each",
            "partial-each",
            "partial-first",
        ]]),
    ),
];

/// What an element is sorted by.
const KEY: &[AttributeRule] = &[
    ("variable", OneOf(&[TEXTS, NUMBERS, NAMES, DATES])),
    ("macro", Any),
    ("sort", OneOf(&[&["ascending", "descending"]])),
    ("names-min", Number),
    ("names-use-first", Number),
    ("names-use-last", OneOf(&[BOOLEANS])),
];

/// What a text prints, and how.
const TEXT: &[AttributeRule] = &[
    ("variable", OneOf(&[TEXTS, NUMBERS])),
    ("macro", Any),
    ("term", Any),
    ("value", Any),
    ("form", OneOf(&[TERM_FORMS])),
    ("plural", OneOf(&[BOOLEANS])),
    ("quotes", OneOf(&[BOOLEANS])),
];

/// What a number prints, and how.
const NUMBER: &[AttributeRule] = &[
    ("variable", OneOf(&[NUMBERS])),
    (
        "form",
        OneOf(&[&["numeric", "ordinal", "roman", "long-ordinal"]]),
    ),
];

/// How a label is printed.
const LABEL_FORM: &[AttributeRule] = &[
    ("form", OneOf(&[TERM_FORMS])),
    ("plural", OneOf(&[PLURALS])),
];

/// What a label is of.
const LABEL_OF: &[AttributeRule] = &[("variable", OneOf(&[NUMBERS]))];

/// What a date prints, and how much of it.
const DATE: &[AttributeRule] = &[
    ("variable", OneOf(&[DATES])),
    (
        "date-parts",
        OneOf(&[&["year-month-day", "year-month", "year"]]),
    ),
];

/// The form of a date.
const DATE_FORM: &[AttributeRule] = &[("form", OneOf(&[DATE_FORMS]))];

/// What a part of a date prints, and how.
const DATE_PART: &[AttributeRule] = &[
    ("name", OneOf(&[&["year", "month", "day"]])),
    (
        "form",
        OneOf(&[&[
            "numeric",
            "numeric-leading-zeros",
            "ordinal",
            "long",
            "short",
        ]]),
    ),
    ("range-delimiter", Any),
];

/// What names print.
const PEOPLE: &[AttributeRule] = &[("variable", SomeOf(&[NAMES]))];

/// The form of a name.
const NAME: &[AttributeRule] = &[("form", OneOf(&[NAME_FORMS]))];

/// Which part of a name is meant.
const NAME_PART: &[AttributeRule] = &[("name", OneOf(&[&["given", "family"]]))];

/// The term for the names left out.
const ET_AL: &[AttributeRule] = &[("term", OneOf(&[&["et-al", "and others"]]))];

/// The version of a locale.
const LOCALE: &[AttributeRule] = &[("version", OneOf(&[VERSIONS]))];

/// Options of a locale.
const OPTIONS: &[AttributeRule] = &[
    ("punctuation-in-quote", OneOf(&[BOOLEANS])),
    ("limit-day-ordinals-to-day-1", OneOf(&[BOOLEANS])),
];

/// Which term is meant.
const TERM: &[AttributeRule] = &[
    ("name", Any),
    ("form", OneOf(&[TERM_FORMS])),
    ("gender", OneOf(&[GENDERS])),
    ("gender-form", OneOf(&[GENDERS])),
    (
        "match",
        OneOf(&[&["last-digit", "last-two-digits", "whole-number"]]),
    ),
];

/// The rule around the root, which is a style or a locale.
pub const DOCUMENT_RULE: Rule = Rule {
    name: "document",
    attributes: &[],
    xml_attributes: &[],
    needs: &[],
    children: &[
        ("style", Some("style"), AnyTimes),
        ("locale", Some("locale"), AnyTimes),
    ],
    holds_text: false,
};

/// The rule of `style`.
pub const STYLE_RULE: Rule = Rule {
    name: "style",
    attributes: &[STYLE, NAME_OPTIONS, INHERITED],
    xml_attributes: LANGUAGE,
    needs: &[AtLeastOne(&["version"])],
    children: &[
        ("info", None, Once),
        ("locale", Some("locale"), AnyTimes),
        ("macro", Some("macro"), AnyTimes),
        ("citation", Some("citation"), AtMostOnce),
        ("bibliography", Some("bibliography"), AtMostOnce),
    ],
    holds_text: false,
};

/// The rule of `citation`.
pub const CITATION_RULE: Rule = Rule {
    name: "citation",
    attributes: &[CITATION, NAME_OPTIONS, INHERITED],
    xml_attributes: &[],
    needs: &[],
    children: ORDERED_LAYOUT,
    holds_text: false,
};

/// The rule of `bibliography`.
pub const BIBLIOGRAPHY_RULE: Rule = Rule {
    name: "bibliography",
    attributes: &[BIBLIOGRAPHY, NAME_OPTIONS, INHERITED],
    xml_attributes: &[],
    needs: &[],
    children: ORDERED_LAYOUT,
    holds_text: false,
};

/// The rule of `layout`.
pub const LAYOUT_RULE: Rule = Rule {
    name: "layout",
    attributes: &[FORMATTING, AFFIXES, DELIMITER],
    xml_attributes: &[],
    needs: &[],
    children: RENDERING,
    holds_text: false,
};

/// The rule of `macro`.
pub const MACRO_RULE: Rule = Rule {
    name: "macro",
    attributes: &[&[("name", Any)]],
    xml_attributes: &[],
    needs: NAMED,
    children: RENDERING,
    holds_text: false,
};

/// The rule of `sort`.
pub const SORT_RULE: Rule = Rule {
    name: "sort",
    attributes: &[],
    xml_attributes: &[],
    needs: &[],
    children: &[("key", Some("key"), AnyTimes)],
    holds_text: false,
};

/// The rule of `key`.
pub const KEY_RULE: Rule = Rule {
    name: "key",
    attributes: &[KEY],
    xml_attributes: &[],
    needs: &[ExactlyOne(&["variable", "macro"])],
    children: &[],
    holds_text: false,
};

/// The rule of `text`.
pub const TEXT_RULE: Rule = Rule {
    name: "text",
    attributes: &[TEXT, FORMATTING, AFFIXES, DISPLAY, STRIP_PERIODS, TEXT_CASE],
    xml_attributes: &[],
    needs: &[ExactlyOne(&["variable", "macro", "term", "value"])],
    children: &[],
    holds_text: false,
};

/// The rule of `number`.
pub const NUMBER_RULE: Rule = Rule {
    name: "number",
    attributes: &[NUMBER, FORMATTING, AFFIXES, DISPLAY, TEXT_CASE],
    xml_attributes: &[],
    needs: ABOUT_A_VARIABLE,
    children: &[],
    holds_text: false,
};

/// The rule of `label`.
pub const LABEL_RULE: Rule = Rule {
    name: "label",
    attributes: &[
        LABEL_OF,
        LABEL_FORM,
        FORMATTING,
        AFFIXES,
        STRIP_PERIODS,
        TEXT_CASE,
    ],
    xml_attributes: &[],
    needs: ABOUT_A_VARIABLE,
    children: &[],
    holds_text: false,
};

/// The rule of `label in names`.
pub const LABEL_IN_NAMES_RULE: Rule = Rule {
    name: "label in names",
    attributes: &[LABEL_FORM, FORMATTING, AFFIXES, STRIP_PERIODS, TEXT_CASE],
    xml_attributes: &[],
    needs: &[],
    children: &[],
    holds_text: false,
};

/// The rule of `date`.
pub const DATE_RULE: Rule = Rule {
    name: "date",
    attributes: &[
        DATE, DATE_FORM, FORMATTING, AFFIXES, DISPLAY, DELIMITER, TEXT_CASE,
    ],
    xml_attributes: &[],
    needs: ABOUT_A_VARIABLE,
    children: &[("date-part", Some("date-part"), AnyTimes)],
    holds_text: false,
};

/// The rule of `date in locale`.
pub const DATE_IN_LOCALE_RULE: Rule = Rule {
    name: "date in locale",
    attributes: &[DATE_FORM, FORMATTING, AFFIXES, DELIMITER, TEXT_CASE],
    xml_attributes: &[],
    needs: &[AtLeastOne(&["form"])],
    children: &[("date-part", Some("date-part"), AnyTimes)],
    holds_text: false,
};

/// The rule of `date-part`.
pub const DATE_PART_RULE: Rule = Rule {
    name: "date-part",
    attributes: &[DATE_PART, FORMATTING, AFFIXES, STRIP_PERIODS, TEXT_CASE],
    xml_attributes: &[],
    needs: NAMED,
    children: &[],
    holds_text: false,
};

/// The rule of `names`.
pub const NAMES_RULE: Rule = Rule {
    name: "names",
    attributes: &[PEOPLE, FORMATTING, AFFIXES, DISPLAY, DELIMITER],
    xml_attributes: &[],
    needs: ABOUT_A_VARIABLE,
    children: &[
        ("name", Some("name"), AtMostOnce),
        ("et-al", Some("et-al"), AtMostOnce),
        ("label", Some("label in names"), AtMostOnce),
        ("substitute", Some("substitute"), AtMostOnce),
    ],
    holds_text: false,
};

/// The rule of `name`.
pub const NAME_RULE: Rule = Rule {
    name: "name",
    attributes: &[NAME, NAME_OPTIONS, FORMATTING, AFFIXES, DELIMITER],
    xml_attributes: &[],
    needs: &[],
    children: &[("name-part", Some("name-part"), AnyTimes)],
    holds_text: false,
};

/// The rule of `name-part`.
pub const NAME_PART_RULE: Rule = Rule {
    name: "name-part",
    attributes: &[NAME_PART, FORMATTING, AFFIXES, TEXT_CASE],
    xml_attributes: &[],
    needs: NAMED,
    children: &[],
    holds_text: false,
};

/// The rule of `et-al`.
pub const ET_AL_RULE: Rule = Rule {
    name: "et-al",
    attributes: &[ET_AL, FORMATTING, AFFIXES],
    xml_attributes: &[],
    needs: &[],
    children: &[],
    holds_text: false,
};

/// The rule of `substitute`.
pub const SUBSTITUTE_RULE: Rule = Rule {
    name: "substitute",
    attributes: &[],
    xml_attributes: &[],
    needs: &[],
    children: RENDERING,
    holds_text: false,
};

/// The rule of `group`.
pub const GROUP_RULE: Rule = Rule {
    name: "group",
    attributes: &[FORMATTING, AFFIXES, DISPLAY, DELIMITER],
    xml_attributes: &[],
    needs: &[],
    children: RENDERING,
    holds_text: false,
};

/// The rule of `choose`.
pub const CHOOSE_RULE: Rule = Rule {
    name: "choose",
    attributes: &[],
    xml_attributes: &[],
    needs: &[],
    children: &[
        ("if", Some("if"), Once),
        ("else-if", Some("else-if"), AnyTimes),
        ("else", Some("else"), AtMostOnce),
    ],
    holds_text: false,
};

/// The rule of `if`.
pub const IF_RULE: Rule = Rule {
    name: "if",
    attributes: &[TESTS],
    xml_attributes: &[],
    needs: TESTED,
    children: RENDERING,
    holds_text: false,
};

/// The rule of `else-if`.
pub const ELSE_IF_RULE: Rule = Rule {
    name: "else-if",
    attributes: &[TESTS],
    xml_attributes: &[],
    needs: TESTED,
    children: RENDERING,
    holds_text: false,
};

/// The rule of `else`.
pub const ELSE_RULE: Rule = Rule {
    name: "else",
    attributes: &[],
    xml_attributes: &[],
    needs: &[],
    children: RENDERING,
    holds_text: false,
};

/// The rule of `locale`.
pub const LOCALE_RULE: Rule = Rule {
    name: "locale",
    attributes: &[LOCALE],
    xml_attributes: LANGUAGE,
    needs: &[],
    children: &[
        ("info", None, AtMostOnce),
        ("style-options", Some("style-options"), AtMostOnce),
        ("date", Some("date in locale"), AnyTimes),
        ("terms", Some("terms"), AtMostOnce),
    ],
    holds_text: false,
};

/// The rule of `style-options`.
pub const STYLE_OPTIONS_RULE: Rule = Rule {
    name: "style-options",
    attributes: &[OPTIONS],
    xml_attributes: &[],
    needs: &[],
    children: &[],
    holds_text: false,
};

/// The rule of `terms`.
pub const TERMS_RULE: Rule = Rule {
    name: "terms",
    attributes: &[],
    xml_attributes: &[],
    needs: &[],
    children: &[("term", Some("term"), AnyTimes)],
    holds_text: false,
};

/// The rule of `term`.
pub const TERM_RULE: Rule = Rule {
    name: "term",
    attributes: &[TERM],
    xml_attributes: &[],
    needs: NAMED,
    children: &[
        ("single", Some("single"), AtMostOnce),
        ("multiple", Some("multiple"), AtMostOnce),
    ],
    holds_text: true,
};

/// The rule of `single`.
pub const SINGLE_RULE: Rule = Rule {
    name: "single",
    attributes: &[],
    xml_attributes: &[],
    needs: &[],
    children: &[],
    holds_text: true,
};

/// The rule of `multiple`.
pub const MULTIPLE_RULE: Rule = Rule {
    name: "multiple",
    attributes: &[],
    xml_attributes: &[],
    needs: &[],
    children: &[],
    holds_text: true,
};
