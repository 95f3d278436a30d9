//! The words of attributes that are lists of their own.

use rendering_taxonomy::{
    ChooseMatch, Collapse, DateDayForm, DateForm, DateMonthForm, DatePartForm, DateParts,
    DelimiterBehavior, DisambiguationRule, Display, EtAlTerm, FontStyle, FontVariant, FontWeight,
    LabelPluralize, LongShortForm, NameAnd, NameAsSortOrder, NameForm, NumberForm, PageRangeFormat,
    SecondFieldAlign, SortDirection, StyleCategory, StyleClass, SubsequentAuthorSubstituteRule,
    TestPosition, TextCase, TextDecoration, VerticalAlign,
};

/// Whether something is so.
pub const BOOLEANS: &[(&str, bool)] = &[("true", true), ("false", false)];

/// `font-style`.
pub const FONT_STYLES: &[(&str, FontStyle)] = &[
    ("normal", FontStyle::Normal),
    ("italic", FontStyle::Italic),
    ("oblique", FontStyle::Oblique),
];

/// `font-variant`.
pub const FONT_VARIANTS: &[(&str, FontVariant)] = &[
    ("normal", FontVariant::Normal),
    ("small-caps", FontVariant::SmallCaps),
];

/// `font-weight`.
pub const FONT_WEIGHTS: &[(&str, FontWeight)] = &[
    ("normal", FontWeight::Normal),
    ("bold", FontWeight::Bold),
    ("light", FontWeight::Light),
];

/// `text-decoration`.
pub const DECORATIONS: &[(&str, TextDecoration)] = &[
    ("none", TextDecoration::None),
    ("underline", TextDecoration::Underline),
];

/// `vertical-align`.
pub const ALIGNMENTS: &[(&str, VerticalAlign)] = &[
    ("baseline", VerticalAlign::None),
    ("sup", VerticalAlign::Sup),
    ("sub", VerticalAlign::Sub),
];

/// `display`.
pub const DISPLAYS: &[(&str, Display)] = &[
    ("block", Display::Block),
    ("left-margin", Display::LeftMargin),
    ("right-inline", Display::RightInline),
    ("indent", Display::Indent),
];

/// `text-case`.
pub const TEXT_CASES: &[(&str, TextCase)] = &[
    ("lowercase", TextCase::Lowercase),
    ("uppercase", TextCase::Uppercase),
    ("capitalize-first", TextCase::CapitalizeFirst),
    ("capitalize-all", TextCase::CapitalizeAll),
    ("sentence", TextCase::Sentence),
    ("title", TextCase::Title),
];

/// Long or short. Also `form` of a year.
pub const LENGTHS: &[(&str, LongShortForm)] = &[
    ("long", LongShortForm::Long),
    ("short", LongShortForm::Short),
];

/// `form` of a number. Ordinals that are spelled out are printed with their endings.
pub const NUMBER_FORMS: &[(&str, NumberForm)] = &[
    ("numeric", NumberForm::Numeric),
    ("ordinal", NumberForm::Ordinal),
    ("long-ordinal", NumberForm::Ordinal),
    ("roman", NumberForm::Roman),
];

/// `plural` of a label.
pub const PLURALS: &[(&str, LabelPluralize)] = &[
    ("contextual", LabelPluralize::Contextual),
    ("always", LabelPluralize::Always),
    ("never", LabelPluralize::Never),
];

/// `form` of a date.
pub const DATE_FORMS: &[(&str, DateForm)] = &[
    ("text", DateForm::Text),
    ("numeric", DateForm::Numeric),
];

/// `name` of a part of a date, with the form that it has where none is said.
pub const DATE_PART_NAMES: &[(&str, DatePartForm)] = &[
    ("day", DatePartForm::Day(DateDayForm::Numeric)),
    ("month", DatePartForm::Month(DateMonthForm::Long)),
    ("year", DatePartForm::Year(LongShortForm::Long)),
];

/// `form` of a day.
pub const DAY_FORMS: &[(&str, DateDayForm)] = &[
    ("numeric", DateDayForm::Numeric),
    ("numeric-leading-zeros", DateDayForm::TwoDigits),
    ("ordinal", DateDayForm::Ordinal),
];

/// `form` of a month.
pub const MONTH_FORMS: &[(&str, DateMonthForm)] = &[
    ("long", DateMonthForm::Long),
    ("short", DateMonthForm::Short),
    ("numeric", DateMonthForm::Numeric),
    ("numeric-leading-zeros", DateMonthForm::TwoDigits),
];

/// `date-parts`.
pub const DATE_PARTS: &[(&str, DateParts)] = &[
    ("year-month-day", DateParts::YearMonthDay),
    ("year-month", DateParts::YearMonth),
    ("year", DateParts::Year),
];

/// `and`.
pub const ANDS: &[(&str, NameAnd)] = &[("text", NameAnd::Text), ("symbol", NameAnd::Symbol)];

/// `delimiter-precedes-last` and `delimiter-precedes-et-al`.
pub const DELIMITERS: &[(&str, DelimiterBehavior)] = &[
    ("contextual", DelimiterBehavior::Contextual),
    ("after-inverted-name", DelimiterBehavior::AfterInvertedName),
    ("always", DelimiterBehavior::Always),
    ("never", DelimiterBehavior::Never),
];

/// `form` of a name.
pub const NAME_FORMS: &[(&str, NameForm)] = &[
    ("long", NameForm::Long),
    ("short", NameForm::Short),
    ("count", NameForm::Count),
];

/// `name-as-sort-order`.
pub const SORT_ORDERS: &[(&str, NameAsSortOrder)] = &[
    ("first", NameAsSortOrder::First),
    ("all", NameAsSortOrder::All),
];

/// `term` of `et-al`.
pub const ET_AL_TERMS: &[(&str, EtAlTerm)] = &[
    ("et-al", EtAlTerm::EtAl),
    ("and others", EtAlTerm::AndOthers),
];

/// `match`.
pub const MATCHES: &[(&str, ChooseMatch)] = &[
    ("all", ChooseMatch::All),
    ("any", ChooseMatch::Any),
    ("none", ChooseMatch::None),
];

/// `position`.
pub const POSITIONS: &[(&str, TestPosition)] = &[
    ("first", TestPosition::First),
    ("subsequent", TestPosition::Subsequent),
    ("ibid", TestPosition::Ibid),
    ("ibid-with-locator", TestPosition::IbidWithLocator),
    ("near-note", TestPosition::NearNote),
];

/// `class` of a style.
pub const CLASSES: &[(&str, StyleClass)] = &[
    ("in-text", StyleClass::InText),
    ("note", StyleClass::Note),
];

/// `citation-format` of a category.
pub const CATEGORIES: &[(&str, StyleCategory)] = &[
    ("author", StyleCategory::Author),
    ("author-date", StyleCategory::AuthorDate),
    ("label", StyleCategory::Label),
    ("note", StyleCategory::Note),
    ("numeric", StyleCategory::Numeric),
];

/// `collapse`.
pub const COLLAPSES: &[(&str, Collapse)] = &[
    ("citation-number", Collapse::CitationNumber),
    ("year", Collapse::Year),
    ("year-suffix", Collapse::YearSuffix),
    ("year-suffix-ranged", Collapse::YearSuffixRanged),
];

/// `givenname-disambiguation-rule`.
pub const GIVEN_NAME_RULES: &[(&str, DisambiguationRule)] = &[
    ("all-names", DisambiguationRule::AllNames),
    (
        "all-names-with-initials",
        DisambiguationRule::AllNamesWithInitials,
    ),
    ("primary-name", DisambiguationRule::PrimaryName),
    (
        "primary-name-with-initials",
        DisambiguationRule::PrimaryNameWithInitials,
    ),
    ("by-cite", DisambiguationRule::ByCite),
];

/// `second-field-align`.
pub const SECOND_FIELDS: &[(&str, SecondFieldAlign)] = &[
    ("flush", SecondFieldAlign::Flush),
    ("margin", SecondFieldAlign::Margin),
];

/// `page-range-format`. The rule of the fifteenth edition is that of `chicago`.
pub const PAGE_RANGES: &[(&str, PageRangeFormat)] = &[
    ("chicago", PageRangeFormat::Chicago15),
    ("chicago-15", PageRangeFormat::Chicago15),
    ("chicago-16", PageRangeFormat::Chicago16),
    ("expanded", PageRangeFormat::Expanded),
    ("minimal", PageRangeFormat::Minimal),
    ("minimal-two", PageRangeFormat::MinimalTwo),
];

/// `sort` of a key.
pub const SORT_DIRECTIONS: &[(&str, SortDirection)] = &[
    ("ascending", SortDirection::Ascending),
    ("descending", SortDirection::Descending),
];

/// `subsequent-author-substitute-rule`.
pub const SUBSTITUTE_RULES: &[(&str, SubsequentAuthorSubstituteRule)] = &[
    ("complete-all", SubsequentAuthorSubstituteRule::CompleteAll),
    (
        "complete-each",
        SubsequentAuthorSubstituteRule::CompleteEach,
    ),
    ("partial-each", SubsequentAuthorSubstituteRule::PartialEach),
    (
        "partial-first",
        SubsequentAuthorSubstituteRule::PartialFirst,
    ),
];

/// `demote-non-dropping-particle`: whether the particle goes after the given name where it is not sorted.
pub const DEMOTES: &[(&str, bool)] = &[
    ("never", false),
    ("sort-only", false),
    ("display-and-sort", true),
];
