//! The rules as values that code has: each is the constant, wherever its texts and lists lie.

ghost use Rattle.std.specs.Prelude.{◌≡◌};
ghost use Rattle.xml_schema.specs.Constants.{placed_rule};
ghost use Rattle.xml_schema.specs.Moved.{moved_rule};

use crate::rules::{
    BIBLIOGRAPHY_RULE, CHOOSE_RULE, CITATION_RULE, DATE_IN_LOCALE_RULE, DATE_PART_RULE, DATE_RULE,
    DOCUMENT_RULE, ELSE_IF_RULE, ELSE_RULE, ET_AL_RULE, GROUP_RULE, IF_RULE, KEY_RULE,
    LABEL_IN_NAMES_RULE, LABEL_RULE, LAYOUT_RULE, LOCALE_RULE, MACRO_RULE, MULTIPLE_RULE,
    NAME_PART_RULE, NAME_RULE, NAMES_RULE, NUMBER_RULE, SINGLE_RULE, SORT_RULE, STYLE_OPTIONS_RULE,
    STYLE_RULE, SUBSTITUTE_RULE, TERM_RULE, TERMS_RULE, TEXT_RULE,
};
use xml_schema::Rule;

/// The rule of `document`.
pub(crate) fn document_rule() -> Rule
    ensures { moved_rule result ≡ placed_rule DOCUMENT_RULE }
{
    DOCUMENT_RULE
}

/// The rule of `style`.
pub(crate) fn style_rule() -> Rule
    ensures { moved_rule result ≡ placed_rule STYLE_RULE }
{
    STYLE_RULE
}

/// The rule of `citation`.
pub(crate) fn citation_rule() -> Rule
    ensures { moved_rule result ≡ placed_rule CITATION_RULE }
{
    CITATION_RULE
}

/// The rule of `bibliography`.
pub(crate) fn bibliography_rule() -> Rule
    ensures { moved_rule result ≡ placed_rule BIBLIOGRAPHY_RULE }
{
    BIBLIOGRAPHY_RULE
}

/// The rule of `layout`.
pub(crate) fn layout_rule() -> Rule
    ensures { moved_rule result ≡ placed_rule LAYOUT_RULE }
{
    LAYOUT_RULE
}

/// The rule of `macro`.
pub(crate) fn macro_rule() -> Rule
    ensures { moved_rule result ≡ placed_rule MACRO_RULE }
{
    MACRO_RULE
}

/// The rule of `sort`.
pub(crate) fn sort_rule() -> Rule
    ensures { moved_rule result ≡ placed_rule SORT_RULE }
{
    SORT_RULE
}

/// The rule of `key`.
pub(crate) fn key_rule() -> Rule
    ensures { moved_rule result ≡ placed_rule KEY_RULE }
{
    KEY_RULE
}

/// The rule of `text`.
pub(crate) fn text_rule() -> Rule
    ensures { moved_rule result ≡ placed_rule TEXT_RULE }
{
    TEXT_RULE
}

/// The rule of `number`.
pub(crate) fn number_rule() -> Rule
    ensures { moved_rule result ≡ placed_rule NUMBER_RULE }
{
    NUMBER_RULE
}

/// The rule of `label`.
pub(crate) fn label_rule() -> Rule
    ensures { moved_rule result ≡ placed_rule LABEL_RULE }
{
    LABEL_RULE
}

/// The rule of `label in names`.
pub(crate) fn label_in_names_rule() -> Rule
    ensures { moved_rule result ≡ placed_rule LABEL_IN_NAMES_RULE }
{
    LABEL_IN_NAMES_RULE
}

/// The rule of `date`.
pub(crate) fn date_rule() -> Rule
    ensures { moved_rule result ≡ placed_rule DATE_RULE }
{
    DATE_RULE
}

/// The rule of `date in locale`.
pub(crate) fn date_in_locale_rule() -> Rule
    ensures { moved_rule result ≡ placed_rule DATE_IN_LOCALE_RULE }
{
    DATE_IN_LOCALE_RULE
}

/// The rule of `date-part`.
pub(crate) fn date_part_rule() -> Rule
    ensures { moved_rule result ≡ placed_rule DATE_PART_RULE }
{
    DATE_PART_RULE
}

/// The rule of `names`.
pub(crate) fn names_rule() -> Rule
    ensures { moved_rule result ≡ placed_rule NAMES_RULE }
{
    NAMES_RULE
}

/// The rule of `name`.
pub(crate) fn name_rule() -> Rule
    ensures { moved_rule result ≡ placed_rule NAME_RULE }
{
    NAME_RULE
}

/// The rule of `name-part`.
pub(crate) fn name_part_rule() -> Rule
    ensures { moved_rule result ≡ placed_rule NAME_PART_RULE }
{
    NAME_PART_RULE
}

/// The rule of `et-al`.
pub(crate) fn et_al_rule() -> Rule
    ensures { moved_rule result ≡ placed_rule ET_AL_RULE }
{
    ET_AL_RULE
}

/// The rule of `substitute`.
pub(crate) fn substitute_rule() -> Rule
    ensures { moved_rule result ≡ placed_rule SUBSTITUTE_RULE }
{
    SUBSTITUTE_RULE
}

/// The rule of `group`.
pub(crate) fn group_rule() -> Rule
    ensures { moved_rule result ≡ placed_rule GROUP_RULE }
{
    GROUP_RULE
}

/// The rule of `choose`.
pub(crate) fn choose_rule() -> Rule
    ensures { moved_rule result ≡ placed_rule CHOOSE_RULE }
{
    CHOOSE_RULE
}

/// The rule of `if`.
pub(crate) fn if_rule() -> Rule
    ensures { moved_rule result ≡ placed_rule IF_RULE }
{
    IF_RULE
}

/// The rule of `else-if`.
pub(crate) fn else_if_rule() -> Rule
    ensures { moved_rule result ≡ placed_rule ELSE_IF_RULE }
{
    ELSE_IF_RULE
}

/// The rule of `else`.
pub(crate) fn else_rule() -> Rule
    ensures { moved_rule result ≡ placed_rule ELSE_RULE }
{
    ELSE_RULE
}

/// The rule of `locale`.
pub(crate) fn locale_rule() -> Rule
    ensures { moved_rule result ≡ placed_rule LOCALE_RULE }
{
    LOCALE_RULE
}

/// The rule of `style-options`.
pub(crate) fn style_options_rule() -> Rule
    ensures { moved_rule result ≡ placed_rule STYLE_OPTIONS_RULE }
{
    STYLE_OPTIONS_RULE
}

/// The rule of `terms`.
pub(crate) fn terms_rule() -> Rule
    ensures { moved_rule result ≡ placed_rule TERMS_RULE }
{
    TERMS_RULE
}

/// The rule of `term`.
pub(crate) fn term_rule() -> Rule
    ensures { moved_rule result ≡ placed_rule TERM_RULE }
{
    TERM_RULE
}

/// The rule of `single`.
pub(crate) fn single_rule() -> Rule
    ensures { moved_rule result ≡ placed_rule SINGLE_RULE }
{
    SINGLE_RULE
}

/// The rule of `multiple`.
pub(crate) fn multiple_rule() -> Rule
    ensures { moved_rule result ≡ placed_rule MULTIPLE_RULE }
{
    MULTIPLE_RULE
}
