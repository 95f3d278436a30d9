//! The parts of a date node, what is changed of them, and what stands between them: its own, or else those of a locale.

ghost use Rattle.std.specs.Prelude.{◌≡◌, [], map};
ghost use Rattle.std.specs.List.{list_any};
ghost use Rattle.std.specs.Option.{option_and_then, option_map, option_map_or, unwrap_or};
ghost use Rattle.laws.specs.Text.{characters, spelled};
ghost use Rattle.rendering_context.specs.Views.{context_view};
ghost use Rattle.rendering_dates.specs.Dates.{cut_to};
ghost use Rattle.rendering_dates.specs.Views.{shape_view};
ghost use Rattle.rendering_entries.specs.Answers.{Answers};
ghost use Rattle.rendering_leaves.specs.Values.{is_year, own_or, prints_year, shape_of};
ghost use Rattle.rendering_locale.specs.Lookup.{date_found};
ghost use Rattle.rendering_locale.specs.Views.{localized_date_view, part_view};
ghost use Rattle.rendering_style.specs.Views.{date_node_view};

use rendering_context::Context;
use rendering_dates::DateShape;
use rendering_locale::{AskedLocales, DatePart, LocalizedDate};
use rendering_style::Date;
use rendering_taxonomy::{DateForm, DatePartForm};
use texts::no_text;

/// The parts of a date node with what is changed of them, cut to so much of a date, and what stands between them.
pub(crate) fn date_shape<'a>(context: &Context<'_, 'a>, node: &'a Date) -> DateShape<'a>
    ensures { (a : Answers) → shape_view result
        ≡ cut_to node.now.parts (shape_of (context_view a context.now) (date_node_view node.now)) }
{
    let localized = localized(context.locales, node.form);
    DateShape {
        parts: own_or_localized(&node.own_parts, localized),
        changes: &node.part_changes,
        cut: node.parts,
        delimiter: delimiter_of(&node.delimiter, localized),
        merges_ranges: node.merges_ranges,
    }
}

/// Whether a date node prints years.
pub(crate) fn prints_year(context: &Context<'_, '_>, node: &Date) -> bool
    ensures { (a : Answers) → result
        ≡ prints_year (context_view a context.now) (date_node_view node.now) }
{
    has_year(own_or_localized(&node.own_parts, localized(context.locales, node.form)))
}

/// Whether a part is the year.
fn has_year(parts: &[DatePart]) -> bool
    ensures { result ≡ list_any (λ p. is_year p.form) (map part_view parts.now) }
{
    for part in parts {
        if matches!(part.form, DatePartForm::Year(_)) {
            return true;
        }
    }
    false
}

/// The locale's date of a form, where there is a form.
fn localized<'a>(locales: &AskedLocales<'a>, form: Option<DateForm>) -> Option<&'a LocalizedDate>
    ensures { option_map (λ d. localized_date_view d.now) result
        ≡ option_and_then (date_found locales.now) form }
{
    locales.date(form?)
}

/// A node's own parts, or else those of a locale, where there are some.
fn own_or_localized<'a>(own: &'a [DatePart], localized: Option<&'a LocalizedDate>) -> &'a [DatePart]
    ensures { map part_view result.now ≡ own_or (map part_view own.now) (option_map_or
        (λ l. l.parts) (option_map (λ d. localized_date_view d.now) localized.entry) []) }
{
    if !own.is_empty() {
        return own;
    }
    match localized {
        Some(date) => &date.parts,
        None => &[],
    }
}

/// A node's own text between its parts, or else that of a locale, where there is one.
fn delimiter_of<'a>(own: &'a Option<String>, localized: Option<&'a LocalizedDate>) -> &'a str
    ensures { spelled result ≡ unwrap_or (option_map characters own.now) (option_map_or
        (λ l. l.delimiter) (option_map (λ d. localized_date_view d.now) localized.entry) []) }
{
    match own {
        Some(text) => text.as_str(),
        None => localized_delimiter(localized),
    }
}

/// The text between the parts of a locale's date, empty where there is none.
fn localized_delimiter<'a>(localized: Option<&'a LocalizedDate>) -> &'a str
    ensures { spelled result ≡ option_map_or (λ l. l.delimiter)
        (option_map (λ d. localized_date_view d.now) localized.entry) [] }
{
    match localized {
        Some(date) => date.delimiter.as_str(),
        None => no_text(),
    }
}
