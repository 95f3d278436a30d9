//! What an element says of names.

ghost use Rattle.std.specs.Prelude.{◌≡◌, IfOk};
ghost use Rattle.rendering_style.specs.Views.{options_view};
ghost use Rattle.xml_tree.specs.Views.{element_view};
ghost use Rattle.csl_nodes.specs.Options.{name_options};

use csl_words::{
    ANDS, DELIMITERS, DEMOTES, NAME_FORMS, SORT_ORDERS, is_set, number, printed, value_by,
};
use rendering_style::NameOptions;
use std::alloc::{AllocError, Global};
use xml_tree::Element;

/// What an element says of names, by the names of its attributes for the form and for the delimiter.
///
/// # Errors
/// Where a request for memory was refused.
pub fn name_options(
    alloc: Global,
    form: &str,
    delimiter: &str,
    element: &Element<'_>,
) -> Result<NameOptions, AllocError>
    ensures { IfOk result (λ o. options_view o
        ≡ name_options form.now delimiter.now (element_view element.now)) }
{
    let between = printed(alloc, delimiter, element)?;
    let initialize_with = printed(alloc, "initialize-with", element)?;
    let sort_separator = printed(alloc, "sort-separator", element)?;
    let names_delimiter = printed(alloc, "names-delimiter", element)?;
    Ok(NameOptions {
        and: value_by(ANDS, "and", element),
        delimiter: between,
        delimiter_precedes_last: value_by(DELIMITERS, "delimiter-precedes-last", element),
        et_al_min: number("et-al-min", element),
        et_al_use_first: number("et-al-use-first", element),
        et_al_subsequent_min: number("et-al-subsequent-min", element),
        et_al_subsequent_use_first: number("et-al-subsequent-use-first", element),
        et_al_use_last: is_set("et-al-use-last", element),
        form: value_by(NAME_FORMS, form, element),
        initialize_with,
        name_as_sort_order: value_by(SORT_ORDERS, "name-as-sort-order", element),
        sort_separator,
        demote_non_dropping_particle: value_by(DEMOTES, "demote-non-dropping-particle", element),
        delimiter_precedes_et_al: value_by(DELIMITERS, "delimiter-precedes-et-al", element),
        initialize: is_set("initialize", element),
        initialize_with_hyphen: is_set("initialize-with-hyphen", element),
        splits_initials: None,
        names_delimiter,
    })
}
