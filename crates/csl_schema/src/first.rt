//! The first fault of a style or of a locale, and the trees of texts that have none.

ghost use Rattle.std.specs.Prelude.{◌≡◌, IfOk, map};
ghost use Rattle.std.specs.Option.{option_map};
ghost use Rattle.std.specs.Str.{chars};
ghost use Rattle.laws.specs.Results.{Gives};
ghost use Rattle.xml_tree.specs.Views.{element_view};
ghost use Rattle.xml_schema.specs.Faults.{first_of};
ghost use Rattle.xml_schema.specs.Moved.{moved_rule};
ghost use Rattle.xml_schema.specs.Valid.{valid_tree_of};
ghost use Rattle.xml_schema.specs.ValidViews.{refusal_of};
ghost use Rattle.xml_schema.specs.Views.{fault_view};
ghost use Rattle.csl_schema.specs.Faults.{csl_rules, csl_schema, csl_faults};

use crate::placed::{
    bibliography_rule, choose_rule, citation_rule, date_in_locale_rule, date_part_rule, date_rule,
    document_rule, else_if_rule, else_rule, et_al_rule, group_rule, if_rule, key_rule,
    label_in_names_rule, label_rule, layout_rule, locale_rule, macro_rule, multiple_rule,
    name_part_rule, name_rule, names_rule, number_rule, single_rule, sort_rule, style_options_rule,
    style_rule, substitute_rule, term_rule, terms_rule, text_rule,
};
use crate::rules::SPACE;
use std::alloc::{AllocError, Global};
use xml_schema::{Fault, Rule, Schema, ValidError, first_fault, parse_valid};
use xml_tree::Element;

/// The rules of the elements.
fn csl_rules() -> [Rule; 30]
    ensures { map moved_rule result ≡ csl_rules }
{
    [
        style_rule(),
        citation_rule(),
        bibliography_rule(),
        layout_rule(),
        macro_rule(),
        sort_rule(),
        key_rule(),
        text_rule(),
        number_rule(),
        label_rule(),
        label_in_names_rule(),
        date_rule(),
        date_in_locale_rule(),
        date_part_rule(),
        names_rule(),
        name_rule(),
        name_part_rule(),
        et_al_rule(),
        substitute_rule(),
        group_rule(),
        choose_rule(),
        if_rule(),
        else_if_rule(),
        else_rule(),
        locale_rule(),
        style_options_rule(),
        terms_rule(),
        term_rule(),
        single_rule(),
        multiple_rule(),
    ]
}

/// The first fault of a style or of a locale by the schema of CSL 1.0.2, if it has one.
///
/// # Errors
/// Where a request for memory was refused.
pub fn first_csl_fault<'s>(
    alloc: Global,
    root: &Element<'s>,
) -> Result<Option<Fault<'s>>, AllocError>
    ensures { IfOk result (λ f. option_map fault_view f
        ≡ first_of (csl_faults (element_view root.now))) }
{
    let rules = csl_rules();
    let schema = Schema {
        space: SPACE,
        document: document_rule(),
        rules: &rules,
    };
    first_fault(alloc, &schema, root)
}

/// The tree of a text that is a valid style or locale.
///
/// # Errors
/// `Text` where the text is no XML with namespaces; else `Tree` with the first fault of its tree. `Memory` where a request for memory was
/// refused.
pub fn parse_csl<'s>(alloc: Global, text: &'s str) -> Result<Element<'s>, ValidError<'s>>
    ensures { Gives refusal_of element_view result (valid_tree_of csl_schema (chars text.now)) }
{
    let rules = csl_rules();
    let schema = Schema {
        space: SPACE,
        document: document_rule(),
        rules: &rules,
    };
    parse_valid(alloc, &schema, text)
}
