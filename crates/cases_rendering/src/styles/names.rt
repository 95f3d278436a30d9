//! Names nodes, without the substitute of names.

use crate::styles::looks::{changes, look};
use crate::styles::name_options::{NAME_MEMBERS, options};
use cases::{Session, Value, member};
use csl_words::{NAME_VARIABLES, PLURALS, TERM_FORMS};
use rendering_style::{EtAl, LabelLook, Name, Names};
use rendering_taxonomy::{EtAlTerm, LabelPluralize, TermForm};

const ET_ALS: &[(&str, EtAlTerm)] = &[
    ("et-al", EtAlTerm::EtAl),
    ("and-others", EtAlTerm::AndOthers),
];

/// How a label looks.
pub(crate) fn label_look(session: &mut Session, given: &Value<'_>) -> LabelLook {
    LabelLook {
        form: session.word_or(given, "form", TERM_FORMS, TermForm::Long),
        plural: session.word_or(given, "plural", PLURALS, LabelPluralize::Contextual),
        strip_periods: session.is_set(given, "strip_periods"),
        text_case: None,
        look: look(session, given),
    }
}

/// The members of the label of names.
const LABEL_MEMBERS: [&str; 6] = [
    "form",
    "plural",
    "strip_periods",
    "formatting",
    "prefix",
    "suffix",
];

/// The label of names, where the member is not left out.
fn label(session: &mut Session, node: &Value<'_>) -> Option<LabelLook> {
    let Some(given) = member(node, "label") else {
        return None;
    };
    session.only(given, &LABEL_MEMBERS);
    Some(label_look(session, given))
}

/// What is specified for single names, where the member is not left out.
fn name(session: &mut Session, node: &Value<'_>) -> Option<Name> {
    let Some(given) = member(node, "name") else {
        return None;
    };
    session.only(given, &NAME_MEMBERS);
    Some(Name {
        options: options(session, given),
        formatting: changes(session, given),
        prefix: session.text_or_empty(given, "prefix"),
        suffix: session.text_or_empty(given, "suffix"),
        given: None,
        family: None,
    })
}

/// The term for the names left out, where the member is not left out.
fn et_al(session: &mut Session, node: &Value<'_>) -> Option<EtAl> {
    let Some(given) = member(node, "et_al") else {
        return None;
    };
    session.only(given, &["term", "formatting"]);
    Some(EtAl {
        term: session.word_or(given, "term", ET_ALS, EtAlTerm::EtAl),
        formatting: changes(session, given),
    })
}

/// The members of a names node.
const MEMBERS: [&str; 12] = [
    "node",
    "variables",
    "name",
    "et_al",
    "label",
    "label_before",
    "substitute",
    "delimiter",
    "formatting",
    "prefix",
    "suffix",
    "display",
];

/// The people of variables.
pub(crate) fn names_of(session: &mut Session, node: &Value<'_>) -> Names {
    session.only(node, &MEMBERS);
    let variables = session.words(node, "variables", NAME_VARIABLES);
    if variables.is_empty() {
        session.want("variables", "a list of one or more");
    }
    Names {
        variables,
        name: name(session, node),
        et_al: et_al(session, node),
        label: label(session, node),
        label_is_first: session.is_set(node, "label_before"),
        merges_editor_translator: false,
        delimiter: session.maybe_owned_text(node, "delimiter"),
        look: look(session, node),
    }
}
