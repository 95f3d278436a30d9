//! Files of CSL, and documents that are cited in the styles of such files.

use crate::bytes::bytes;
use crate::citing::answer_as_text;
use crate::setting::{CiteSetting, english, format};
use cases::{Refusal, Session, Value};
use cases_literature::boxed;
use cite::{Locale, Style};
use csl_features::features;
use csl_locales::locale;
use csl_nodes::Words;
use csl_schema::parse_csl;
use csl_styles::{Csl, CslError, Wrong, read};
use xml_schema::ValidError;
use xml_tree::Element;

/// The members of a document that is cited in a style.
const MEMBERS: [&str; 9] = [
    "case", "name", "style", "locale", "bib", "document", "format", "sections", "message",
];

/// The name of what is wrong with an element.
fn wrong_name(wrong: Wrong<'_>) -> &'static str {
    match wrong {
        Wrong::Schema(_) => "Schema",
        Wrong::NoCitation => "NoCitation",
        Wrong::SecondMacro => "SecondMacro",
        Wrong::UnknownMacro => "UnknownMacro",
    }
}

/// Writes why a text is refused, and the byte where that shows.
fn put_refused_at(session: &mut Session, name: &str, text: &str, left: usize) {
    session.put_refused(name);
    session.put_count("offset", text.len().saturating_sub(left));
}

/// Writes why a text is no file of CSL.
fn put_csl_error(session: &mut Session, text: &str, error: &CslError<'_>) {
    match error {
        CslError::Memory => session.refuse(Refusal::Memory),
        CslError::Text { fault: _, left } => put_refused_at(session, "Text", text, *left),
        CslError::Tree(fault) => put_refused_at(session, wrong_name(fault.wrong), text, fault.left),
        CslError::Ring { name, left } => {
            put_refused_at(session, "Ring", text, *left);
            session.put_text("macro", name.as_str());
        }
        CslError::TooDeep { left } => put_refused_at(session, "TooDeep", text, *left),
    }
}

/// Writes words of terms.
fn put_words(session: &mut Session, words: &Words) {
    session.begin_list("words");
    for word in words.as_slice() {
        session.string(word.as_str());
    }
    session.end_array();
}

/// Writes what a file of CSL is.
fn put_csl(session: &mut Session, csl: &Csl) {
    match csl {
        Csl::Independent { words, style: _ } => {
            session.put_text("means", "style");
            put_words(session, words);
        }
        Csl::Dependent {
            parent,
            default_locale: _,
        } => {
            session.put_text("means", "dependent");
            session.put_text("parent", parent.as_str());
        }
        Csl::Localized { words, locale: _ } => {
            session.put_text("means", "locale");
            put_words(session, words);
        }
    }
}

/// Writes what the elements of a tree ask for and is not carried out, each with the byte of the text where its element begins.
fn put_asked(session: &mut Session, text: &str, root: &Element<'_>) {
    let found = features(session.alloc, root);
    let Some(asked) = session.allocated(found) else {
        return;
    };
    session.begin_list("asks");
    for feature in asked {
        session.begin_object();
        session.put_text("feature", feature.name);
        session.put_count("offset", text.len().saturating_sub(feature.left));
        session.end_object();
    }
    session.end_array();
}

/// Writes what a text that is a file of CSL asks for and is not carried out.
fn put_asked_by(session: &mut Session, text: &str) {
    match parse_csl(session.alloc, text) {
        Ok(root) => put_asked(session, text, &root),
        Err(ValidError::Memory) => session.refuse(Refusal::Memory),
        Err(_) => {}
    }
}

/// `csl_file`: what a file of CSL is, or why it is refused; and what it asks for and is not carried out.
pub(crate) fn answer_csl_file(session: &mut Session, case: &Value<'_>) {
    session.only(case, &["case", "name", "text", "asks"]);
    let text = session.text(case, "text");
    match read(session.alloc, text) {
        Ok(csl) => put_csl(session, &csl),
        Err(error) => return put_csl_error(session, text, &error),
    }
    if session.is_set(case, "asks") {
        put_asked_by(session, text);
    }
}

/// The locale of a file of CSL by the words of a style; none where it is refused, and the answer then says so.
fn locale_by(session: &mut Session, text: &str, words: &Words) -> Option<Box<Locale>> {
    let root = match parse_csl(session.alloc, text) {
        Ok(root) => root,
        Err(ValidError::Memory) => {
            session.refuse(Refusal::Memory);
            return None;
        }
        Err(_) => {
            session.put_refused("Locale");
            return None;
        }
    };
    let made = locale(session.alloc, words, &root);
    match session.allocated(made) {
        Some(locale) => boxed(session, locale),
        None => None,
    }
}

/// The locale of a case; that of English where it is left out.
fn locale_of(session: &mut Session, case: &Value<'_>, words: &Words) -> Option<Box<Locale>> {
    match session.maybe_text(case, "locale") {
        Some(text) => locale_by(session, text, words),
        None => english(session),
    }
}

/// Writes the output of a document in a style, or why it was refused.
fn put_cited(session: &mut Session, case: &Value<'_>, style: &Style, locale: &Locale) {
    let bib = bytes(session, case, "bib");
    let document = bytes(session, case, "document");
    let sections = session.texts(case, "sections");
    let setting = CiteSetting {
        style,
        locale,
        format: format(session, case),
        bib: &bib,
        document: &document,
        sections: &sections,
    };
    answer_as_text(session, case, &setting);
}

/// `csl_cite`: the output of a document in the style of a file of CSL, or why one of them is refused.
pub(crate) fn answer_csl_cite(session: &mut Session, case: &Value<'_>) {
    session.only(case, &MEMBERS);
    let text = session.text(case, "style");
    let (words, style) = match read(session.alloc, text) {
        Ok(Csl::Independent { words, style }) => (words, style),
        Ok(_) => return session.put_refused("NoStyle"),
        Err(error) => return put_csl_error(session, text, &error),
    };
    let Some(style) = boxed(session, style) else {
        return;
    };
    if let Some(locale) = locale_of(session, case, &words) {
        put_cited(session, case, &style, &locale);
    }
}
