//! Texts that look so, links and elements, in plain text and in HTML.

use crate::styles::formatting;
use cases::{Refusal, Session, Value};
use csl_words::DISPLAYS;
use rendering_output::BufWriteFormat;
use rendering_taxonomy::{Display, Formatting};
use std::fmt;

/// What is to be written.
#[derive(Clone, Copy)]
struct Written<'a> {
    text: &'a str,
    formatting: Formatting,
    url: Option<&'a str>,
    /// Whether the text is markup, which has no looks.
    is_markup: bool,
    /// The element that it stands in.
    display: Option<Display>,
}

/// Writes a text by its formatting, as a link where it has an address.
fn write_text(format: BufWriteFormat, written: &Written<'_>, text: &mut String) -> fmt::Result {
    match written.url {
        Some(url) => format.write_link(text, written.formatting, written.text, url),
        None if written.is_markup => format.write_markup(text, written.text),
        None => format.write_text(text, written.formatting, written.text),
    }
}

/// Writes a text in its element.
fn write_element(format: BufWriteFormat, written: &Written<'_>, text: &mut String) -> fmt::Result {
    format.start(text, written.display)?;
    write_text(format, written, text)?;
    format.end(text, written.display)?;
    Ok(())
}

/// Writes what is written in a format as the member of the name.
fn put(session: &mut Session, name: &str, format: BufWriteFormat, written: &Written<'_>) {
    let mut text = String::new(session.alloc);
    match write_element(format, written, &mut text) {
        Ok(()) => session.put_text(name, text.as_str()),
        Err(_) => session.refuse(Refusal::Memory),
    }
}

/// The members of a case.
const MEMBERS: [&str; 7] = [
    "case",
    "name",
    "text",
    "formatting",
    "url",
    "markup",
    "display",
];

/// `write_text`: what is written of a text in both formats.
pub(crate) fn answer(session: &mut Session, case: &Value<'_>) {
    session.only(case, &MEMBERS);
    let written = Written {
        text: session.text(case, "text"),
        formatting: formatting(session, case),
        url: session.maybe_text(case, "url"),
        is_markup: session.is_set(case, "markup"),
        display: session.maybe_word(case, "display", DISPLAYS),
    };
    put(session, "plain", BufWriteFormat::Plain, &written);
    put(session, "html", BufWriteFormat::Html, &written);
}
