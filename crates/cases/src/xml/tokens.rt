//! Texts of XML, as their tokens are read.

use crate::xml::faults::fault_name;
use crate::{Refusal, Session, Value};
use texts::Reader;
use xml_text::{
    Attribute, Name, Piece, Placed, Reference, Tag, Token, XmlError, next_token, take_prolog,
};

/// Writes how many of the bytes of a text stand before a place, at which some are left.
fn put_offset(session: &mut Session, len: usize, left: usize) {
    session.put_count("offset", len.saturating_sub(left));
}

/// Writes a name as the member of the name, and its prefix where it has one.
fn put_name(session: &mut Session, name: &str, written: Name<'_>) {
    session.put_maybe_text("prefix", written.prefix);
    session.put_text(name, written.local);
}

/// Writes the members of a reference, and the character that it stands for, or why there is none.
fn put_reference(session: &mut Session, reference: Reference<'_>) {
    match reference {
        Reference::Entity(name) => session.put_text("entity", name),
        Reference::Decimal(digits) => session.put_text("decimal", digits),
        Reference::Hexadecimal(digits) => session.put_text("hexadecimal", digits),
    }
    match reference.character() {
        Err(fault) => session.put_refused(fault_name(fault)),
        Ok(c) => session.put_printed("character", &c),
    }
}

/// Writes a piece of a value as an object.
fn put_piece(session: &mut Session, piece: Piece<'_>, len: usize) {
    session.begin_object();
    match piece {
        Piece::Literal(text) => session.put_text("text", text),
        Piece::Reference(reference) => {
            put_reference(session, reference.v);
            put_offset(session, len, reference.left);
        }
    }
    session.end_object();
}

/// Writes an attribute as an object.
fn put_attribute(session: &mut Session, attribute: &Placed<Attribute<'_>>, len: usize) {
    session.begin_object();
    put_name(session, "name", attribute.v.name);
    session.begin_list("value");
    for piece in attribute.v.value.as_slice() {
        put_piece(session, *piece, len);
    }
    session.end_array();
    put_offset(session, len, attribute.left);
    session.end_object();
}

/// Writes the members of a start-tag.
fn put_tag(session: &mut Session, tag: &Tag<'_>, len: usize) {
    put_name(session, "start", tag.name);
    session.begin_list("attributes");
    for attribute in tag.attributes.as_slice() {
        put_attribute(session, attribute, len);
    }
    session.end_array();
    session.put_if_set("empty", tag.empty);
}

/// Writes a token as an object.
fn put_token(session: &mut Session, token: &Placed<Token<'_>>, len: usize) {
    session.begin_object();
    match &token.v {
        Token::Start(tag) => put_tag(session, tag, len),
        Token::End(name) => put_name(session, "end", name.v),
        Token::Characters(text) => session.put_text("characters", *text),
        Token::Reference(reference) => put_reference(session, *reference),
        Token::Section(text) => session.put_text("section", *text),
        Token::Nothing => session.put_bool("nothing", true),
    }
    put_offset(session, len, token.left);
    session.end_object();
}

/// Writes the tokens of a text of so many bytes, as a list.
fn put_tokens(session: &mut Session, reader: &mut Reader<'_>, len: usize) -> Result<(), XmlError> {
    take_prolog(session.alloc, reader)?;
    // (each token has one byte at least)
    for _ in 0..=len {
        match next_token(session.alloc, reader)? {
            Some(token) => put_token(session, &token, len),
            None => break,
        }
    }
    Ok(())
}

/// A text of XML: its tokens up to the first fault, and that, where there is one.
pub(crate) fn answer(session: &mut Session, case: &Value<'_>) {
    session.only(case, &["case", "name", "text", "message"]);
    let text = session.text(case, "text");
    let mut reader = Reader::new(text);
    session.begin_list("tokens");
    let read = put_tokens(session, &mut reader, text.len());
    session.end_array();
    match read {
        Ok(()) => {}
        Err(XmlError::Memory) => session.refuse(Refusal::Memory),
        Err(XmlError::Fault(fault)) => {
            session.put_refused(fault_name(fault));
            put_offset(session, text.len(), reader.rest.len());
            session.put_message(case, &fault);
        }
    }
}
