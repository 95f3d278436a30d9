//! How characters and nodes look.

use cases::{Session, Value, member, word_of};
use csl_words::{DECORATIONS, DISPLAYS, FONT_STYLES, FONT_VARIANTS, FONT_WEIGHTS};
use rendering_style::Look;
use rendering_taxonomy::{Formatting, FormattingChanges, VerticalAlign};

/// Where characters stand; the word `none` is `baseline` in CSL.
const ALIGNMENTS: &[(&str, VerticalAlign)] = &[
    ("none", VerticalAlign::None),
    ("sup", VerticalAlign::Sup),
    ("sub", VerticalAlign::Sub),
];

/// The members of a formatting.
const MEMBERS: [&str; 5] = [
    "font_style",
    "font_variant",
    "font_weight",
    "text_decoration",
    "vertical_align",
];

/// What the member `formatting` says of the look of characters; what is left out stays open.
pub(crate) fn changes(session: &mut Session, object: &Value<'_>) -> FormattingChanges {
    let Some(given) = member(object, "formatting") else {
        return FormattingChanges::default();
    };
    session.only(given, &MEMBERS);
    FormattingChanges {
        font_style: session.maybe_word(given, "font_style", FONT_STYLES),
        font_variant: session.maybe_word(given, "font_variant", FONT_VARIANTS),
        font_weight: session.maybe_word(given, "font_weight", FONT_WEIGHTS),
        text_decoration: session.maybe_word(given, "text_decoration", DECORATIONS),
        vertical_align: session.maybe_word(given, "vertical_align", ALIGNMENTS),
    }
}

/// How the member `formatting` says that characters look; what is left out is plain.
pub fn formatting(session: &mut Session, object: &Value<'_>) -> Formatting {
    changes(session, object).over(Formatting::plain())
}

/// How a node looks.
pub(crate) fn look(session: &mut Session, node: &Value<'_>) -> Look {
    Look {
        formatting: changes(session, node),
        prefix: session.text_or_empty(node, "prefix"),
        suffix: session.text_or_empty(node, "suffix"),
        display: session.maybe_word(node, "display", DISPLAYS),
    }
}

/// Whether characters look as they do of themselves.
pub fn is_plain(formatting: Formatting) -> bool {
    formatting == Formatting::plain()
}

/// Writes the word of an attribute, unless it is the one that characters have of themselves.
fn put_word<T: Copy + PartialEq>(
    session: &mut Session,
    name: &str,
    words: &[(&'static str, T)],
    usual: T,
    value: T,
) {
    if value != usual {
        session.put_text(name, word_of(words, value));
    }
}

/// Writes a formatting as the member `formatting`, unless characters look plain.
pub fn put_formatting(session: &mut Session, formatting: Formatting) {
    let plain = Formatting::plain();
    if formatting == plain {
        return;
    }
    session.key("formatting");
    session.begin_object();
    put_word(
        session,
        "font_style",
        FONT_STYLES,
        plain.font_style,
        formatting.font_style,
    );
    put_word(
        session,
        "font_variant",
        FONT_VARIANTS,
        plain.font_variant,
        formatting.font_variant,
    );
    put_word(
        session,
        "font_weight",
        FONT_WEIGHTS,
        plain.font_weight,
        formatting.font_weight,
    );
    put_word(
        session,
        "text_decoration",
        DECORATIONS,
        plain.text_decoration,
        formatting.text_decoration,
    );
    put_word(
        session,
        "vertical_align",
        ALIGNMENTS,
        plain.vertical_align,
        formatting.vertical_align,
    );
    session.end_object();
}
