//! Given names cut at full stops too, and what is printed of each piece.

ghost use Rattle.std.specs.Prelude.{◌≡◌, ◌∷◌, ◌<◌, [], length, true, IfSome, IsOk, MatchOption, Ok};
ghost use Rattle.std.specs.Fmt.{WritesInCalls};
ghost use Rattle.std.specs.Option.{option_map};
ghost use Rattle.std.specs.Str.{chars};
ghost use Rattle.laws.specs.Runs.{after, prefix_of};
ghost use Rattle.laws.specs.Text.{text as text_of};
ghost use Rattle.literature_values.specs.GivenNames as specs;
ghost use Rattle.literature_values.specs.GivenNames.{all_shown, are_none, by_piece, given_by, is_of, next_piece_at, shown_text};
ghost use Rattle.literature_values.specs.PersonViews.{initials_style_view, piece_view, shown_view};
ghost use Rattle.texts.specs.Views.{left};
ghost use Rattle.unicode_segmentation.specs.Grapheme.{graphemes};
ghost use Rattle.unicode_segmentation.specs.Iter.{graphemes_left};

use crate::person::{
    InitialsStyle, between, first_cluster, write_initial_text, write_initials, write_text,
};
use std::fmt;
use texts::{CharacterClass, Class, Reader, split_first, split_run};
use unicode_segmentation::{Graphemes, UnicodeSegmentation};

/// What of a given name is cut to initials.
#[derive(Clone, Copy, Debug, PartialEq, Eq)]
pub enum InitialsRule {
    /// Each run without white space and hyphens is cut to its first grapheme cluster.
    Runs,
    /// Full stops part a name too, and each piece that begins with a capital is cut to its first grapheme cluster.
    /// One that is a single cluster, or that a full stop follows, is an initial as it stands. Another one stays whole,
    /// and after a hyphen it is left out.
    Pieces,
    /// Full stops part a name too. Initials as they stand have the delimiter after them, and all else stays whole.
    Kept,
}

/// What a character of a given name stands in.
#[derive(Clone, Copy)]
enum PieceClass {
    /// What parts pieces: white space, hyphens and full stops.
    Between,
    /// A piece.
    Within,
}

impl CharacterClass for PieceClass {
    ghost passes = { is_of };

    #[tactic(auto, unfolding(crate::specs::GivenNames::is_of))]
    fn contains(self, c: char) -> bool {
        match self {
            PieceClass::Between => Class::Apart.contains(c) || c == '.',
            PieceClass::Within => Class::Name.contains(c) && c != '.',
        }
    }
}

/// A piece of a given name, whether a hyphen stands before it, and whether a full stop stands behind it.
#[derive(Clone, Copy)]
struct NamePiece<'s> {
    is_hyphenated: bool,
    name: &'s str,
    is_stopped: bool,
}

/// What is printed of a piece: a text, whether a hyphen stands before it, and whether it is an initial.
#[derive(Clone, Copy)]
struct ShownPiece<'s> {
    is_hyphenated: bool,
    text: &'s str,
    is_initial: bool,
}

/// Writes a given name by a rule.
pub(crate) fn write_given<W: fmt::Write>(
    given: &str,
    rule: InitialsRule,
    style: InitialsStyle,
    writer: &mut W,
) -> fmt::Result
    ensures { IsOk result → WritesInCalls W.write_str_gives writer.old
        (text_of (given_by rule (initials_style_view style.entry) (chars given.now))) writer.new }
{
    match rule {
        InitialsRule::Runs => write_initials(given, style, writer),
        InitialsRule::Pieces => write_pieces(given, true, style, writer),
        InitialsRule::Kept => write_pieces(given, false, style, writer),
    }
}

/// Writes a given name by pieces, cut to initials or not.
#[tactic(auto, unfolding(crate::specs::GivenNames::by_piece))]
fn write_pieces<W: fmt::Write>(
    given: &str,
    cuts: bool,
    style: InitialsStyle,
    writer: &mut W,
) -> fmt::Result
    ensures { IsOk result → WritesInCalls W.write_str_gives writer.old
        (text_of (by_piece cuts (initials_style_view style.entry) (chars given.now))) writer.new }
{
    let mut reader = Reader::new(given);
    let Some(first) = next_shown(&mut reader, cuts) else {
        return Ok(());
    };
    write_shown(first, style, writer)?;
    let mut last = first;
    while let Some(next) = next_shown(&mut reader, cuts) {
        write_further(last, next, style, writer)?;
        last = next;
    }
    Ok(())
}

/// Writes what is printed of a piece after that of another one.
fn write_further<W: fmt::Write>(
    last: ShownPiece,
    next: ShownPiece,
    style: InitialsStyle,
    writer: &mut W,
) -> fmt::Result
    ensures { IsOk result → WritesInCalls W.write_str_gives writer.old
        (text_of (specs.further_shown (initials_style_view style.entry)
        (shown_view last.entry, shown_view next.entry))) writer.new }
{
    write_text(between_shown(last, next, style), writer)?;
    write_shown(next, style, writer)
}

/// What stands between two: between initials what a style has there, else a hyphen or a space.
fn between_shown<'s>(last: ShownPiece, next: ShownPiece, style: InitialsStyle<'s>) -> &'s str
    ensures { chars result.now ≡ specs.between_shown (initials_style_view style.entry)
        (shown_view last.entry) (shown_view next.entry) }
{
    if last.is_initial && next.is_initial {
        between(next.is_hyphenated, style)
    } else {
        beside_whole(next.is_hyphenated)
    }
}

/// A hyphen, where it stands there, or a space.
fn beside_whole(is_hyphenated: bool) -> &'static str
    ensures { chars result.now ≡ specs.beside_whole is_hyphenated }
{
    if is_hyphenated { "-" } else { " " }
}

/// Writes what is printed of a piece: an initial with the delimiter, else the text alone.
fn write_shown<W: fmt::Write>(
    shown: ShownPiece,
    style: InitialsStyle,
    writer: &mut W,
) -> fmt::Result
    ensures { IsOk result → WritesInCalls W.write_str_gives writer.old
        (text_of (shown_text (initials_style_view style.entry) (shown_view shown.entry)))
        writer.new }
{
    if shown.is_initial {
        write_initial_text(shown.text, style, writer)
    } else {
        write_text(shown.text, writer)
    }
}

/// What is printed of the next piece of which anything is, or nothing at the end.
fn next_shown<'s>(reader: &mut Reader<'s>, cuts: bool) -> Option<ShownPiece<'s>>
    ensures first { MatchOption result (all_shown cuts (left reader.old) ≡ [])
        (λ x. all_shown cuts (left reader.old) ≡ shown_view x ∷ all_shown cuts (left reader.new)) }
    ensures shorter { IfSome result (λ x. length (left reader.new) < length (left reader.old)) }
{
    while let Some(piece) = next_piece(reader) {
        let shown = shown(piece, cuts);
        if stays(shown, cuts) {
            return Some(shown);
        }
    }
    None
}

/// Whether anything is printed of a piece: what stays whole after a hyphen is left out where pieces are cut.
fn stays(shown: ShownPiece, cuts: bool) -> bool
    ensures { result ≡ specs.stays cuts (shown_view shown.entry) }
{
    shown.is_initial || !(cuts && shown.is_hyphenated)
}

/// What is printed of a piece, where pieces are cut or not.
fn shown<'s>(piece: NamePiece<'s>, cuts: bool) -> ShownPiece<'s>
    ensures { shown_view result ≡ specs.shown cuts (piece_view piece.entry) }
{
    if is_initial(piece) {
        return as_initial(piece, piece.name);
    }
    if cuts && is_capitalized(piece.name) {
        return as_initial(piece, first_cluster(piece.name));
    }
    ShownPiece {
        is_hyphenated: piece.is_hyphenated,
        text: piece.name,
        is_initial: false,
    }
}

/// An initial of a piece.
fn as_initial<'s>(piece: NamePiece<'s>, text: &'s str) -> ShownPiece<'s>
    ensures { shown_view result ≡ specs.as_initial (piece_view piece.entry) (chars text.now) }
{
    ShownPiece {
        is_hyphenated: piece.is_hyphenated,
        text,
        is_initial: true,
    }
}

/// Whether a piece is an initial as it stands: a full stop stands behind it, or it is one cluster.
fn is_initial(piece: NamePiece) -> bool
    ensures { result ≡ specs.is_initial (piece_view piece.entry) }
{
    piece.is_stopped || is_single(piece.name)
}

/// Whether a text has no two grapheme clusters.
fn is_single(text: &str) -> bool
    ensures { result ≡ specs.is_single (graphemes true (text_of (chars text.now))) }
{
    let mut clusters = text.graphemes(true);
    match clusters.next() {
        Some(_) => has_none(clusters),
        None => true,
    }
}

/// Whether no cluster is left.
fn has_none(mut clusters: Graphemes<'_>) -> bool
    ensures { result ≡ are_none (graphemes_left clusters.entry) }
{
    match clusters.next() {
        Some(_) => false,
        None => true,
    }
}

/// Whether a text begins with a capital.
fn is_capitalized(text: &str) -> bool
    ensures { result ≡ specs.is_capitalized (chars text.now) }
{
    match split_first(text) {
        Some((c, _)) => c.is_uppercase(),
        None => false,
    }
}

/// The next piece, or nothing at the end.
#[tactic(auto, unfolding(crate::specs::GivenNames::next_piece_at))]
fn next_piece<'s>(reader: &mut Reader<'s>) -> Option<NamePiece<'s>>
    ensures { next_piece_at (left reader.old) ≡ Ok (option_map piece_view result, left reader.new) }
{
    reader.run(Class::Blank);
    let is_hyphenated = reader.take('-');
    run(reader, PieceClass::Between);
    let name = run(reader, PieceClass::Within);
    let is_stopped = reader.take('.');
    split_first(name)?;
    Some(NamePiece {
        is_hyphenated,
        name,
        is_stopped,
    })
}

/// The longest run of the class that stands here.
fn run<'s>(reader: &mut Reader<'s>, class: PieceClass) -> &'s str
    ensures prefix { chars result.now ≡ prefix_of (is_of class) (left reader.old) }
    ensures rest { left reader.new ≡ after (is_of class) (left reader.old) }
{
    let (run, rest) = split_run(reader.rest, class);
    reader.rest = rest;
    run
}
