//! Where the names of a document stand, and which of them mean nothing.

ghost use Rattle.std.specs.Prelude.{◌≡◌, ◌∷◌, ◌++◌, ◌==◌, length, map, not, IfOk, OnOk, string_bytes};
ghost use Rattle.std.specs.Option.{option_map};
ghost use Rattle.std.specs.Str.{chars};
ghost use Rattle.std.specs.List.{flat_map};
ghost use Rattle.laws.specs.Characters.{at_sign, backslash};
ghost use Rattle.laws.specs.Text.{spelled, text as text_of};
ghost use Rattle.fault_lines.specs.Views.{IsIn, lines_view};
ghost use Rattle.literature_entries.specs.EntriesData.{entry_view};
ghost use Rattle.cite_markers.specs.Views.{cite_view, document_view, piece_view};
ghost use Rattle.cite_requests.specs.Works.{meaning};
ghost use Rattle.cite_csl.specs.Names as specs;
ghost use Rattle.cite_csl.specs.Names.{from_first, name_lines, names_in, names_of, past};
ghost use Rattle.cite_csl.specs.Views.{cited_view};
ghost use Rattle.cite_csl_styles.specs.Views.{source_view};

use crate::document::ReadDocument;
use crate::entries::Entries;
use cite_csl_styles::{SourceFile, push_lines_left};
use cite_markers::{Cite, Piece};
use cite_requests::work_of;
use fault_lines::FaultLines;
use literature::Library;
use literature_entries::Entry;
use std::alloc::{AllocError, Global};
use texts::{CharacterClass, split_first, split_run};

/// The entries of a file, and the library of those that are needed.
#[derive(Clone, Copy)]
pub(crate) struct Works<'l> {
    pub(crate) entries: &'l Entries,
    pub(crate) library: &'l Library,
}

/// The work that a name means.
pub(crate) fn meant<'l>(works: Works<'l>, name: &str) -> Option<&'l Entry>
    ensures { option_map (λ e. entry_view e.now) result
        ≡ meaning name.now (cited_view works.entry) }
{
    let entry = works.entries.file.get(name)?;
    work_of(works.library, entry)
}

/// All characters but one.
#[derive(Clone, Copy)]
struct AllBut {
    mark: char,
}

impl CharacterClass for AllBut {
    ghost passes = { λ class c. not (c == class.mark) };

    fn contains(self, c: char) -> bool {
        c != self.mark
    }
}

/// The text from the first character that is this one on.
fn from_first(text: &str, mark: char) -> &str
    ensures { spelled result ≡ from_first mark (chars text.now) }
{
    split_run(text, AllBut { mark }).1
}

/// What follows the first character that is this one.
fn past_first(text: &str, mark: char) -> &str
    ensures { spelled result ≡ specs.past_first mark (chars text.now) }
{
    match split_first(from_first(text, mark)) {
        Some((_, rest)) => rest,
        None => "",
    }
}

/// How many bytes are left from the first at sign on.
#[tactic(auto, using(laws::proofs::Text::text_of_chars))]
fn left_at_sign(text: &str) -> usize
    ensures { result ≡ length (text_of (from_first at_sign (chars text.now))) }
{
    from_first(text, '@').len()
}

/// What follows a text at the beginning of another, if it begins so.
fn past<'d>(part: &str, text: &'d str) -> Option<&'d str>
    ensures { option_map spelled result ≡ past (chars part.now) (chars text.entry.now) }
{
    text.strip_prefix(part)
}

/// What follows a backslash and a text at the beginning of another, if it begins so.
fn past_escaped<'d>(part: &str, text: &'d str) -> Option<&'d str>
    ensures { option_map spelled result
        ≡ past (backslash ∷ chars part.now) (chars text.entry.now) }
{
    match split_first(text)? {
        ('\\', rest) => past(part, rest),
        _ => None,
    }
}

/// What follows a text of the document, which stands there as it is, or after a backslash.
fn past_text<'d>(part: &str, text: &'d str) -> &'d str
    ensures { spelled result ≡ specs.past_text (chars part.now) (chars text.entry.now) }
{
    past(part, text).or(past_escaped(part, text)).unwrap_or("")
}

/// Appends the lines for a name, if it means nothing.
fn push_unknown(
    alloc: Global,
    file: SourceFile<'_>,
    works: Works<'_>,
    name: &str,
    left: usize,
    lines: &mut FaultLines,
) -> Result<(), AllocError>
    requires { IsIn file.bytes.now lines.old }
    ensures lines { OnOk result (lines_view lines.new ≡ lines_view lines.old
        ++ name_lines (source_view file.entry) (cited_view works.entry)
        (record { name = name.now; left = left })) }
    ensures place { OnOk result (IsIn file.entry.bytes.now lines.new) }
{
    if meant(works, name).is_some() {
        return Ok(());
    }
    let why = format!(in alloc; "unknown name {name}")?;
    push_lines_left(alloc, file, left, why.as_str(), lines)
}

/// Appends the lines for the names of a marker that mean nothing, where the marker begins with this text.
fn push_unknown_in(
    alloc: Global,
    file: SourceFile<'_>,
    works: Works<'_>,
    cites: &[Cite<'_>],
    text: &str,
    lines: &mut FaultLines,
) -> Result<(), AllocError>
    requires { IsIn file.bytes.now lines.old }
    ensures lines { OnOk result (lines_view lines.new ≡ lines_view lines.old
        ++ flat_map (name_lines (source_view file.entry) (cited_view works.entry))
        (names_in (map cite_view cites.now) (chars text.now))) }
    ensures place { OnOk result (IsIn file.entry.bytes.now lines.new) }
{
    let mut rest = text;
    for cite in cites {
        push_unknown(alloc, file, works, cite.name, left_at_sign(rest), lines)?;
        rest = past_first(rest, ';');
    }
    Ok(())
}

/// Appends the lines for the names of a piece that mean nothing, where the piece begins with this text.
fn push_unknown_of(
    alloc: Global,
    file: SourceFile<'_>,
    works: Works<'_>,
    piece: &Piece<'_>,
    text: &str,
    lines: &mut FaultLines,
) -> Result<(), AllocError>
    requires { IsIn file.bytes.now lines.old }
    ensures lines { OnOk result (lines_view lines.new ≡ lines_view lines.old
        ++ flat_map (name_lines (source_view file.entry) (cited_view works.entry))
        (specs.names_at (piece_view piece.now) (chars text.now))) }
    ensures place { OnOk result (IsIn file.entry.bytes.now lines.new) }
{
    match piece {
        Piece::Text(_) => Ok(()),
        Piece::Marker(cites) => {
            push_unknown_in(alloc, file, works, cites.as_slice(), text, lines)
        }
    }
}

/// What follows a piece.
fn past_piece<'d>(piece: &Piece<'_>, text: &'d str) -> &'d str
    ensures { spelled result ≡ specs.past_piece (piece_view piece.now) (chars text.entry.now) }
{
    match piece {
        Piece::Text(part) => past_text(part, text),
        Piece::Marker(_) => past_first(text, ']'),
    }
}

/// The lines for all names of a document that mean nothing.
pub(crate) fn unknown_lines(
    alloc: Global,
    works: Works<'_>,
    document: &ReadDocument<'_>,
) -> Result<String, AllocError>
    ensures { IfOk result (λ s. string_bytes s
        ≡ flat_map (name_lines (source_view document.now.file) (cited_view works.entry))
        (names_of (document_view document.now.document) (chars document.now.text.now))) }
{
    let mut lines = FaultLines::new(alloc);
    let mut rest = document.text;
    for piece in &document.document.pieces {
        push_unknown_of(alloc, document.file, works, piece, rest, &mut lines)?;
        rest = past_piece(piece, rest);
    }
    Ok(lines.into_string())
}
