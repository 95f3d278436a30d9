//! Marks of the entries of a file that a document cites.

ghost use Rattle.std.specs.Prelude.{◌≡◌, Some, false, map, length, replicate, IfOk};
ghost use Rattle.std.specs.Str.{chars};
ghost use Rattle.laws.specs.Text.{text};
ghost use Rattle.biblatex.specs.Bibliographies.{listed_view};
ghost use Rattle.cite_markers.specs.Views.{cite_view, piece_view, document_view};
ghost use Rattle.cite_requests.specs.Cited.{marked_at, marked_cites, marked_in, marked_pieces};

use biblatex::Catalog;
use cite_markers::{Cite, Document, Piece};
use std::alloc::{AllocError, Global};

/// For each entry of a file, by its index, whether the markers of a document cite it.
pub(crate) fn cited_marks(
    alloc: Global,
    file: &Catalog,
    document: &Document<'_>,
) -> Result<Vec<bool>, AllocError>
    ensures { IfOk result (λ v. v.items ≡ marked_pieces (listed_view file.now)
        (replicate (length (listed_view file.now).entries) false) (document_view document.now)) }
{
    let mut marks = vec![in alloc; false; file.len()]?;
    for piece in &document.pieces {
        mark_piece(file, piece, marks.as_mut_slice());
    }
    Ok(marks)
}

/// Marks the entries that a piece cites, if it is a marker.
fn mark_piece(file: &Catalog, piece: &Piece<'_>, marks: &mut [bool])
    ensures { marks.new ≡ marked_in (listed_view file.now) marks.old (piece_view piece.now) }
{
    match piece {
        Piece::Text(_) => {}
        Piece::Marker(cites) => mark_cites(file, cites, marks),
    }
}

/// Marks the entries that cites name.
fn mark_cites(file: &Catalog, cites: &[Cite<'_>], marks: &mut [bool])
    ensures { marks.new
        ≡ marked_cites (listed_view file.now) marks.old (map cite_view cites.now) }
{
    for cite in cites {
        mark_named(file, cite.name, marks);
    }
}

/// Marks the entry that a name means, if it means one.
fn mark_named(file: &Catalog, name: &str, marks: &mut [bool])
    ensures { marks.new
        ≡ marked_at ((listed_view file.now).index (text (chars name.now))) marks.old }
{
    match file.index(name) {
        Some(index) => mark_at(index, marks),
        None => {}
    }
}

/// Marks the entry at an index, if there is one.
fn mark_at(index: usize, marks: &mut [bool])
    ensures { marks.new ≡ marked_at (Some index) marks.old }
{
    if marks.len() <= index {
        return;
    }
    marks[index] = true;
}
