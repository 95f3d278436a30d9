//! The names that a document cites.

ghost use Rattle.std.specs.Prelude.{◌≡◌, ◌++◌, ◌∷◌, [], map, IfOk, OnOk};
ghost use Rattle.std.specs.Str.{chars};
ghost use Rattle.laws.specs.Text.{text};
ghost use Rattle.cite_markers.specs.Views.{cite_view, document_view, piece_view};
ghost use Rattle.cite_requests.specs.Markers.{names_cited};
ghost use Rattle.cite_uses.specs.Alike.{names_of, now_of};

use cite::{Cite, Document, Piece};
use std::alloc::{AllocError, Global};

/// The names in the cites of a document, one for each cite.
pub(crate) fn cited_names<'d>(
    alloc: Global,
    document: &Document<'d>,
) -> Result<Vec<&'d str>, AllocError>
    ensures { IfOk result (λ names. map now_of names.items
        ≡ names_cited (document_view document.now)) }
{
    let mut names = Vec::new(alloc);
    for piece in &document.pieces {
        push_names_in(piece, &mut names)?;
    }
    Ok(names)
}

/// Adds the names in a piece.
fn push_names_in<'d>(piece: &Piece<'d>, names: &mut Vec<&'d str>) -> Result<(), AllocError>
    ensures { OnOk result (map now_of names.new.items
        ≡ map now_of names.old.items ++ names_cited (piece_view piece.now ∷ [])) }
{
    match piece {
        Piece::Text(_) => Ok(()),
        Piece::Marker(cites) => push_names_of(cites, names),
    }
}

/// Adds the names of cites.
fn push_names_of<'d>(cites: &[Cite<'d>], names: &mut Vec<&'d str>) -> Result<(), AllocError>
    ensures { OnOk result (map now_of names.new.items
        ≡ map now_of names.old.items ++ names_of (map cite_view cites.now)) }
{
    for cite in cites {
        push_name(cite.name, names)?;
    }
    Ok(())
}

/// Adds a name.
fn push_name<'d>(name: &'d str, names: &mut Vec<&'d str>) -> Result<(), AllocError>
    ensures { OnOk result (map now_of names.new.items
        ≡ map now_of names.old.items ++ text (chars name.now) ∷ []) }
{
    names.push(name)?;
    Ok(())
}
