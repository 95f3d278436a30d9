//! The keys of the entries that a document cites.

ghost use Rattle.std.specs.Prelude.{◌≡◌, ◌||◌, if◌then◌else◌, true, ℕ, List, map, IfOk, OnOk};
ghost use Rattle.std.specs.Str.{bytes_eq, chars};
ghost use Rattle.laws.specs.Text.{text};
ghost use Rattle.std.specs.Borrow.{Bor};
ghost use Rattle.biblatex.specs.Bibliographies.{listed_view};
ghost use Rattle.cite_markers.specs.Views.{cite_view, piece_view, document_view};
ghost use Rattle.cite_requests.specs.Cited.{is_among, key_meant, keys_cited, keys_in, keys_named};
ghost use Rattle.cite_requests.specs.Views.{has};

use biblatex::Bibliography;
use cite_markers::{Cite, Document, Piece};
use std::alloc::{AllocError, Global};
use std::collections::BTreeSet;

/// The keys of the entries that the markers of a document cite, by their keys or by aliases. Names that mean no entry are passed over.
///
/// # Errors
/// Out of memory.
pub fn cited_keys<'f>(
    alloc: Global,
    file: &'f Bibliography,
    document: &Document<'_>,
) -> Result<BTreeSet<&'f str>, AllocError>
    ensures { IfOk result (λ keys. (k : Bor (List ℕ)) → has keys k
        ≡ is_among (keys_cited (listed_view file.now) (document_view document.now)) k.now) }
{
    let mut keys = BTreeSet::new(alloc);
    for piece in &document.pieces {
        insert_cited(file, piece, &mut keys)?;
    }
    Ok(keys)
}

/// Adds the keys of the entries that a piece cites, if it is a marker.
#[tactic(auto, using(crate::proofs::CitedKeys::or_false))]
fn insert_cited<'f>(
    file: &'f Bibliography,
    piece: &Piece<'_>,
    keys: &mut BTreeSet<&'f str>,
) -> Result<(), AllocError>
    ensures { OnOk result ((k : Bor (List ℕ)) → has keys.new k ≡ (has keys.old k
        || is_among (keys_in (listed_view file.now) (piece_view piece.now)) k.now)) }
{
    match piece {
        Piece::Text(_) => Ok(()),
        Piece::Marker(cites) => insert_named(file, cites, keys),
    }
}

/// Adds the keys of the entries that cites name.
fn insert_named<'f>(
    file: &'f Bibliography,
    cites: &[Cite<'_>],
    keys: &mut BTreeSet<&'f str>,
) -> Result<(), AllocError>
    ensures { OnOk result ((k : Bor (List ℕ)) → has keys.new k ≡ (has keys.old k
        || is_among (keys_named (listed_view file.now) (map cite_view cites.now)) k.now)) }
{
    for cite in cites {
        insert_meant(file, cite.name, keys)?;
    }
    Ok(())
}

/// Adds the key of the entry that a name means, if it means one.
fn insert_meant<'f>(
    file: &'f Bibliography,
    name: &str,
    keys: &mut BTreeSet<&'f str>,
) -> Result<(), AllocError>
    ensures { OnOk result ((k : Bor (List ℕ)) → has keys.new k ≡ (has keys.old k
        || is_among (key_meant (listed_view file.now) (text (chars name.now))) k.now)) }
{
    match file.get(name) {
        Some(entry) => insert_key(entry.key.as_str(), keys),
        None => Ok(()),
    }
}

/// Adds a key.
fn insert_key<'f>(key: &'f str, keys: &mut BTreeSet<&'f str>) -> Result<(), AllocError>
    ensures { OnOk result ((k : Bor (List ℕ))
        → has keys.new k ≡ (if bytes_eq key.now k.now then true else has keys.old k)) }
{
    keys.insert(key)?;
    Ok(())
}
