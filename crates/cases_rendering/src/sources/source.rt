//! The entries of a case: those of a bib text, or entries as data.

use crate::sources::refusals::put_bridge_error;
use biblatex::{Bibliography, ParseError};
use cases::{Session, Value, put_parse_reason, read_entry};
use interop::from_biblatex;
use literature::{Entry, Library};

/// The entries of a case: those of `entries`, or else those of `bib`; or why the bib text was refused.
pub fn read_source(session: &mut Session, case: &Value<'_>) -> Result<Bibliography, ParseError> {
    match session.items(case, "entries") {
        Some(entries) => Ok(read_entries(session, entries)),
        None => Bibliography::parse(session.alloc, session.text(case, "bib")),
    }
}

/// Entries one after the other.
fn read_entries(session: &mut Session, entries: &[Value<'_>]) -> Bibliography {
    let mut bibliography = Bibliography::new(session.alloc);
    for item in entries {
        session.only(item, &["key", "type", "fields"]);
        if let Some(entry) = read_entry(session, item) {
            session.check(bibliography.push(entry));
        }
    }
    bibliography
}

/// The entries of a case; none where the bib text was refused, and the answer then says why.
pub fn bibliography_of(session: &mut Session, case: &Value<'_>) -> Option<Bibliography> {
    match read_source(session, case) {
        Ok(bibliography) => Some(bibliography),
        Err(error) => {
            put_parse_reason(session, case, &error);
            None
        }
    }
}

/// The library that entries come to; none where they are not bridged, and the answer then says why.
pub fn bridged(
    session: &mut Session,
    case: &Value<'_>,
    bibliography: &Bibliography,
) -> Option<Library> {
    match from_biblatex(session.alloc, bibliography) {
        Ok(library) => Some(library),
        Err(error) => {
            put_bridge_error(session, case, &error);
            None
        }
    }
}

/// The entry of a library that a name means in the file that the library is of.
pub fn named<'l>(
    bibliography: &Bibliography,
    library: &'l Library,
    name: &str,
) -> Option<&'l Entry> {
    let read = bibliography.get(name)?;
    library.get(read.key.as_str())
}
