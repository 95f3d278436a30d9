//! What is shown of entries.

use bib_show::show;
use biblatex::Bibliography;
use cases::{Session, Value, put_parse_error};
use cases_rendering::read_source;

/// Writes what is shown of entries, or why their bib text was refused.
pub(crate) fn answer_show(session: &mut Session, case: &Value<'_>) {
    session.only(case, &["case", "name", "bib", "entries", "message"]);
    match read_source(session, case) {
        Ok(bibliography) => put_shown(session, &bibliography),
        Err(error) => put_parse_error(session, case, &error),
    }
}

/// Writes what is shown of entries.
fn put_shown(session: &mut Session, bibliography: &Bibliography) {
    let shown = show(session.alloc, bibliography);
    if let Some(shown) = session.allocated(shown) {
        session.put_text("shown", shown.as_str());
    }
}
