//! BibLaTeX files without references.

use cases::{Session, Value, put_parse_error};
use cite_uses::flattened_file;

/// `flattened_file`: what a file is without references, or null where it has no such text; or why it was refused.
pub(crate) fn answer_flattened(session: &mut Session, case: &Value<'_>) {
    session.only(case, &["case", "name", "bib", "message"]);
    match flattened_file(session.alloc, session.text(case, "bib")) {
        Ok(Some(text)) => session.put_text("written", text.as_str()),
        Ok(None) => {
            session.key("written");
            session.null();
        }
        Err(error) => put_parse_error(session, case, &error),
    }
}
