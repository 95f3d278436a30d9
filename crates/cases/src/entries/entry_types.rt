//! The types of entries.

use crate::{Session, Value};
use biblatex::{EntryType, Role};

/// Answers a case of the kind `entry_type`.
pub(crate) fn answer_entry_type(session: &mut Session, case: &Value<'_>) {
    session.only(case, &["case", "name", "type"]);
    let entry_type = EntryType::new(session.alloc, session.text(case, "type"));
    if let Some(entry_type) = session.allocated(entry_type) {
        put_entry_type(session, &entry_type);
    }
}

/// Writes the name of the type that a type of entries is written as.
fn put_written_type(session: &mut Session, entry_type: &EntryType) {
    if let Some(written) = session.allocated(entry_type.to_biblatex()) {
        session.put_text("written", written.name());
    }
}

/// Writes what is asked of a type of entries.
fn put_entry_type(session: &mut Session, entry_type: &EntryType) {
    session.put_text("type", entry_type.name());
    session.put_bool("known", !matches!(entry_type, EntryType::Unknown(_)));
    session.put_text("role", role_name(entry_type.role()));
    session.put_bool("multi_volume", entry_type.is_multi_volume());
    session.put_bool("collection", entry_type.is_collection());
    put_written_type(session, entry_type);
    session.put_text("written_name", entry_type.written_name());
}

/// The word for a role.
pub(crate) fn role_name(role: Role) -> &'static str {
    match role {
        Role::Article => "article",
        Role::Periodical => "periodical",
        Role::PartOfBook => "part-of-book",
        Role::PartOfOther => "part-of-other",
        Role::Book => "book",
        Role::MultiVolumeBook => "multi-volume-book",
        Role::Volume => "volume",
        Role::MultiVolume => "multi-volume",
        Role::XData => "xdata",
        Role::Set => "set",
        Role::Other => "other",
    }
}
