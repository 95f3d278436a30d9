//! Why a case has no entry: the name means none, or the entries of its file are not bridged.

use cases::{Refusal, Session, Value, type_error_name};
use interop::{BridgeError, FieldFault};

/// Writes a name that means no entry.
pub fn put_unknown(session: &mut Session, name: &str) {
    session.put_refused("Name");
    session.put_text("entry", name);
}

/// Writes a name that means no entry, with the name as a member `name`.
pub fn put_unknown_name(session: &mut Session, name: &str) {
    session.put_refused("Name");
    session.put_text("name", name);
}

/// Writes the fields that cannot be read: of each the key of its entry, its name and why.
pub fn put_faults(session: &mut Session, faults: &[FieldFault]) {
    session.put_refused("Fields");
    session.begin_list("faults");
    for fault in faults {
        session.begin_array();
        session.string(fault.key.as_str());
        session.string(fault.field.name());
        session.string(type_error_name(fault.kind));
        session.end_array();
    }
    session.end_array();
}

/// Writes why entries are not bridged.
pub fn put_bridge_error(session: &mut Session, case: &Value<'_>, error: &BridgeError) {
    let BridgeError::Fields(faults) = error else {
        return session.refuse(Refusal::Memory);
    };
    put_faults(session, faults);
    session.put_message(case, error);
}
