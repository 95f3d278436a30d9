//! Numbers of members of styles.

use cases::{Session, Value};

/// The number of a member that counts from 0, where it is not left out.
pub(crate) fn maybe_count(
    session: &mut Session,
    object: &Value<'_>,
    name: &'static str,
) -> Option<u32> {
    let Some(number) = session.maybe_number(object, name) else {
        return None;
    };
    match u32::try_from(number) {
        Ok(number) => Some(number),
        Err(_) => {
            session.want(name, "an integer from 0 of 32 bits");
            None
        }
    }
}

/// The number of a member of 16 bits; the usual one where it is left out.
pub(crate) fn short_or(
    session: &mut Session,
    object: &Value<'_>,
    name: &'static str,
    usual: i16,
) -> i16 {
    match i16::try_from(
        session
            .maybe_number(object, name)
            .unwrap_or(i64::from(usual)),
    ) {
        Ok(number) => number,
        Err(_) => {
            session.want(name, "an integer of 16 bits");
            usual
        }
    }
}
