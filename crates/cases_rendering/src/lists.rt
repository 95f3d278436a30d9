//! Lists of values of one type.

use cases::{Session, Value};

/// A value that is an item of lists of cases.
pub(crate) trait ListItem: Drop {
    /// The value that an item gives; of no use where that is none of the type, which is then refused.
    fn given(session: &mut Session, item: &Value<'_>) -> Self
    where
        Self: Sized;
}

/// The values of a list; one that is left out is empty.
pub(crate) fn list_of<T: ListItem>(
    session: &mut Session,
    object: &Value<'_>,
    name: &'static str,
) -> Vec<T> {
    let mut list = Vec::new(session.alloc);
    if let Some(items) = session.items(object, name) {
        for item in items {
            let item = T::given(session, item);
            session.push(&mut list, item);
        }
    }
    list
}
