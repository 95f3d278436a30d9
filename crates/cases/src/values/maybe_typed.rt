//! Values that may be a text which spells none, as JSON.

use crate::values::case_value::CaseValue;
use crate::{Session, Value};
use literature::MaybeTyped;

/// A value of the type, or an object with the text that spells none.
impl<T: CaseValue> CaseValue for MaybeTyped<T> {
    fn given(session: &mut Session, value: &Value<'_>) -> MaybeTyped<T> {
        if value.get("text").is_none() {
            return MaybeTyped::Typed(T::given(session, value));
        }
        session.only(value, &["text"]);
        MaybeTyped::String(session.owned_text(value, "text"))
    }

    fn put(&self, session: &mut Session) {
        match self {
            MaybeTyped::Typed(value) => value.put(session),
            MaybeTyped::String(text) => {
                session.begin_object();
                session.put_text("text", text.as_str());
                session.end_object();
            }
        }
    }
}
