//! Parts of dates.

use crate::lists::ListItem;
use crate::styles::date_words::{changed_part, part_form};
use crate::styles::looks::changes;
use cases::{Session, Value};
use rendering_locale::DatePart;
use rendering_style::DatePartChange;

/// The members of a part of a date.
const MEMBERS: [&str; 7] = [
    "name",
    "form",
    "strip_periods",
    "formatting",
    "prefix",
    "suffix",
    "range_delimiter",
];

/// A part of a date.
impl ListItem for DatePart {
    fn given(session: &mut Session, item: &Value<'_>) -> DatePart {
        session.only(item, &MEMBERS);
        DatePart {
            form: part_form(session, item),
            strip_periods: session.is_set(item, "strip_periods"),
            text_case: None,
            formatting: changes(session, item),
            prefix: session.text_or_empty(item, "prefix"),
            suffix: session.text_or_empty(item, "suffix"),
            range_delimiter: session.maybe_owned_text(item, "range_delimiter"),
        }
    }
}

/// The members of a change of a part of a date.
const CHANGE_MEMBERS: [&str; 5] = [
    "name",
    "form",
    "strip_periods",
    "formatting",
    "range_delimiter",
];

/// A change of a part of a date.
impl ListItem for DatePartChange {
    fn given(session: &mut Session, item: &Value<'_>) -> DatePartChange {
        session.only(item, &CHANGE_MEMBERS);
        DatePartChange {
            part: changed_part(session, item),
            strip_periods: session.maybe_bool(item, "strip_periods"),
            text_case: None,
            formatting: changes(session, item),
            range_delimiter: session.maybe_owned_text(item, "range_delimiter"),
        }
    }
}
