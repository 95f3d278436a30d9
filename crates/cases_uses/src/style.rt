//! Styles of cases, with that of `cite_uses`.

use cases::{Session, Value, member};
use cases_cite::style;
use cases_literature::boxed;
use cite::Style;
use cite_uses::titles;

/// The style of a case, `titles` of `cite_uses` among them, or the usual one where it is left out; none where it is refused, and the answer
/// then says why.
pub(crate) fn style_or_titles(
    session: &mut Session,
    case: &Value<'_>,
    usual: &'static str,
) -> Option<Box<Style>> {
    let word = match member(case, "style") {
        Some(given) => given.as_str(),
        None => Some(usual),
    };
    if word != Some("titles") {
        return style(session, case, usual);
    }
    let made = titles(session.alloc);
    match session.allocated(made) {
        Some(style) => boxed(session, style),
        None => None,
    }
}
