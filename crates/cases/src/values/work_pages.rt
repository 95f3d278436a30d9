//! Page ranges, as JSON.

use crate::values::case_value::{CaseValue, given, put_member};
use crate::{Session, Value, member};
use literature::{Numeric, PageRanges, PageRangesPart};

fn page_or_range(session: &mut Session, value: &Value<'_>) -> PageRangesPart {
    session.only(value, &["page", "first", "last"]);
    if let Some(page) = member(value, "page") {
        return PageRangesPart::SinglePage(Numeric::given(session, page));
    }
    let first = given(session, value, "first");
    PageRangesPart::Range(first, given(session, value, "last"))
}

/// A separator, a page or a range.
impl CaseValue for PageRangesPart {
    fn given(session: &mut Session, value: &Value<'_>) -> PageRangesPart {
        match value.as_str() {
            None => page_or_range(session, value),
            Some("comma") => PageRangesPart::Comma,
            Some("ampersand") => PageRangesPart::Ampersand,
            Some(_) => {
                session.want("ranges", "a list of comma, ampersand, pages and ranges");
                PageRangesPart::Comma
            }
        }
    }

    fn put(&self, session: &mut Session) {
        match self {
            PageRangesPart::Ampersand => session.string("ampersand"),
            PageRangesPart::Comma => session.string("comma"),
            PageRangesPart::SinglePage(page) => {
                session.begin_object();
                put_member(session, "page", page);
                session.end_object();
            }
            PageRangesPart::Range(first, last) => {
                session.begin_object();
                put_member(session, "first", first);
                put_member(session, "last", last);
                session.end_object();
            }
        }
    }
}

/// Page ranges.
impl CaseValue for PageRanges {
    fn given(session: &mut Session, value: &Value<'_>) -> PageRanges {
        session.only(value, &["ranges"]);
        PageRanges {
            ranges: given(session, value, "ranges"),
        }
    }

    fn put(&self, session: &mut Session) {
        session.begin_object();
        put_member(session, "ranges", &self.ranges);
        session.end_object();
    }
}
