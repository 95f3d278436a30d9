//! Addresses.

use crate::Date;
use crate::maybe_typed::MaybeTyped;
use url::Url;

/// An address, and the day of the last visit.
#[derive(Clone, Debug, PartialEq, Eq, Drop)]
pub struct QualifiedUrl {
    pub value: MaybeTyped<Url>,
    pub visit_date: Option<Date>,
}
