//! Serial numbers.

use std::collections::BTreeMap;

/// The numbers of an entry by the names of their schemes, as `doi`, `isbn` or `serial`.
#[derive(Clone, Debug, PartialEq, Eq, Drop)]
pub struct SerialNumber(pub BTreeMap<String, String>);
