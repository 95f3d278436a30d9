//! How pages and texts on a page are printed.

/// How the second number of a range of pages is shortened.
#[derive(Clone, Copy, Debug, PartialEq, Eq, Hash)]
pub enum PageRangeFormat {
    Chicago15,
    Chicago16,
    Expanded,
    Minimal,
    MinimalTwo,
}

/// How a text meets the one before it: as both are written, or joined by what punctuation they have. As written by default.
#[derive(Clone, Copy, Debug, Default, PartialEq, Eq, Hash)]
pub enum PageRule {
    #[default]
    AsWritten,
    Joined,
}
