//! The tests of a choose.

/// How many tests of a branch have to hold.
#[derive(Clone, Copy, Debug, PartialEq, Eq, Hash)]
pub enum ChooseMatch {
    All,
    Any,
    None,
}

/// A position of a cite that is tested.
#[derive(Clone, Copy, Debug, PartialEq, Eq, Hash)]
pub enum TestPosition {
    First,
    Subsequent,
    Ibid,
    IbidWithLocator,
    NearNote,
}
