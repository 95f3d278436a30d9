//! Year suffixes, and what gave them.

/// The round that gave a state, and the class in it, both from zero.
#[derive(Clone, Copy, Debug, PartialEq, Eq)]
pub struct Origin {
    pub round: u8,
    pub class: usize,
}

/// The index of the year suffix that an entry has, from zero, and what gave it.
#[derive(Clone, Copy, Debug, PartialEq, Eq)]
pub struct Suffix {
    pub index: u8,
    pub origin: Origin,
}
