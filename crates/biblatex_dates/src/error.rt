//! Why a text was not read as a value of a type.

use thiserror::Error;

/// Why a text was not read as a value of a type.
#[derive(Clone, Copy, Debug, PartialEq, Eq, Error)]
pub enum TypeErrorKind {
    /// The text is not of the shape of a date.
    #[error("invalid format")]
    InvalidFormat,
    /// A year has fewer or more than four digits.
    #[error("wrong number of digits")]
    WrongNumberOfDigits,
    /// There is no such month.
    #[error("month out of range")]
    MonthOutOfRange,
    /// The month has no such day.
    #[error("day out of range")]
    DayOutOfRange,
    /// The text is no value of a type other than a date. Reading a date never gives it.
    #[error("unreadable")]
    Unreadable,
}
