//! How dates are printed.

/// A long or a short form.
#[derive(Clone, Copy, Debug, PartialEq, Eq, Hash)]
pub enum LongShortForm {
    Long,
    Short,
}

/// A form of a locale's dates.
#[derive(Clone, Copy, Debug, PartialEq, Eq, Hash)]
pub enum DateForm {
    Text,
    Numeric,
}

/// Which parts of a date are printed.
#[derive(Clone, Copy, Debug, PartialEq, Eq, Hash)]
pub enum DateParts {
    YearMonthDay,
    YearMonth,
    Year,
}

/// How a day is printed.
#[derive(Clone, Copy, Debug, PartialEq, Eq, Hash)]
pub enum DateDayForm {
    Numeric,
    TwoDigits,
    Ordinal,
}

/// How a month is printed.
#[derive(Clone, Copy, Debug, PartialEq, Eq, Hash)]
pub enum DateMonthForm {
    Long,
    Short,
    Numeric,
    TwoDigits,
}

/// A part of a date, and how it is printed.
#[derive(Clone, Copy, Debug, PartialEq, Eq, Hash)]
pub enum DatePartForm {
    Day(DateDayForm),
    Month(DateMonthForm),
    Year(LongShortForm),
}
