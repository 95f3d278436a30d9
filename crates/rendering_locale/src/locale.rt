//! Locales as they are written down.

use crate::code::LocaleCode;
use crate::terms::Terms;
use rendering_taxonomy::{
    DateForm, DatePartForm, FormattingChanges, Gender, OrdinalMatch, Term, TermForm, TextCase,
};

/// A term in a form.
#[derive(Debug, PartialEq, Eq, Drop)]
pub struct LocalizedTerm {
    pub name: Term,
    pub form: TermForm,
    /// The text for one.
    pub single: Option<String>,
    /// The text for more than one.
    pub multiple: Option<String>,
    /// The gender of what it names.
    pub gender: Option<Gender>,
}

/// The ending of an ordinal number.
#[derive(Debug, PartialEq, Eq, Drop)]
pub struct OrdinalEnding {
    /// The last digit or the last two digits of the number.
    pub number: u8,
    pub ending: String,
    /// The gender of what is counted, if the ending is of one alone.
    pub gender: Option<Gender>,
    /// Which numbers it is of, if that is said; else one digit is the last, and two are the last two.
    pub only: Option<OrdinalMatch>,
}

/// The endings of ordinal numbers. Of equal numbers the first counts.
#[derive(Debug, PartialEq, Eq, Drop)]
pub struct Ordinals {
    pub endings: Vec<OrdinalEnding>,
    /// The ending of all other numbers.
    pub default: String,
}

/// A part of a date: which and how it is printed, and what stands round it.
#[derive(Debug, PartialEq, Eq, Drop)]
pub struct DatePart {
    pub form: DatePartForm,
    /// Whether its full stops are left out.
    pub strip_periods: bool,
    pub text_case: Option<TextCase>,
    pub formatting: FormattingChanges,
    pub prefix: String,
    pub suffix: String,
    /// The text between the two sides of a range that differ in this part.
    pub range_delimiter: Option<String>,
}

/// A form of a language's dates.
#[derive(Debug, PartialEq, Eq, Drop)]
pub struct LocalizedDate {
    pub form: DateForm,
    /// The parts in the order in which they are printed.
    pub parts: Vec<DatePart>,
    /// The text between two parts.
    pub delimiter: String,
}

/// A locale of a language, or of all languages where none is named.
#[derive(Debug, PartialEq, Eq)]
pub struct Locale {
    pub lang: Option<LocaleCode>,
    /// Of equal names and forms the first counts.
    pub terms: Terms,
    /// Of equal forms the first counts.
    pub dates: Vec<LocalizedDate>,
    pub ordinals: Option<Ordinals>,
    /// Whether punctuation goes inside quotes.
    pub punctuation_in_quote: Option<bool>,
    /// Whether of the days only the first is printed as an ordinal number.
    pub limit_day_ordinals_to_day_1: Option<bool>,
}

impl Drop for Locale {
    fn drop(self) {
        let Locale {
            lang: _,
            terms: _,
            dates: _,
            ordinals: _,
            punctuation_in_quote: _,
            limit_day_ordinals_to_day_1: _,
        } = self;
    }
}
