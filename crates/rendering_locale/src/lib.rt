//! Locales: the words, dates and endings of languages, and which of several locales answers.
#![tactic(auto)]

mod asked;
mod code;
mod locale;
mod looking;
mod terms;
mod words;

pub use asked::AskedLocales;
pub use code::{LocaleCode, language};
pub use locale::{DatePart, Locale, LocalizedDate, LocalizedTerm, OrdinalEnding, Ordinals};
pub use terms::Terms;
