//! Codes of languages.

ghost use Rattle.std.specs.Prelude.{◌≡◌, IfOk};
ghost use Rattle.std.specs.Option.{option_map};
ghost use Rattle.rendering_locale.specs.Codes.{en_us, base_of, fallback};
ghost use Rattle.rendering_locale.specs.Lookup.{language};
ghost use Rattle.rendering_locale.specs.CodeViews.{code_view, borrowed_code_view};

use std::alloc::{AllocError, Global};

/// A code of a language, such as `en-US`. Codes are compared as they are written, with case.
#[derive(Debug, PartialEq, Eq, Hash, Drop)]
pub struct LocaleCode(pub String);

impl LocaleCode {
    /// English as it is written in the United States.
    ///
    /// # Errors
    /// Out of memory.
    pub fn en_us(alloc: Global) -> Result<LocaleCode, AllocError>
        ensures { IfOk result (λ c. code_view c ≡ en_us) }
    {
        Ok(LocaleCode(String::from_str(alloc, "en-US")?))
    }

    /// The language that the code begins with, up to the first hyphen.
    pub fn parse_base(&self) -> &str
        ensures { result.now ≡ base_of (code_view self.now) }
    {
        base_of(self.0.as_str())
    }

    /// The code that stands for languages without a locale of their own, where one begins with the same language.
    ///
    /// # Errors
    /// Out of memory.
    pub fn fallback(&self, alloc: Global) -> Result<Option<LocaleCode>, AllocError>
        ensures { IfOk result (λ c. option_map code_view c ≡ fallback (code_view self.now)) }
    {
        match fallback(self.0.as_str()) {
            Some(other) => Ok(Some(LocaleCode(String::from_str(alloc, other)?))),
            None => Ok(None),
        }
    }
}

/// The code of the language that is wanted: the one that is asked for, else the style's own, else `en-US`.
pub fn language<'a>(asked: Option<&'a LocaleCode>, own: Option<&'a LocaleCode>) -> &'a str
    ensures { result.now ≡ language (option_map borrowed_code_view asked.entry)
        (option_map borrowed_code_view own.entry) }
{
    match asked.or(own) {
        Some(code) => code.0.as_str(),
        None => "en-US",
    }
}

/// The text up to the first hyphen.
pub(crate) fn base_of(code: &str) -> &str
    ensures { result.now ≡ base_of code.now }
{
    match code.split_once('-') {
        Some((base, _)) => base,
        None => code,
    }
}

/// The code that stands for others of its language, by any code of the language.
pub(crate) fn fallback(code: &str) -> Option<&'static str>
    ensures { option_map (λ s. s.now) result ≡ fallback code.now }
{
    match base_of(code) {
        "de" => Some("de-DE"),
        "en" => Some("en-US"),
        "es" => Some("es-ES"),
        "fr" => Some("fr-FR"),
        "pt" => Some("pt-PT"),
        "zh" => Some("zh-CN"),
        _ => None,
    }
}
