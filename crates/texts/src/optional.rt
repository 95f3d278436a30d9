//! Texts that may be absent.

ghost use Rattle.std.specs.Prelude.{◌≡◌, []};
ghost use Rattle.std.specs.Option.{option_map, option_or, unwrap_or};
ghost use Rattle.laws.specs.Text.{characters, spelled};

/// No text.
#[tactic(auto, using(crate::proofs::OptionalTexts::no_characters))]
pub fn no_text() -> &'static str
    ensures { spelled result ≡ [] }
{
    ""
}

/// The text, borrowed, where there is one.
pub fn borrowed_text(text: &Option<String>) -> Option<&str>
    ensures { option_map spelled result ≡ option_map characters text.now }
{
    match text {
        Some(text) => Some(text.as_str()),
        None => None,
    }
}

/// The text, empty where there is none.
pub fn text_or_empty(text: &Option<String>) -> &str
    ensures { spelled result ≡ unwrap_or (option_map characters text.now) [] }
{
    match text {
        Some(text) => text.as_str(),
        None => no_text(),
    }
}

/// The borrowed text, empty where there is none.
pub fn or_empty(text: Option<&str>) -> &str
    ensures { spelled result ≡ unwrap_or (option_map spelled text.entry) [] }
{
    match text {
        Some(text) => text,
        None => no_text(),
    }
}

/// The text, or else another.
pub fn text_or<'t>(text: Option<&'t str>, other: &'t str) -> &'t str
    ensures { spelled result ≡ unwrap_or (option_map spelled text.entry) (spelled other.entry) }
{
    match text {
        Some(text) => text,
        None => other,
    }
}

/// The first of two texts, or else the second.
pub fn first_text<'t>(text: Option<&'t str>, other: Option<&'t str>) -> Option<&'t str>
    ensures { option_map spelled result
        ≡ option_or (option_map spelled text.entry) (option_map spelled other.entry) }
{
    match text {
        Some(text) => Some(text),
        None => other,
    }
}
