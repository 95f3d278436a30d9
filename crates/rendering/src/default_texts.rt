//! Optional texts, and the texts that stand where a style says nothing.

ghost use Rattle.std.specs.Prelude.{◌≡◌, ◌∷◌, [], codes};
ghost use Rattle.std.specs.Option.{option_map, unwrap_or};
ghost use Rattle.laws.specs.Characters.{open_parenthesis, close_parenthesis};
ghost use Rattle.laws.specs.Text.{characters, spelled};

/// A text, or else what stands before a cite in prose where the style says nothing of it.
pub(crate) fn text_or_open(text: &Option<String>) -> &str
    ensures { spelled result ≡ unwrap_or (option_map characters text.now) (open_parenthesis ∷ []) }
{
    match text {
        Some(text) => text.as_str(),
        None => open_parenthesis(),
    }
}

/// A text, or else what stands after it.
pub(crate) fn text_or_close(text: &Option<String>) -> &str
    ensures { spelled result ≡ unwrap_or (option_map characters text.now) (close_parenthesis ∷ []) }
{
    match text {
        Some(text) => text.as_str(),
        None => close_parenthesis(),
    }
}

#[tactic(auto, using(crate::proofs::Texts::open_characters))]
fn open_parenthesis() -> &'static str
    ensures { spelled result ≡ open_parenthesis ∷ [] }
{
    "("
}

/// A closing parenthesis.
#[tactic(auto, using(crate::proofs::Texts::close_characters))]
fn close_parenthesis() -> &'static str
    ensures { spelled result ≡ close_parenthesis ∷ [] }
{
    ")"
}

/// What stands for a year where there is none and the locales have no term for that.
#[tactic(auto, using(crate::proofs::Texts::no_date_characters))]
pub(crate) fn no_date() -> &'static str
    ensures { spelled result ≡ codes "n.d." }
{
    "n.d."
}
