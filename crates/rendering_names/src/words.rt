//! The texts that stand where a style says nothing.

ghost use Rattle.std.specs.Prelude.{◌≡◌, ◌∷◌, []};
ghost use Rattle.laws.specs.Characters.{space, ampersand};
ghost use Rattle.laws.specs.Text.{spelled};
ghost use Rattle.rendering_names.specs.Names.{ellipsis};
ghost use Rattle.rendering_names.specs.Persons.{comma_and_space, stop_and_space};

#[tactic(auto, using(crate::proofs::NamesTexts::comma_characters))]
pub(crate) fn comma_and_space() -> &'static str
    ensures { spelled result ≡ comma_and_space }
{
    ", "
}

/// A full stop and a space.
#[tactic(auto, using(crate::proofs::NamesTexts::stop_characters))]
pub(crate) fn stop_and_space() -> &'static str
    ensures { spelled result ≡ stop_and_space }
{
    ". "
}

#[tactic(auto, using(crate::proofs::NamesTexts::space_characters))]
pub(crate) fn space() -> &'static str
    ensures { spelled result ≡ space ∷ [] }
{
    " "
}

/// The sign for the word `and`.
#[tactic(auto, using(crate::proofs::NamesTexts::ampersand_characters))]
pub(crate) fn ampersand() -> &'static str
    ensures { spelled result ≡ ampersand ∷ [] }
{
    "&"
}

#[tactic(auto, using(crate::proofs::NamesTexts::ellipsis_characters))]
pub(crate) fn ellipsis() -> &'static str
    ensures { spelled result ≡ ellipsis }
{
    "…"
}
