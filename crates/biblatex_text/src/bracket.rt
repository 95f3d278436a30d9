//! What an item stands in.

ghost use Rattle.std.specs.Prelude.{◌≡◌};
ghost use Rattle.biblatex_text.specs.Fields.{closing};
ghost use Rattle.biblatex_text.specs.Items.{key_run};

use crate::run::Run;

/// What the body of an item stands in.
#[derive(Clone, Copy)]
pub(crate) enum Bracket {
    Brace,
    Parenthesis,
}

impl Bracket {
    /// The character that closes the body.
    pub(crate) fn closing(self) -> char
        ensures { result ≡ closing self }
    {
        match self {
            Bracket::Brace => '}',
            Bracket::Parenthesis => ')',
        }
    }

    /// The run of characters that a key is.
    pub(crate) fn key_run(self) -> Run
        ensures { result ≡ key_run self }
    {
        match self {
            Bracket::Brace => Run::Key,
            Bracket::Parenthesis => Run::RoundKey,
        }
    }
}
