//! Classes of characters, and texts cut where a run of one class ends.

ghost use Rattle.std.specs.Prelude.{◌≡◌, ◌++◌, ◌∷◌, [], Bool, IfSome, MatchOption, encode_utf8, ℕ};
ghost use Rattle.std.specs.Str.{chars, IsUtf8};
ghost use Rattle.laws.specs.Runs.{prefix_of, after};
ghost use Rattle.texts.specs.Character.{passes};

/// A class of characters.
pub trait CharacterClass: Copy {
    /// Whether a character is of the class.
    ghost passes: { Self → ℕ → Bool };

    /// Whether the character is of the class.
    fn contains(self, c: char) -> bool
        ensures { result ≡ passes self c };
}

/// What a character of a number, a date or a name may be part of.
#[derive(Clone, Copy)]
pub enum Class {
    /// What may stand before and after a number.
    Letter,
    /// A number.
    Digit,
    /// What may stand round a separator.
    Space,
    /// A separator: a hyphen, an en dash or an em dash.
    Dash,
    /// What marks a date as uncertain or approximate.
    Mark,
    /// White space.
    Blank,
    /// What parts the runs of a name: white space and hyphens.
    Apart,
    /// A run of a name.
    Name,
}

impl CharacterClass for Class {
    ghost passes = { passes };

    #[tactic(auto, unfolding(crate::specs::Character::passes))]
    fn contains(self, c: char) -> bool {
        match self {
            Class::Letter => c.is_ascii_alphabetic(),
            Class::Digit => c.is_ascii_digit(),
            Class::Space => c == ' ',
            Class::Dash => matches!(c, '-' | '\u{2013}' | '\u{2014}'),
            Class::Mark => matches!(c, '?' | '~' | '%' | '\u{a0}'),
            Class::Blank => c.is_whitespace(),
            Class::Apart => c.is_whitespace() || c == '-',
            Class::Name => !(c.is_whitespace() || c == '-'),
        }
    }
}

/// The first character, and what follows it.
pub fn split_first(text: &str) -> Option<(char, &str)>
    ensures chars { MatchOption result (chars text.now ≡ []) (λ x. chars text.now
        ≡ x.0 ∷ chars x.1.now) }
    ensures parts { IfSome result (λ x. text.now ≡ encode_utf8 x.0 ++ x.1.now) }
    ensures utf8 { IfSome result (λ x. IsUtf8 x.1.now) }
{
    let mut chars = text.chars();
    let c = chars.next()?;
    Some((c, chars.as_str()))
}

/// The longest prefix of the class, and what follows it.
pub fn split_run<C: CharacterClass>(text: &str, class: C) -> (&str, &str)
    ensures parts { text.now ≡ result.0.now ++ result.1.now }
    ensures prefix { chars result.0.now ≡ prefix_of (C.passes class) (chars text.now) }
    ensures rest { chars result.1.now ≡ after (C.passes class) (chars text.now) }
{
    for (i, c) in text.char_indices() {
        if !class.contains(c) {
            return text.split_at(i);
        }
    }
    text.split_at(text.len())
}
