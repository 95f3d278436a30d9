//! Rules on styled texts, that are followed member after member.

ghost use Rattle.std.specs.Prelude.{◌≡◌, ℕ, Bool, List, [], ◌∷◌, ◌++◌};
ghost use Rattle.std.specs.Str.{chars};
ghost use Rattle.biblatex_content.specs.declared.chunk.Kind.{Kind};
ghost use Rattle.biblatex_content.specs.Styled.{Member, Letter, Math, letters};
ghost use Rattle.biblatex_content.specs.Views.{members, styled};
ghost use Rattle.biblatex_writing.specs.Rules.{holds_after};

use biblatex_content::{Chunk, Kind, Spanned};

/// A rule on styled texts, as far as it was followed.
pub(crate) trait Rule: Copy {
    /// Whether it holds of these members, after those that it was followed over.
    ghost holds: { Self → List Member → Bool };

    /// Follows it over a character of the kind; none where it is broken.
    fn after_character(self, kind: Kind, c: char) -> Option<Self>
        ensures { (ms : List Member) → holds self (Letter kind c ∷ ms)
            ≡ holds_after holds result ms };

    /// Follows it over a math piece; none where it is broken.
    fn after_math(self, math: &str) -> Option<Self>
        ensures { (ms : List Member) → holds self (Math (chars math.now) ∷ ms)
            ≡ holds_after holds result ms };

    /// Whether it holds where nothing follows.
    fn is_met(self) -> bool
        ensures { result ≡ holds self [] };
}

/// Follows the rule over characters of the kind.
fn after_text<R: Rule>(start: R, kind: Kind, text: &str) -> Option<R>
    ensures { (ms : List Member) → R.holds start (letters kind (chars text.now) ++ ms)
        ≡ holds_after R.holds result ms }
{
    let mut rule = start;
    for c in text.chars() {
        match rule.after_character(kind, c) {
            Some(more) => rule = more,
            None => return None,
        }
    }
    Some(rule)
}

/// Follows the rule over a chunk.
fn after_chunk<R: Rule>(rule: R, chunk: &Chunk) -> Option<R>
    ensures { (ms : List Member) → R.holds rule (members chunk.now ++ ms)
        ≡ holds_after R.holds result ms }
{
    match chunk {
        Chunk::Normal(text) => after_text(rule, Kind::Normal, text.as_str()),
        Chunk::Verbatim(text) => after_text(rule, Kind::Verbatim, text.as_str()),
        Chunk::Math(math) => rule.after_math(math.as_str()),
    }
}

/// Whether the rule holds of the text that the chunks spell.
pub(crate) fn is_met_by<R: Rule>(start: R, chunks: &[Spanned<Chunk>]) -> bool
    ensures { result ≡ R.holds start (styled chunks.now) }
{
    let mut rule = start;
    for chunk in chunks {
        match after_chunk(rule, &chunk.v) {
            Some(more) => rule = more,
            None => return false,
        }
    }
    rule.is_met()
}
