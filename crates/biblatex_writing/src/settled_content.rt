//! Contents that read back as they are.

ghost use Rattle.std.specs.Prelude.{◌≡◌, ℕ, ◌+◌, ◌^◌, ◌<◌, ◌≤◌, List, [], ◌∷◌, IfSome, Some, length};
ghost use Rattle.std.specs.List.{list_all};
ghost use Rattle.std.specs.Str.{chars};
ghost use Rattle.biblatex_tex.specs.Character.{is_blank};
ghost use Rattle.biblatex_content.specs.Views.{styled};
ghost use Rattle.biblatex_writing.specs.Rules.{is_tidy_at, tidy_after, are_single_at, hyphens_after, kind_before, is_math_at, is_math_after};
ghost use Rattle.biblatex_writing.specs.SettledContent.{has_single_hyphens, is_math, is_settled_content, is_settled_ordinary, is_settled_verbatim, is_verbatim, is_writable, are_of_one_kind, depth_after};

use crate::rules::{Rule, is_met_by};
use biblatex_content::{Chunk, Kind, Spanned};

/// Tidiness: what stands before the next member.
#[derive(Clone, Copy)]
enum Tidy {
    Start,
    Space,
    Other,
}

/// Whether the character is a blank.
fn is_blank(c: char) -> bool
    ensures { result ≡ is_blank c }
{
    matches!(c, ' ' | '\t' | '\n' | '\u{c}' | '\r')
}

impl Tidy {
    /// What stands before the next member after the character; none where tidying would change the text.
    fn after(self, c: char) -> Option<Tidy>
        ensures { result ≡ tidy_after self c }
    {
        match self {
            Tidy::Other if c == ' ' => Some(Tidy::Space),
            _ if is_blank(c) => None,
            _ => Some(Tidy::Other),
        }
    }
}

impl Rule for Tidy {
    ghost holds = { is_tidy_at };

    fn after_character(self, _kind: Kind, c: char) -> Option<Tidy> {
        self.after(c)
    }

    fn after_math(self, _math: &str) -> Option<Tidy> {
        Some(Tidy::Other)
    }

    fn is_met(self) -> bool {
        !matches!(self, Tidy::Space)
    }
}

/// Single hyphens: what stands before the next member.
#[derive(Clone, Copy)]
enum Hyphens {
    Hyphen(Kind),
    Other,
}

impl Hyphens {
    /// Whether a hyphen of the kind stands before.
    fn is_after(self, kind: Kind) -> bool
        ensures { result ≡ are_of_one_kind (kind_before self) (Some kind) }
    {
        match (self, kind) {
            (Hyphens::Hyphen(Kind::Normal), Kind::Normal) => true,
            (Hyphens::Hyphen(Kind::Verbatim), Kind::Verbatim) => true,
            _ => false,
        }
    }

    /// What stands before the next member after the character; none where it is a second hyphen of one kind.
    fn after(self, kind: Kind, c: char) -> Option<Hyphens>
        ensures { result ≡ hyphens_after self kind c }
    {
        if c != '-' {
            return Some(Hyphens::Other);
        }
        if self.is_after(kind) {
            return None;
        }
        Some(Hyphens::Hyphen(kind))
    }
}

impl Rule for Hyphens {
    ghost holds = { are_single_at };

    fn after_character(self, kind: Kind, c: char) -> Option<Hyphens> {
        self.after(kind, c)
    }

    fn after_math(self, _math: &str) -> Option<Hyphens> {
        Some(Hyphens::Other)
    }

    fn is_met(self) -> bool {
        true
    }
}

/// Math that may stand between dollar signs.
#[derive(Clone, Copy)]
struct BalancedMath;

impl Rule for BalancedMath {
    ghost holds = { λ _ ms. list_all is_writable ms };

    fn after_character(self, _kind: Kind, _c: char) -> Option<BalancedMath> {
        Some(self)
    }

    fn after_math(self, math: &str) -> Option<BalancedMath> {
        if is_math(math) { Some(self) } else { None }
    }

    fn is_met(self) -> bool {
        true
    }
}

/// Verbatim text throughout.
#[derive(Clone, Copy)]
struct Throughout;

impl Rule for Throughout {
    ghost holds = { λ _ ms. list_all is_verbatim ms };

    fn after_character(self, kind: Kind, _c: char) -> Option<Throughout> {
        match kind {
            Kind::Normal => None,
            Kind::Verbatim => Some(self),
        }
    }

    fn after_math(self, _math: &str) -> Option<Throughout> {
        None
    }

    fn is_met(self) -> bool {
        true
    }
}

/// A math text as far as it was read: whether a backslash takes the next character with it, and how many braces are open.
#[derive(Clone, Copy)]
struct MathText {
    is_escaped: bool,
    depth: usize,
}

impl MathText {
    /// After one more character; none where that may not stand between dollar signs.
    fn after(self, c: char) -> Option<MathText>
        requires { self.depth + 1 < 2 ^ 64 }
        ensures next { (cs : List ℕ) → is_math_at self (c ∷ cs) ≡ is_math_after result cs }
        ensures depth { IfSome result (λ m. m.depth ≤ self.depth + 1) }
    {
        if self.is_escaped {
            return Some(MathText {
                is_escaped: false,
                depth: self.depth,
            });
        }
        if self.depth == 0 && matches!(c, '$' | '}') {
            return None;
        }
        Some(MathText {
            is_escaped: c == '\\',
            depth: depth_after(self.depth, c),
        })
    }

    /// Whether it may end here.
    fn is_closed(self) -> bool
        ensures { result ≡ is_math_at self [] }
    {
        !self.is_escaped && self.depth == 0
    }
}

/// How many braces are open after a character that no backslash escapes.
fn depth_after(depth: usize, c: char) -> usize
    requires room { depth + 1 < 2 ^ 64 }
    ensures depth { result ≡ depth_after depth c }
    ensures bound { result ≤ depth + 1 }
{
    match c {
        '{' => depth + 1,
        '}' => depth.saturating_sub(1),
        _ => depth,
    }
}

/// How many bytes the text has.
fn byte_len(text: &str) -> usize
    ensures bytes { result ≡ length text.now }
    ensures fits { result < 2 ^ 64 }
{
    text.len()
}

/// Whether the math text may stand between dollar signs.
fn is_math(math: &str) -> bool
    ensures { result ≡ is_math (chars math.now) }
{
    let _len = byte_len(math);
    let mut read = MathText {
        is_escaped: false,
        depth: 0,
    };
    for c in math.chars() {
        match read.after(c) {
            Some(more) => read = more,
            None => return false,
        }
    }
    read.is_closed()
}

/// Whether the chunks, as the content of a field, verbatim or ordinary, read back as the same styled text. Tidying leaves
/// them as they are; an ordinary field has no two neighbouring hyphens of one kind, and its math balanced braces, no dollar
/// sign outside them that no backslash escapes, and no single backslash at its end; a verbatim field has verbatim text
/// alone. Takes no memory.
pub fn is_settled_content(chunks: &[Spanned<Chunk>], is_verbatim: bool) -> bool
    ensures { result ≡ is_settled_content is_verbatim (styled chunks.now) }
{
    if is_verbatim {
        is_settled_verbatim(chunks)
    } else {
        is_settled_ordinary(chunks)
    }
}

/// Whether no two neighbouring hyphens of the text that the chunks spell are of one kind.
pub(crate) fn has_single_hyphens(chunks: &[Spanned<Chunk>]) -> bool
    ensures { result ≡ has_single_hyphens (styled chunks.now) }
{
    is_met_by(Hyphens::Other, chunks)
}

/// Whether the chunks, as the content of an ordinary field, read back as the same styled text.
fn is_settled_ordinary(chunks: &[Spanned<Chunk>]) -> bool
    ensures { result ≡ is_settled_ordinary (styled chunks.now) }
{
    is_met_by(Tidy::Start, chunks) && has_single_hyphens(chunks) && is_met_by(BalancedMath, chunks)
}

/// Whether the chunks, as the content of a verbatim field, read back as the same styled text.
fn is_settled_verbatim(chunks: &[Spanned<Chunk>]) -> bool
    ensures { result ≡ is_settled_verbatim (styled chunks.now) }
{
    is_met_by(Tidy::Start, chunks) && is_met_by(Throughout, chunks)
}
