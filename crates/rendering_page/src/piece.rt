//! What stands on a page, piece by piece, in the order of reading.

ghost use Rattle.std.specs.Prelude.{◌≡◌, ◌∷◌, ◌++◌, [], IfSome, MatchOption, take, length};
ghost use Rattle.std.specs.Str.{chars, drop_trailing_whitespace, IsUtf8};
ghost use Rattle.laws.specs.Text.{characters};
ghost use Rattle.rendering_taxonomy.specs.Formats.{looks_like};
ghost use Rattle.rendering_page.specs.Views.{words_view};
ghost use Rattle.rendering_page.specs.Cuts.{IsCut};

use rendering_taxonomy::{Display, Formatting};
use rendering_tree::ElemMeta;
use texts::{has_text, split_first};

/// A text of the caller's, or one that was made.
#[derive(Drop)]
pub enum Words<'a> {
    Borrowed(&'a str),
    Made(String),
}

/// A link from a text to an address.
#[derive(Drop)]
pub struct Link<'a> {
    pub formatting: Formatting,
    pub text: Words<'a>,
    pub url: Words<'a>,
}

/// A piece of a page. Most pieces are marks and short texts, so that links, which are rare and long, are in memory of their own.
#[derive(Drop)]
pub enum Piece<'a> {
    /// A text; it may be empty.
    Text {
        formatting: Formatting,
        words: Words<'a>,
    },
    /// A formula.
    Markup(Words<'a>),
    /// A link from a text to an address.
    Link(Box<Link<'a>>),
    /// A locator of the caller's own, by the index of its cite.
    Transparent {
        formatting: Formatting,
        cite_idx: usize,
    },
    /// Where an element begins, which may stand for something of the caller's.
    Opening {
        display: Option<Display>,
        meta: Option<&'a ElemMeta>,
    },
    /// Where an element begins that stands for what was made on the way.
    MadeOpening {
        display: Option<Display>,
        meta: ElemMeta,
    },
    /// Where an element without a prefix begins, and what it contains: an opening and a mark.
    Begin {
        display: Option<Display>,
        meta: Option<&'a ElemMeta>,
    },
    /// Where such an element begins that stands for what was made on the way, and what it contains.
    MadeBegin {
        display: Option<Display>,
        meta: ElemMeta,
    },
    /// Where something without a prefix begins that is no element, and what it contains: two marks.
    BareBegin,
    /// Where what an element contains ends, and the element.
    End,
    /// Where what is no element ends, and what it contains.
    BareEnd,
    /// Where an element ends.
    Closing,
    /// Where something begins that is removed if it prints nothing.
    Mark,
    /// Where that ends.
    Unmark,
}

impl<'a> Words<'a> {
    /// The text.
    pub fn as_str(&self) -> &str
        ensures { chars result.now ≡ words_view self.now }
    {
        match self {
            Words::Borrowed(text) => text,
            Words::Made(text) => text.as_str(),
        }
    }

    /// The text without its first character.
    pub(crate) fn without_first(self) -> Words<'a>
        ensures { (c : _) (cs : _) → words_view self.entry ≡ c ∷ cs → words_view result ≡ cs }
    {
        match self {
            Words::Borrowed(text) => Words::Borrowed(rest_of(text)),
            Words::Made(text) => Words::Made(rest_of_made(text)),
        }
    }

    /// Takes the last character off.
    fn pop(&mut self) -> Option<char>
        ensures { MatchOption result ((words_view self.old ≡ []) × (words_view self.new ≡ [])) (λ c.
            words_view self.old ≡ words_view self.new ++ c ∷ []) }
    {
        match self {
            Words::Borrowed(text) => pop_borrowed(text),
            Words::Made(text) => pop_made(text),
        }
    }

    /// Takes so many characters off the end, at most all. Returns how many are missing.
    pub(crate) fn cut(&mut self, count: usize) -> usize
        ensures { (back : _) × IsCut (words_view self.old) count (words_view self.new) back result }
    {
        let mut missing = count;
        while missing > 0 {
            let Some(_) = self.pop() else {
                return missing;
            };
            missing -= 1;
        }
        missing
    }

    /// Takes the white space off the end.
    pub(crate) fn trim_end(&mut self)
        ensures { words_view self.new ≡ drop_trailing_whitespace (words_view self.old) }
    {
        match self {
            Words::Borrowed(text) => trim_borrowed(text),
            Words::Made(text) => trim_made(text),
        }
    }
}

/// No text.
pub fn no_words<'a>() -> Words<'a>
    ensures { words_view result ≡ [] }
{
    Words::Borrowed("")
}

/// A text without its first character.
fn rest_of(text: &str) -> &str
    ensures { (c : _) (cs : _) → chars text.now ≡ c ∷ cs → chars result.now ≡ cs }
{
    match split_first(text) {
        Some((_, rest)) => rest,
        None => text,
    }
}

/// A text without its first character.
fn rest_of_made(mut text: String) -> String
    ensures { (c : _) (cs : _) → characters text ≡ c ∷ cs → characters result ≡ cs }
{
    if has_text(text.as_str()) {
        let _first = text.remove(0);
    }
    text
}

/// The last character, and what stands before it.
pub fn split_last(text: &str) -> Option<(char, &str)>
    ensures chars { MatchOption result (chars text.now ≡ []) (λ x. chars text.now
        ≡ chars x.1.now ++ x.0 ∷ []) }
    ensures leading { IfSome result (λ x. x.1.now ≡ take (length x.1.now) text.now) }
    ensures utf8 { IfSome result (λ x. IsUtf8 x.1.now) }
{
    let mut chars = text.chars();
    let c = chars.next_back()?;
    Some((c, chars.as_str()))
}

/// Takes the last character off a text.
fn pop_borrowed<'a>(text: &mut &'a str) -> Option<char>
    ensures { MatchOption result ((chars text.old.now ≡ []) × (chars text.new.now ≡ [])) (λ c.
        chars text.old.now ≡ chars text.new.now ++ c ∷ []) }
{
    let whole = *text;
    let (c, leading) = split_last(whole)?;
    *text = leading;
    Some(c)
}

/// Takes the last character off a text.
pub fn pop_made(text: &mut String) -> Option<char>
    ensures { MatchOption result ((characters text.old ≡ []) × (characters text.new ≡ [])) (λ c.
        characters text.old ≡ characters text.new ++ c ∷ []) }
{
    text.pop()
}

/// A text without the white space at its end.
pub(crate) fn trimmed(text: &str) -> &str
    ensures value { chars result.now ≡ drop_trailing_whitespace (chars text.now) }
    ensures leading { result.now ≡ take (length result.now) text.now }
{
    text.trim_end()
}

/// Takes the white space off the end of a text.
fn trim_borrowed<'a>(text: &mut &'a str)
    ensures { chars text.new.now ≡ drop_trailing_whitespace (chars text.old.now) }
{
    let whole = *text;
    *text = trimmed(whole);
}

/// Takes the white space off the end of a text.
pub fn trim_made(text: &mut String)
    ensures { characters text.new ≡ drop_trailing_whitespace (characters text.old) }
{
    let end = trimmed(text.as_str()).len();
    text.truncate(end);
}

/// Whether two look alike.
pub fn looks_like(one: Formatting, other: Formatting) -> bool
    ensures { result ≡ looks_like one other }
{
    one == other
}
