//! Where the texts of character data, comments, CDATA sections and processing instructions end.

ghost use Rattle.std.specs.Prelude.{◌≡◌, ◌++◌};
ghost use Rattle.std.specs.Str.{chars};
ghost use Rattle.laws.specs.Text.{spelled};
ghost use Rattle.texts.specs.Views.{left};
ghost use Rattle.xml_text.specs.Markup.{ends_at_word, is_end, may_end, before_end, from_end};

use crate::character::Class;
use crate::reading::{begins, stands};
use texts::{CharacterClass, Reader};

/// What a text is that ends before a word.
#[derive(Clone, Copy)]
pub(crate) enum Ending {
    /// Character data.
    Data,
    /// A comment.
    Comment,
    /// A CDATA section.
    SectionText,
    /// A processing instruction.
    Instruction,
}

impl Ending {
    /// Whether a word stands at the start of the text before which such a text ends.
    fn ends_at_word(self, text: &str) -> bool
        ensures { result ≡ ends_at_word self (chars text.now) }
    {
        match self {
            Ending::Data => {
                stands(text, &['<']) || stands(text, &['&']) || stands(text, &[']', ']', '>'])
            }
            Ending::Comment => stands(text, &['-', '-']),
            Ending::SectionText => stands(text, &[']', ']', '>']),
            Ending::Instruction => stands(text, &['?', '>']),
        }
    }

    /// Whether such a text ends before this one: before such a word, or before what is no character of XML.
    fn is_end(self, text: &str) -> bool
        ensures { result ≡ is_end self (chars text.now) }
    {
        self.ends_at_word(text) || !begins(text, Class::Legal)
    }

    /// Whether such a text may end before the character.
    #[inline(always)]
    fn may_end(self, c: char) -> bool
        ensures { result ≡ may_end self c }
    {
        let first = match self {
            Ending::Data => matches!(c, '<' | '&' | ']'),
            Ending::Comment => c == '-',
            Ending::SectionText => c == ']',
            Ending::Instruction => c == '?',
        };
        first || !Class::Legal.contains(c)
    }
}

/// The characters before the first place where such a text ends, and what follows them.
#[inline(always)]
fn split_ending(text: &str, ending: Ending) -> (&str, &str)
    ensures prefix { spelled result.0 ≡ before_end ending (chars text.now) }
    ensures rest { spelled result.1 ≡ from_end ending (chars text.now) }
{
    for (i, c) in text.char_indices() {
        if ending.may_end(c) {
            let (prefix, rest) = text.split_at(i);
            if ending.is_end(rest) {
                return (prefix, rest);
            }
        }
    }
    text.split_at(text.len())
}

/// Takes the text that ends there.
#[inline(always)]
pub(crate) fn take_text<'s>(reader: &mut Reader<'s>, ending: Ending) -> &'s str
    ensures text { spelled result ≡ before_end ending (left reader.old) }
    ensures rest { left reader.new ≡ from_end ending (left reader.old) }
{
    let (prefix, rest) = split_ending(reader.rest, ending);
    reader.rest = rest;
    prefix
}
