//! A single name in words, where something is specified for its parts.

ghost use Rattle.std.specs.Prelude.{◌≡◌, ◌||◌, [], map, OnOk, None, false, if◌then◌else◌};
ghost use Rattle.std.specs.Option.{unwrap_or};
ghost use Rattle.std.specs.Str.{chars};
ghost use Rattle.laws.specs.Text.{is_filled, spelled};
ghost use Rattle.literature_values.specs.PersonViews.{person_view};
ghost use Rattle.rendering_names.specs.Names.{name_manner};
ghost use Rattle.rendering_names.specs.NameParts.{closing, demoted_words, has_parts, inverted_words, long_words, opening, part_manner, part_prefix, part_suffix, part_word, person_pieces, person_words, straight_words, turned_words, word_pieces, words_pieces};
ghost use Rattle.rendering_names.specs.Persons.{comma_and_space};
ghost use Rattle.rendering_names.specs.Views.{append_here, lent_part_view, name_style_view, resolved_options_view, word_view};
ghost use Rattle.rendering_page.specs.Views.{manner_view};

use crate::person::{after_given, initials, person_text, short_text};
use crate::style::{NameStyle, changed_manner};
use crate::words::space;
use literature_values::Person;
use rendering_page::{Manner, Page, uncased, with_case};
use rendering_style::NamePart;
use rendering_taxonomy::DisambiguatedNameForm;
use std::alloc::AllocError;
use texts::{has_text, no_text, owned, text_or_empty};

/// A word of a name.
#[derive(Clone, Copy)]
pub(crate) struct Word<'a, 'w> {
    /// What stands before it, where another word does.
    before: &'a str,
    /// The texts directly before and after it.
    prefix: &'a str,
    suffix: &'a str,
    /// What is specified for the part of the name that it is.
    part: Option<&'a NamePart>,
    text: &'w str,
}

/// How a word is appended: in the look and the case of its part over those of the name.
fn part_manner(manner: Manner, part: Option<&NamePart>) -> Manner
    ensures { manner_view result
        ≡ part_manner (manner_view manner) (lent_part_view part.entry) }
{
    match part {
        Some(part) => with_case(changed_manner(part.formatting, manner), part.text_case),
        None => manner,
    }
}

/// The text before a word of a part.
fn part_prefix<'a>(part: Option<&'a NamePart>) -> &'a str
    ensures { spelled result ≡ part_prefix (lent_part_view part.entry) }
{
    match part {
        Some(part) => part.prefix.as_str(),
        None => no_text(),
    }
}

/// The text after a word of a part.
fn part_suffix<'a>(part: Option<&'a NamePart>) -> &'a str
    ensures { spelled result ≡ part_suffix (lent_part_view part.entry) }
{
    match part {
        Some(part) => part.suffix.as_str(),
        None => no_text(),
    }
}

/// What stands before a word, where another one does.
fn text_before<'a>(is_after: bool, word: &Word<'a, '_>) -> &'a str
    ensures { spelled result ≡ (if is_after then (word_view word.now).before else []) }
{
    if is_after { word.before } else { no_text() }
}

/// Whether a word or one before it is not empty.
fn is_behind(is_after: bool, word: &Word<'_, '_>) -> bool
    ensures { result ≡ (is_after || is_filled (word_view word.now).text) }
{
    is_after || has_text(word.text)
}

impl<'s, 'a> NameStyle<'s, 'a> {
    /// Appends a name in words, where something is specified for its parts, or else as one text.
    pub(crate) fn push_person(
        &self,
        page: &mut Page<'a>,
        is_inverted: bool,
        form: DisambiguatedNameForm,
        person: &Person,
    ) -> Result<(), AllocError>
        ensures { OnOk result (page.new ≡ append_here self.now
            (person_pieces (name_manner (name_style_view self.now)) (name_style_view self.now).look
            (resolved_options_view self.now.options) is_inverted form (person_view person.now))
            page.old) }
    {
        if self.has_parts() {
            return self.push_in_words(page, is_inverted, form, person);
        }
        let text = person_text(self.setting.alloc, &self.options, is_inverted, form, person)?;
        page.push_made(self.setting.quotes, self.name_manner(), text)
    }

    /// Whether something is specified for a part of names.
    fn has_parts(&self) -> bool
        ensures { result ≡ has_parts (name_style_view self.now).look }
    {
        match self.name {
            Some(name) => name.given.is_some() || name.family.is_some(),
            None => false,
        }
    }

    /// What is specified for given names.
    fn given_part(&self) -> Option<&'a NamePart>
        ensures { lent_part_view result ≡ (name_style_view self.now).look.given }
    {
        match self.name {
            Some(name) => name.given.as_ref(),
            None => None,
        }
    }

    /// What is specified for family names.
    fn family_part(&self) -> Option<&'a NamePart>
        ensures { lent_part_view result ≡ (name_style_view self.now).look.family }
    {
        match self.name {
            Some(name) => name.family.as_ref(),
            None => None,
        }
    }

    /// Appends a name in words, by its form.
    fn push_in_words(
        &self,
        page: &mut Page<'a>,
        is_inverted: bool,
        form: DisambiguatedNameForm,
        person: &Person,
    ) -> Result<(), AllocError>
        ensures { OnOk result (page.new ≡ append_here self.now
            (words_pieces (name_manner (name_style_view self.now)) false
            (person_words (name_style_view self.now).look (resolved_options_view self.now.options)
            is_inverted form (person_view person.now))) page.old) }
    {
        match form {
            DisambiguatedNameForm::LongFull => {
                let given = text_or_empty(&person.given_name);
                self.push_long(page, is_inverted, given, person)
            }
            DisambiguatedNameForm::LongInitialized => {
                let given = initials(self.setting.alloc, &self.options, person)?;
                self.push_long(page, is_inverted, given.as_str(), person)
            }
            DisambiguatedNameForm::Count
            | DisambiguatedNameForm::ShortInitialized
            | DisambiguatedNameForm::ShortFull => self.push_short(page, person),
        }
    }

    /// Appends particle and family name.
    fn push_short(&self, page: &mut Page<'a>, person: &Person) -> Result<(), AllocError>
        ensures { OnOk result (page.new ≡ append_here self.now
            (words_pieces (name_manner (name_style_view self.now)) false
            (person_words (name_style_view self.now).look (resolved_options_view self.now.options)
            false DisambiguatedNameForm.ShortFull (person_view person.now))) page.old) }
    {
        let short = short_text(self.setting.alloc, person)?;
        self.push_words(
            page,
            &[part_word(self.family_part(), no_text(), short.as_str())],
        )
    }

    /// Appends a name with this given name, inverted or not.
    fn push_long(
        &self,
        page: &mut Page<'a>,
        is_inverted: bool,
        given: &str,
        person: &Person,
    ) -> Result<(), AllocError>
        ensures { OnOk result (page.new ≡ append_here self.now
            (words_pieces (name_manner (name_style_view self.now)) false
            (long_words (name_style_view self.now).look (resolved_options_view self.now.options)
            is_inverted (chars given.now) (person_view person.now))) page.old) }
    {
        if is_inverted {
            return self.push_turned(page, given, person);
        }
        let short = short_text(self.setting.alloc, person)?;
        let suffix = text_or_empty(&person.suffix);
        let words = self.straight_words(given, short.as_str(), suffix);
        self.push_words(page, &words)
    }

    /// Appends a name with its family name first; the particle goes after the given name where it is demoted.
    fn push_turned(
        &self,
        page: &mut Page<'a>,
        given: &str,
        person: &Person,
    ) -> Result<(), AllocError>
        ensures { OnOk result (page.new ≡ append_here self.now
            (words_pieces (name_manner (name_style_view self.now)) false
            (turned_words
            (unwrap_or (resolved_options_view self.now.options).demote false)
            (name_style_view self.now).look
            (unwrap_or (resolved_options_view self.now.options).sort_separator comma_and_space)
            (chars given.now) (person_view person.now))) page.old) }
    {
        if self.options.demote_non_dropping_particle.unwrap_or(false) {
            return self.push_demoted(page, given, person);
        }
        let short = short_text(self.setting.alloc, person)?;
        let suffix = text_or_empty(&person.suffix);
        let words = self.inverted_words(given, short.as_str(), suffix);
        self.push_words(page, &words)
    }

    /// Given name, particle and family name, suffix.
    fn straight_words<'w>(
        &self,
        given: &'w str,
        short: &'w str,
        suffix: &'w str,
    ) -> [Word<'a, 'w>; 3]
        ensures { map word_view result ≡ straight_words (name_style_view self.now).look
            (chars given.now) (chars short.now) (chars suffix.now) }
    {
        let family = part_word(self.family_part(), space(), short);
        let last = part_word(None, space(), suffix);
        [
            part_word(self.given_part(), no_text(), given),
            opening(&family, &last),
            closing(&family, &last),
        ]
    }

    /// Particle and family name, given name, suffix, with the separator between.
    fn inverted_words<'w>(
        &self,
        given: &'w str,
        short: &'w str,
        suffix: &'w str,
    ) -> [Word<'a, 'w>; 3]
        ensures { map word_view result ≡ inverted_words (name_style_view self.now).look
            (unwrap_or (resolved_options_view self.now.options).sort_separator comma_and_space)
            (chars given.now) (chars short.now) (chars suffix.now) }
    {
        let separator = self.options.sort_separator();
        [
            part_word(self.family_part(), no_text(), short),
            part_word(self.given_part(), separator, given),
            part_word(None, separator, suffix),
        ]
    }

    /// Appends family name, given name and particle, suffix, with the separator between.
    fn push_demoted(
        &self,
        page: &mut Page<'a>,
        given: &str,
        person: &Person,
    ) -> Result<(), AllocError>
        ensures { OnOk result (page.new ≡ append_here self.now
            (words_pieces (name_manner (name_style_view self.now)) false
            (demoted_words (name_style_view self.now).look
            (unwrap_or (resolved_options_view self.now.options).sort_separator comma_and_space)
            (chars given.now) (person_view person.now))) page.old) }
    {
        let separator = self.options.sort_separator();
        let behind = after_given(separator, given);
        let first = part_word(self.given_part(), separator, given);
        let particle = part_word(self.family_part(), behind, text_or_empty(&person.prefix));
        let words = [
            part_word(self.family_part(), no_text(), person.name.as_str()),
            opening(&first, &particle),
            closing(&first, &particle),
            part_word(None, separator, text_or_empty(&person.suffix)),
        ];
        self.push_words(page, &words)
    }

    /// Appends words one after the other; nothing stands before the first of them that is not empty.
    fn push_words(&self, page: &mut Page<'a>, words: &[Word<'a, '_>]) -> Result<(), AllocError>
        ensures { OnOk result (page.new ≡ append_here self.now
            (words_pieces (name_manner (name_style_view self.now)) false (map word_view words.now))
            page.old) }
    {
        let mut is_after = false;
        for word in words {
            self.push_word(page, text_before(is_after, word), word)?;
            is_after = is_behind(is_after, word);
        }
        Ok(())
    }

    /// Appends a word between its affixes, after another text; one that is empty is none.
    fn push_word(
        &self,
        page: &mut Page<'a>,
        before: &'a str,
        word: &Word<'a, '_>,
    ) -> Result<(), AllocError>
        ensures { OnOk result (page.new ≡ append_here self.now
            (word_pieces (name_manner (name_style_view self.now)) (spelled before.entry)
            (word_view word.now)) page.old) }
    {
        if !has_text(word.text) {
            return Ok(());
        }
        let quotes = self.setting.quotes;
        let manner = self.name_manner();
        page.push_text(quotes, manner, before)?;
        page.push_text(quotes, uncased(manner), word.prefix)?;
        let text = owned(self.setting.alloc, word.text)?;
        page.push_made(quotes, part_manner(manner, word.part), text)?;
        page.push_text(quotes, uncased(manner), word.suffix)
    }
}

/// A word of a part, in its affixes.
fn part_word<'a, 'w>(part: Option<&'a NamePart>, before: &'a str, text: &'w str) -> Word<'a, 'w>
    ensures { word_view result
        ≡ part_word (lent_part_view part.entry) (spelled before.entry) (spelled text.entry) }
{
    Word {
        before,
        prefix: part_prefix(part),
        suffix: part_suffix(part),
        part,
        text,
    }
}

/// The first of two words in its affixes; where the other one is not empty they end after that.
fn opening<'a, 'w>(word: &Word<'a, 'w>, other: &Word<'a, 'w>) -> Word<'a, 'w>
    ensures { word_view result ≡ opening (word_view word.now) (word_view other.now) }
{
    Word {
        suffix: empty_if(has_text(other.text), word.suffix),
        ..*word
    }
}

/// The second of two words in the affixes of the first; where that is not empty they begin before it.
fn closing<'a, 'w>(word: &Word<'a, 'w>, other: &Word<'a, 'w>) -> Word<'a, 'w>
    ensures { word_view result ≡ closing (word_view word.now) (word_view other.now) }
{
    Word {
        prefix: empty_if(has_text(word.text), word.prefix),
        suffix: word.suffix,
        ..*other
    }
}

/// No text, or this one.
fn empty_if(is_empty: bool, text: &str) -> &str
    ensures { spelled result ≡ (if is_empty then [] else spelled text.entry) }
{
    if is_empty { no_text() } else { text }
}
