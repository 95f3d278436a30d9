//! Which locales are asked, and what they answer.

ghost use Rattle.std.specs.Prelude.{◌≡◌, ◌++◌, map, IfOk, OnOk};
ghost use Rattle.std.specs.Option.{option_map, option_to_list, unwrap_or};
ghost use Rattle.laws.specs.Text.{spelled};
ghost use Rattle.rendering_locale.specs.Lookup.{asked, first_answer, term, term_text, text_of, date_found, limits_day_ordinals, punctuates_in_quotes, quote_text, close_quotes};
ghost use Rattle.rendering_locale.specs.Views.{term_view, localized_date_view, ordinals_view, locale_view, locales_view};

use crate::code::base_of;
use crate::locale::{Locale, LocalizedDate, LocalizedTerm, Ordinals};
use crate::looking::{
    date_found, day_limit_found, in_fallback, in_language, ordinals_found, punctuation_found,
    term_found,
};
use rendering_taxonomy::{DateForm, OtherTerm, Term, TermForm};
use std::alloc::{AllocError, Global};
use std::marker::Model;
use texts::{no_text, text_or_empty};

/// The locales that are asked for words, dates and endings, in order. Each form of a term is asked of all of them.
#[derive(Drop)]
pub struct AskedLocales<'a> {
    locales: Vec<&'a Locale>,
}

impl<'a> Model for AskedLocales<'a> {
    ghost use Rattle.std.specs.Prelude.{List};
    ghost use Rattle.rendering_locale.specs.Locales.{Locale as Viewed};
    ghost use Rattle.rendering_locale.specs.Views.{locales_view};

    ghost Value = { List Viewed };

    ghost view = { λ a. locales_view a.locales.items };
}

impl<'a> AskedLocales<'a> {
    /// The locales that are asked for a code of a language: of a style's own those of the code, of its base language and of no
    /// language; of the files those of the code, of the code that stands for its language, and of `en-US`; of each the first.
    ///
    /// # Errors
    /// Out of memory.
    pub fn new(
        alloc: Global,
        code: &str,
        own: &'a [Locale],
        files: &'a [Locale],
    ) -> Result<AskedLocales<'a>, AllocError>
        ensures { IfOk result (λ a. a
            ≡ asked code.now (map locale_view own.now) (map locale_view files.now)) }
    {
        let mut locales = Vec::with_capacity(alloc, 6)?;
        push_some(&mut locales, in_language(Some(code), own))?;
        push_some(&mut locales, in_language(Some(base_of(code)), own))?;
        push_some(&mut locales, in_language(None, own))?;
        push_some(&mut locales, in_language(Some(code), files))?;
        push_some(&mut locales, in_fallback(code, files))?;
        push_some(&mut locales, in_language(Some("en-US"), files))?;
        Ok(AskedLocales { locales })
    }

    /// The text of a term for one or for more than one, in the form, or else in the next form that stands for it. A term
    /// that lacks the number asked has an empty text.
    pub fn term(&self, name: Term, form: TermForm, plural: bool) -> Option<&'a str>
        ensures { option_map spelled result ≡ term self.now name form plural }
    {
        match term_found(&self.locales, name, form) {
            Some(term) => Some(text_of(term, plural)),
            None => None,
        }
    }

    /// The text of a term as `term` gives it, empty where there is no such term.
    pub fn term_text(&self, name: Term, form: TermForm, plural: bool) -> &'a str
        ensures { spelled result ≡ term_text self.now name form plural }
    {
        match self.term(name, form, plural) {
            Some(text) => text,
            None => no_text(),
        }
    }

    /// The first date of the form.
    pub fn date(&self, form: DateForm) -> Option<&'a LocalizedDate>
        ensures { option_map (λ d. localized_date_view d.now) result ≡ date_found self.now form }
    {
        date_found(&self.locales, form)
    }

    /// The first endings of ordinal numbers; without any, numbers have no ending.
    pub fn ordinals(&self) -> Option<&'a Ordinals>
        ensures { option_map (λ o. ordinals_view o.now) result
            ≡ first_answer (λ l. l.ordinals) self.now }
    {
        ordinals_found(&self.locales)
    }

    /// Whether punctuation goes inside quotes: what the first locale says that says anything, else not.
    pub fn punctuates_in_quotes(&self) -> bool
        ensures { result ≡ punctuates_in_quotes self.now }
    {
        punctuation_found(&self.locales).unwrap_or(false)
    }

    /// Whether of the days only the first is an ordinal number: what the first locale says that says anything, else not.
    pub fn limits_day_ordinals(&self) -> bool
        ensures { result ≡ limits_day_ordinals self.now }
    {
        day_limit_found(&self.locales).unwrap_or(false)
    }

    /// The text of a quote.
    pub fn quote_text(&self, quote: OtherTerm) -> &'a str
        ensures { spelled result ≡ quote_text self.now (Term.Other quote) }
    {
        self.term_text(Term::Other(quote), TermForm::Long, false)
    }

    /// The close quotes inside which punctuation goes, in the order in which they are tried.
    ///
    /// # Errors
    /// Out of memory.
    pub fn close_quotes(&self, alloc: Global) -> Result<Vec<&'a str>, AllocError>
        ensures { IfOk result (λ v. map spelled v.items ≡ close_quotes self.now) }
    {
        let mut quotes = Vec::new(alloc);
        if self.punctuates_in_quotes() {
            quotes.push(self.quote_text(OtherTerm::CloseQuote))?;
            quotes.push(self.quote_text(OtherTerm::CloseInnerQuote))?;
        }
        Ok(quotes)
    }
}

/// The text of the term for one or for more than one, empty where it has none.
fn text_of(term: &LocalizedTerm, plural: bool) -> &str
    ensures { spelled result ≡ text_of plural (term_view term.now) }
{
    if plural {
        text_or_empty(&term.multiple)
    } else {
        text_or_empty(&term.single)
    }
}

fn push_some<'a>(locales: &mut Vec<&'a Locale>, found: Option<&'a Locale>) -> Result<(), AllocError>
    ensures { OnOk result (locales_view locales.new.items ≡ locales_view locales.old.items
        ++ option_to_list (option_map (λ l. locale_view l.now) found.entry)) }
{
    if let Some(locale) = found {
        locales.push(locale)?;
    }
    Ok(())
}
