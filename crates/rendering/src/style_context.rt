//! Styles with the locales that they are used with.

ghost use Rattle.std.specs.Prelude.{◌≡◌, false, true, IfOk, None};
ghost use Rattle.std.specs.Option.{option_map};
ghost use Rattle.laws.specs.Text.{characters};
ghost use Rattle.rendering_locale.specs.CodeViews.{borrowed_code_view};
ghost use Rattle.rendering_names.specs.Views.{resolved_options_view};
ghost use Rattle.rendering_page.specs.Pages.{is_joined};
ghost use Rattle.rendering_style.specs.StyleViews.{style_view};
ghost use Rattle.rendering.specs.Alike.{ForAlikeAnswers};
ghost use Rattle.rendering.specs.Purposes.{citation_options, prints_suffix};
ghost use Rattle.rendering.specs.StyleContexts.{style_context_of};
ghost use Rattle.rendering_page.specs.Views.{quotes_view};
ghost use Rattle.rendering.specs.Words.{joining_quotes, words_of, words_view};

use crate::author_node::AuthorNode;
use crate::call::Call;
use crate::effort::Effort;
use crate::layout::{citation_options, is_published, prints_suffix};
use crate::locale_words::{Words, YearSuffixText};
use crate::rendered::Rendering;
use rendering_context::{CiteProperties, Context};
use rendering_entries::{EntryLike, is_english};
use rendering_locale::{AskedLocales, Locale, LocaleCode, language};
use rendering_names::ResolvedNameOptions;
use rendering_nodes::Walk;
use rendering_style::{Bibliography, Style};
use rendering_taxonomy::{CitePurpose, CollapseVerdict, PageRangeFormat};
use std::alloc::{AllocError, Global};

/// A style with the language that is asked for, and the files with locales.
pub struct StyleContext<'a> {
    alloc: Global,
    style: &'a Style,
    locale: Option<&'a LocaleCode>,
    locale_files: &'a [Locale],
    /// Whether a layout of the style prints the year suffix by itself.
    has_suffix_node: bool,
    authors: AuthorNode,
    /// The options for names in the citation.
    options: ResolvedNameOptions<'a>,
    /// The words of a call that asks for no language.
    own_words: Words<'a>,
    ghost language: { words_view own_words
        ≡ words_of (style_context_of style.now locale locale_files.now) None },
    ghost resolved: { resolved_options_view options ≡ citation_options (style_view style.now) },
    ghost suffix: { has_suffix_node ≡ prints_suffix (style_view style.now) },
}

impl Drop for StyleContext<'_> {
    fn drop(self) {
        let StyleContext {
            alloc: _,
            style: _,
            locale: _,
            locale_files: _,
            has_suffix_node: _,
            authors: _,
            options: _,
            own_words: _,
        } = self;
    }
}

impl<'a> StyleContext<'a> {
    ghost use Rattle.laws.specs.Counts.{next_count};
    ghost use Rattle.rendering_context.specs.Cites.{year_suffix_of};
    ghost use Rattle.rendering_context.specs.Views.{cite_properties_view};
    ghost use Rattle.rendering_entries.specs.Answers.{Answers};
    ghost use Rattle.rendering_style.specs.Views.{bibliography_layout_view};
    ghost use Rattle.rendering_nodes.specs.Views.{walk_context};
    ghost use Rattle.rendering.specs.Purposes.{bibliography, citation, context_of, in_words, item_of, rendered_for};
    ghost use Rattle.rendering.specs.Views.{context_in, style_context_view, rendering_view, style_of};

    /// A style with the language that is asked for where a call asks for none, and the files with locales.
    ///
    /// # Errors
    /// Out of memory.
    pub fn new(
        alloc: Global,
        style: &'a Style,
        locale: Option<&'a LocaleCode>,
        locale_files: &'a [Locale],
    ) -> Result<StyleContext<'a>, AllocError>
        ensures { IfOk result (λ x. style_context_view x
            ≡ style_context_of style.now locale.entry locale_files.now) }
    {
        let authors = AuthorNode::new(alloc)?;
        let own_words = words_in(alloc, style, locale, locale_files)?;
        Ok(StyleContext {
            alloc,
            style,
            locale,
            locale_files,
            has_suffix_node: prints_suffix(style),
            authors,
            options: citation_options(style),
            own_words,
        })
    }

    /// What the style gives of a cite, in the words of that language, by its purpose and what collapsing leaves of it. The call counts
    /// whatever it gives.
    ///
    /// # Errors
    /// Out of memory.
    pub fn citation<'c, E: EntryLike>(
        &'c self,
        entry: &'c E,
        properties: &'c CiteProperties<'c>,
        term_locale: Option<&LocaleCode>,
        purpose: Option<CitePurpose>,
        verdict: Option<CollapseVerdict>,
        effort: &mut Effort,
    ) -> Result<Rendering, AllocError>
        ensures cite { IfOk result (λ r. rendering_view r ≡ citation (style_context_view self.now)
            (E.answers entry.now) (cite_properties_view properties.now)
            (option_map borrowed_code_view term_locale.entry) purpose verdict) }
        ensures alike { ForAlikeAnswers (style_context_view self.now).style (E.answers entry.now)
            (λ others. IfOk result (λ r. rendering_view r ≡ citation (style_context_view self.now)
            others (cite_properties_view properties.now)
            (option_map borrowed_code_view term_locale.entry) purpose verdict)) }
        ensures effort { effort.new ≡ next_count effort.old }
    {
        effort.count_one();
        let year_suffix = YearSuffixText::new(self.alloc, &properties.disambiguation)?;
        self.cite(
            &year_suffix,
            entry,
            properties,
            term_locale,
            purpose,
            verdict,
        )
    }

    /// What the style gives of an item of the bibliography, in the words of that language, where it has a bibliography. The call
    /// counts whatever it gives.
    ///
    /// # Errors
    /// Out of memory.
    pub fn bibliography<'c, E: EntryLike>(
        &'c self,
        entry: &'c E,
        properties: &'c CiteProperties<'c>,
        term_locale: Option<&LocaleCode>,
        effort: &mut Effort,
    ) -> Result<Option<Rendering>, AllocError>
        ensures item { IfOk result (λ r. option_map rendering_view r
            ≡ bibliography (style_context_view self.now)
            (E.answers entry.now) (cite_properties_view properties.now)
            (option_map borrowed_code_view term_locale.entry)) }
        ensures alike { ForAlikeAnswers (style_context_view self.now).style (E.answers entry.now)
            (λ others. IfOk result (λ r. option_map rendering_view r
            ≡ bibliography (style_context_view self.now) others
            (cite_properties_view properties.now)
            (option_map borrowed_code_view term_locale.entry))) }
        ensures effort { effort.new ≡ next_count effort.old }
    {
        effort.count_one();
        match &self.style.parts().bibliography {
            Some(bibliography) => {
                Ok(Some(self.item(entry, properties, term_locale, bibliography)?))
            }
            None => Ok(None),
        }
    }

    /// What the style gives of an item of this bibliography.
    fn item<'c, E: EntryLike>(
        &'c self,
        entry: &'c E,
        properties: &'c CiteProperties<'c>,
        term_locale: Option<&LocaleCode>,
        bibliography: &'c Bibliography,
    ) -> Result<Rendering, AllocError>
        ensures { IfOk result (λ r. rendering_view r
            ≡ item_of (style_context_view self.now).style (context_of
            (style_context_view self.now) (option_map borrowed_code_view term_locale.entry) true
            (E.answers entry.now) (cite_properties_view properties.now))
            (bibliography_layout_view bibliography.now)) }
    {
        let year_suffix = YearSuffixText::new(self.alloc, &properties.disambiguation)?;
        self.listed(&year_suffix, entry, properties, term_locale, bibliography)
    }

    /// What the style gives of a cite with this year suffix.
    fn cite<'c, E: EntryLike>(
        &'c self,
        year_suffix: &'c YearSuffixText,
        entry: &'c E,
        properties: &'c CiteProperties<'c>,
        term_locale: Option<&LocaleCode>,
        purpose: Option<CitePurpose>,
        verdict: Option<CollapseVerdict>,
    ) -> Result<Rendering, AllocError>
        requires { characters year_suffix.now.0
            ≡ year_suffix_of (cite_properties_view properties.now).disambiguation }
        ensures { IfOk result (λ r. rendering_view r ≡ citation (style_context_view self.now)
            (E.answers entry.now) (cite_properties_view properties.now)
            (option_map borrowed_code_view term_locale.entry) purpose verdict) }
    {
        match term_locale {
            None => {
                self.cite_in(
                    &self.own_words,
                    year_suffix,
                    entry,
                    properties,
                    purpose,
                    verdict,
                )
            }
            Some(_) => {
                let words = self.words(term_locale)?;
                self.cite_in(&words, year_suffix, entry, properties, purpose, verdict)
            }
        }
    }

    /// What the style gives of a cite in these words, with this year suffix.
    fn cite_in<'s, 'c, E: EntryLike>(
        &'c self,
        words: &'s Words<'c>,
        year_suffix: &'c YearSuffixText,
        entry: &'c E,
        properties: &'s CiteProperties<'c>,
        purpose: Option<CitePurpose>,
        verdict: Option<CollapseVerdict>,
    ) -> Result<Rendering, AllocError>
        ensures { IfOk result (λ r. rendering_view r ≡ rendered_for
            (style_context_view self.now).style (in_words (style_context_view self.now).style
            (E.answers entry.now) (cite_properties_view properties.now) (words_view words.now)
            (characters year_suffix.now.0) false)
            verdict purpose) }
    {
        let call = self.call(words, year_suffix, properties, false);
        call.rendered_for(entry, verdict, purpose)
    }

    /// What the style gives of an item of this bibliography with this year suffix.
    fn listed<'c, E: EntryLike>(
        &'c self,
        year_suffix: &'c YearSuffixText,
        entry: &'c E,
        properties: &'c CiteProperties<'c>,
        term_locale: Option<&LocaleCode>,
        bibliography: &'c Bibliography,
    ) -> Result<Rendering, AllocError>
        requires { characters year_suffix.now.0
            ≡ year_suffix_of (cite_properties_view properties.now).disambiguation }
        ensures { IfOk result (λ r. rendering_view r
            ≡ item_of (style_context_view self.now).style (context_of
            (style_context_view self.now) (option_map borrowed_code_view term_locale.entry) true
            (E.answers entry.now) (cite_properties_view properties.now))
            (bibliography_layout_view bibliography.now)) }
    {
        match term_locale {
            None => self.listed_in(
                &self.own_words,
                year_suffix,
                entry,
                properties,
                bibliography,
            ),
            Some(_) => {
                let words = self.words(term_locale)?;
                self.listed_in(&words, year_suffix, entry, properties, bibliography)
            }
        }
    }

    /// What the style gives of an item of this bibliography in these words, with this year suffix.
    fn listed_in<'s, 'c, E: EntryLike>(
        &'c self,
        words: &'s Words<'c>,
        year_suffix: &'c YearSuffixText,
        entry: &'c E,
        properties: &'s CiteProperties<'c>,
        bibliography: &'c Bibliography,
    ) -> Result<Rendering, AllocError>
        ensures { IfOk result (λ r. rendering_view r ≡ item_of
            (style_context_view self.now).style (in_words (style_context_view self.now).style
            (E.answers entry.now) (cite_properties_view properties.now) (words_view words.now)
            (characters year_suffix.now.0) true)
            (bibliography_layout_view bibliography.now)) }
    {
        let call = self.call(words, year_suffix, properties, true);
        call.item(entry, bibliography)
    }

    /// The words of a call in that language, or in the one of the context.
    ///
    /// # Errors
    /// Out of memory.
    pub fn words<'c>(&'c self, term_locale: Option<&LocaleCode>) -> Result<Words<'c>, AllocError>
        ensures { IfOk result (λ w. words_view w ≡ words_of (style_context_view self.now)
            (option_map borrowed_code_view term_locale.entry)) }
    {
        let code = term_locale.or(self.locale);
        words_in(self.alloc, self.style, code, self.locale_files)
    }

    /// Where the style joins texts, the close quotes inside which punctuation goes in the words of a call that asks for no language.
    pub fn joining_quotes(&self) -> Option<&[&str]>
        ensures { option_map (λ q. quotes_view q.now) result
            ≡ joining_quotes (style_context_view self.now) }
    {
        if is_published(self.style) {
            Some(self.own_words.quotes.as_slice())
        } else {
            None
        }
    }

    /// What a caller prints from by itself: as in a cite, or in an item of a bibliography, with these properties, in these words and with
    /// this year suffix.
    pub fn walk<'s, 'c>(
        &'c self,
        words: &'s Words<'c>,
        year_suffix: &'c YearSuffixText,
        properties: &'s CiteProperties<'c>,
        is_bibliography: bool,
    ) -> Walk<'s, 'c>
        ensures style { style_view result.style.now ≡ (style_context_view self.now).style }
        ensures context { (a : Answers)
            → walk_context a result ≡ in_words (style_context_view self.now).style a
            (cite_properties_view properties.now) (words_view words.now)
            (characters year_suffix.now.0) is_bibliography }
    {
        let context = Context {
            alloc: self.alloc,
            properties,
            locales: &words.locales,
            quotes: words.quotes.as_slice(),
            year_suffix: year_suffix.0.as_str(),
            is_bibliography,
            has_suffix_node: self.has_suffix_node,
            page_ranges: page_ranges(self.style),
            in_english: words.are_english,
            is_published: is_published(self.style),
        };
        Walk {
            context,
            style: self.style,
        }
    }

    fn call<'s, 'c>(
        &'c self,
        words: &'s Words<'c>,
        year_suffix: &'c YearSuffixText,
        properties: &'s CiteProperties<'c>,
        is_bibliography: bool,
    ) -> Call<'s, 'c>
        ensures style { style_of result ≡ (style_context_view self.now).style }
        ensures context { (a : Answers)
            → context_in a result ≡ in_words (style_context_view self.now).style a
            (cite_properties_view properties.now) (words_view words.now)
            (characters year_suffix.now.0) is_bibliography }
    {
        Call {
            walk: self.walk(words, year_suffix, properties, is_bibliography),
            authors: &self.authors,
            options: &self.options,
        }
    }
}

/// The words of a style in that language, by the files with locales.
fn words_in<'a>(
    alloc: Global,
    style: &'a Style,
    locale: Option<&LocaleCode>,
    locale_files: &'a [Locale],
) -> Result<Words<'a>, AllocError>
    ensures { IfOk result (λ w. words_view w
        ≡ words_of (style_context_of style.now locale.entry locale_files.now) None) }
{
    let parts = style.parts();
    let code = language(locale, parts.default_locale.as_ref());
    let locales = AskedLocales::new(alloc, code, &parts.locales, locale_files)?;
    let quotes = locales.close_quotes(alloc)?;
    Ok(Words {
        locales,
        quotes,
        are_english: is_english(code),
    })
}

/// How a style shortens ranges of pages.
fn page_ranges(style: &Style) -> Option<PageRangeFormat>
    ensures { result ≡ (style_view style.now).page_ranges }
{
    style.parts().page_ranges
}
