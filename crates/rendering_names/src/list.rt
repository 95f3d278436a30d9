//! The names of one variable on a page: those that are shown, and what stands for the rest.

ghost use Rattle.std.specs.Prelude.{◌≡◌, ◌+◌, ◌<◌, ◌≤◌, ◌∷◌, [], OnOk, length, take, if◌then◌else◌};
ghost use Rattle.laws.specs.Characters.{space};
ghost use Rattle.laws.specs.Text.{spelled};
ghost use Rattle.literature_values.specs.PersonViews.{person_view, lent_person_view};
ghost use Rattle.rendering_names.specs.Names.{after_ellipsis, and_text, before_last_by, before_name, delimiter_by, et_al_by, et_al_pieces, inverts, last_pieces, list_pieces, name_manner, name_pieces, rest_pieces, shown_pieces};
ghost use Rattle.rendering_names.specs.NameParts.{person_pieces};
ghost use Rattle.rendering_names.specs.Views.{append_here, resolved_options_view, indexed, name_style_view};
ghost use Rattle.rendering_page.specs.Pages.{append_normal};
ghost use Rattle.rendering_page.specs.Views.{quotes_view};

use crate::style::NameStyle;
use crate::words::{ellipsis, space};
use literature_values::Person;
use rendering_page::Page;
use rendering_people::borrowed_person;
use rendering_taxonomy::{DisambiguatedNameForm, NameVariable, Term, TermForm};
use rendering_tree::ElemMeta;
use std::alloc::AllocError;
use std::borrow::Cow;
use texts::has_text;

impl<'s, 'a> NameStyle<'s, 'a> {
    /// Appends the first people of a variable, so many of them, and what stands for the rest.
    pub(crate) fn push_list(
        &self,
        page: &mut Page<'a>,
        variable: NameVariable,
        shown: usize,
        forms: &[DisambiguatedNameForm],
        people: &[Cow<'_, Person>],
    ) -> Result<(), AllocError>
        ensures { OnOk result (page.new ≡ append_here self.now (list_pieces
            (name_style_view self.now) variable shown (indexed forms.now people.now)) page.old) }
    {
        let count = forms.len().min(people.len());
        self.push_shown(page, variable, forms, people, count, shown.min(count))?;
        self.push_rest(page, variable, count, shown, forms, people)
    }

    /// Appends the first people of a variable, each after what stands before it.
    fn push_shown(
        &self,
        page: &mut Page<'a>,
        variable: NameVariable,
        forms: &[DisambiguatedNameForm],
        people: &[Cow<'_, Person>],
        count: usize,
        shown: usize,
    ) -> Result<(), AllocError>
        requires shown { shown ≤ count }
        requires forms { count ≤ length forms.now }
        requires people { count ≤ length people.now }
        ensures { OnOk result (page.new
            ≡ append_here self.now (shown_pieces (name_style_view self.now) variable count
            (take shown (indexed forms.now people.now))) page.old) }
    {
        for index in 0..shown {
            self.push_before(page, count, index)?;
            self.push_name(page, variable, index, forms[index], &people[index])?;
        }
        Ok(())
    }

    /// Appends what stands before the name at an index among so many.
    fn push_before(&self, page: &mut Page<'a>, count: usize, index: usize) -> Result<(), AllocError>
        requires { index < count }
        ensures { OnOk result (page.new ≡ append_here self.now
            (before_name self.now.setting.locales.now (name_style_view self.now).manner
            (resolved_options_view self.now.options) count index) page.old) }
    {
        if index == 0 {
            return Ok(());
        }
        if index + 1 == count {
            return self.push_before_last(page, count);
        }
        self.push_delimiter(page)
    }

    /// Appends what stands before the last of so many names: the delimiter or a space, the word and a space; without a word
    /// the delimiter.
    fn push_before_last(&self, page: &mut Page<'a>, count: usize) -> Result<(), AllocError>
        ensures { OnOk result (page.new ≡ append_here self.now (before_last_by
            (name_style_view self.now).manner (resolved_options_view self.now.options) count
            (and_text self.now.setting.locales.now self.now.options.and)) page.old) }
    {
        let word = self.and_text();
        if !has_text(word) {
            return self.push_delimiter(page);
        }
        self.push_delimiter_or_space(page, self.options.delimits_last(count))?;
        page.push_text(self.setting.quotes, self.setting.manner, word)?;
        self.push_space(page)
    }

    /// Appends the delimiter, or else a space.
    fn push_delimiter_or_space(
        &self,
        page: &mut Page<'a>,
        is_delimited: bool,
    ) -> Result<(), AllocError>
        ensures { OnOk result (page.new ≡ append_normal (quotes_view self.now.setting.quotes.now)
            (name_style_view self.now).manner (if is_delimited
            then delimiter_by (resolved_options_view self.now.options) else space ∷ []) page.old) }
    {
        if is_delimited {
            return self.push_delimiter(page);
        }
        self.push_space(page)
    }

    /// Appends the text between names.
    fn push_delimiter(&self, page: &mut Page<'a>) -> Result<(), AllocError>
        ensures { OnOk result (page.new ≡ append_normal
            (quotes_view self.now.setting.quotes.now) (name_style_view self.now).manner
            (delimiter_by (resolved_options_view self.now.options)) page.old) }
    {
        page.push_text(
            self.setting.quotes,
            self.setting.manner,
            self.options.delimiter(),
        )
    }

    fn push_space(&self, page: &mut Page<'a>) -> Result<(), AllocError>
        ensures { OnOk result (page.new ≡ append_normal (quotes_view self.now.setting.quotes.now)
            (name_style_view self.now).manner (space ∷ []) page.old) }
    {
        page.push_text(self.setting.quotes, self.setting.manner, space())
    }

    /// Appends a name between its affixes, as the person at an index.
    fn push_name(
        &self,
        page: &mut Page<'a>,
        variable: NameVariable,
        index: usize,
        form: DisambiguatedNameForm,
        person: &Cow<'_, Person>,
    ) -> Result<(), AllocError>
        ensures { OnOk result (page.new
            ≡ append_here self.now (name_pieces (name_style_view self.now) variable index form
            (lent_person_view person.now)) page.old) }
    {
        let frame = self.name_frame();
        page.begin_element(&frame, ElemMeta::Name(variable, index))?;
        self.push_inverted_by(page, index, form, borrowed_person(person))?;
        page.end_element(self.setting.quotes, &frame)?;
        Ok(())
    }

    /// Appends a name, which is inverted or not by its index.
    fn push_inverted_by(
        &self,
        page: &mut Page<'a>,
        index: usize,
        form: DisambiguatedNameForm,
        person: &Person,
    ) -> Result<(), AllocError>
        ensures { OnOk result (page.new ≡ append_here self.now
            (person_pieces (name_manner (name_style_view self.now)) (name_style_view self.now).look
            (resolved_options_view self.now.options)
            (inverts self.now.options.name_as_sort_order index) form (person_view person.now))
            page.old) }
    {
        let is_inverted = self.options.inverts(index);
        self.push_person(page, is_inverted, form, person)
    }

    /// Appends what stands for those who are not shown: the last one, after an ellipsis, where that is wanted and two or more
    /// are left out, or else the term for them.
    fn push_rest(
        &self,
        page: &mut Page<'a>,
        variable: NameVariable,
        count: usize,
        shown: usize,
        forms: &[DisambiguatedNameForm],
        people: &[Cow<'_, Person>],
    ) -> Result<(), AllocError>
        requires forms { count ≤ length forms.now }
        requires people { count ≤ length people.now }
        requires all { length (indexed forms.now people.now) ≡ count }
        ensures { OnOk result (page.new
            ≡ append_here self.now (rest_pieces (name_style_view self.now) variable count shown
            (indexed forms.now people.now)) page.old) }
    {
        if count <= shown {
            return Ok(());
        }
        if self.options.et_al_use_last.unwrap_or(false) && 2 <= count - shown {
            return self.push_last(page, variable, count - 1, forms, people);
        }
        self.push_et_al(page, shown)
    }

    /// Appends the name at the last index after an ellipsis.
    fn push_last(
        &self,
        page: &mut Page<'a>,
        variable: NameVariable,
        last: usize,
        forms: &[DisambiguatedNameForm],
        people: &[Cow<'_, Person>],
    ) -> Result<(), AllocError>
        requires forms { last < length forms.now }
        requires people { last < length people.now }
        requires all { length (indexed forms.now people.now) ≡ last + 1 }
        ensures { OnOk result (page.new ≡ append_here self.now
            (after_ellipsis (name_style_view self.now) (last_pieces (name_style_view self.now)
            variable (last + 1) (indexed forms.now people.now))) page.old) }
    {
        self.push_delimiter(page)?;
        page.push_text(self.setting.quotes, self.setting.manner, ellipsis())?;
        self.push_space(page)?;
        self.push_name(page, variable, last, forms[last], &people[last])
    }

    /// Appends the term for those left out, after the delimiter or a space. Without a term there is neither.
    fn push_et_al(&self, page: &mut Page<'a>, shown: usize) -> Result<(), AllocError>
        ensures { OnOk result (page.new
            ≡ append_here self.now (et_al_pieces (name_style_view self.now) shown) page.old) }
    {
        let term = Term::Other(self.et_al_term());
        let locales = self.setting.locales;
        self.push_et_al_text(page, shown, locales.term_text(term, TermForm::Long, false))
    }

    /// Appends that text for those left out, after the delimiter or a space; an empty text has neither.
    fn push_et_al_text(
        &self,
        page: &mut Page<'a>,
        shown: usize,
        text: &'a str,
    ) -> Result<(), AllocError>
        ensures { OnOk result (page.new ≡ append_here self.now
            (et_al_by (name_style_view self.now) shown (spelled text.entry)) page.old) }
    {
        if !has_text(text) {
            return Ok(());
        }
        self.push_delimiter_or_space(page, self.options.delimits_et_al(shown))?;
        page.push_text(self.setting.quotes, self.et_al_manner(), text)
    }
}
