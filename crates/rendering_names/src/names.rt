//! A names node on a page.

ghost use Rattle.std.specs.Prelude.{◌≡◌, ◌∷◌, ◌++◌, [], IfOk, OnOk, None, length, zip};
ghost use Rattle.std.specs.Fmt.{decimal};
ghost use Rattle.std.specs.List.{enumerate_from, flat_map};
ghost use Rattle.laws.specs.Text.{characters, spelled};
ghost use Rattle.rendering_people.specs.Counts.{cut};
ghost use Rattle.rendering_names.specs.Around.{NamesAround};
ghost use Rattle.rendering_names.specs.Names.{before_people, people_delimiter, beside, label_pieces, list_pieces, names_frame, every_letter, people_manner, names_pieces, next_variable, node_options, people_pieces, indexed_variable, variable_frame, variable_pieces};
ghost use Rattle.rendering_names.specs.Roles.{label_term};
ghost use Rattle.rendering_people.specs.Views.{all_lent_answered_view, lent_answered_view};
ghost use Rattle.rendering_names.specs.Views.{append_here, counted_view, names_parts_view, resolved_options_view, indexed, name_style_view};
ghost use Rattle.rendering_page.specs.Pieces.{append_pieces, normal};
ghost use Rattle.rendering_page.specs.Views.{quotes_view, manner_view, frame_view};

use crate::options::ResolvedNameOptions;
use crate::parts::NamesParts;
use crate::style::{NameSetting, NameStyle, changed_manner};
use crate::words::comma_and_space;
use rendering_page::{Frame, Manner, Page};
use rendering_people::{
    Answered, NameDisambiguationProperties, PeopleCount, names_meta, split_forms,
};
use rendering_taxonomy::{DisambiguatedNameForm, NameVariable, TextCase};
use rendering_tree::ElemMeta;
use std::alloc::{AllocError, Global};
use std::fmt::Write;
use texts::{empty_text, first_text, no_text, text_or};

/// Appends the people of a names node in an element that stands for them: of each variable the names that the properties
/// show, each in its form, with the label of the variable; or only how many are shown, where the options say so. Where the node says so,
/// editors who are the translators too are printed once, with a label of their own. The options are those of the node by what is said
/// around it. The properties are those of the same people, variable by variable. Nothing is promised of the page
/// after an error.
///
/// # Errors
/// Out of memory alone.
pub fn push_names<'a>(
    page: &mut Page<'a>,
    setting: &NameSetting<'_, 'a>,
    node: &NamesParts<'a>,
    options: &ResolvedNameOptions<'a>,
    properties: &NameDisambiguationProperties,
    people: &[Answered<'_>],
) -> Result<(), AllocError>
    ensures { (around : NamesAround)
        → resolved_options_view options.now ≡ node_options (names_parts_view node.now) around
        → OnOk result (page.new ≡ append_pieces (quotes_view setting.now.quotes.now)
        (names_pieces setting.now.locales.now (manner_view setting.now.manner)
        (names_parts_view node.now) around properties.now (all_lent_answered_view people.now))
        page.old) }
{
    let frame = names_frame(setting.manner, node);
    let meta = names_meta(setting.alloc, people)?;
    let style = NameStyle::new(names_setting(setting, node), node, options);
    page.begin_element(&frame, meta)?;
    style.push_people(page, &node.merging(people), properties, people)?;
    page.end_element(setting.quotes, &frame)?;
    Ok(())
}

/// The element of a names node, whatever it stands for.
pub fn names_frame<'a>(manner: Manner, node: &NamesParts<'a>) -> Frame<'a>
    ensures { frame_view result
        ≡ record (names_frame (manner_view manner) (names_parts_view node.now) []) { meta = None } }
{
    Frame {
        display: node.look.display,
        meta: None,
        manner,
        prefix: node.prefix,
        suffix: node.suffix,
    }
}

/// The setting in which the people of a node are appended: that around it, with the look of the node.
fn names_setting<'s, 'a>(
    setting: &NameSetting<'s, 'a>,
    node: &NamesParts<'a>,
) -> NameSetting<'s, 'a>
    ensures quotes { result.quotes.now ≡ setting.now.quotes.now }
    ensures locales { result.locales.now ≡ setting.now.locales.now }
    ensures manner { manner_view result.manner
        ≡ people_manner (manner_view setting.now.manner) (names_parts_view node.now) }
{
    NameSetting {
        alloc: setting.alloc,
        quotes: setting.quotes,
        locales: setting.locales,
        manner: people_manner(setting.manner, node),
    }
}

/// How people are appended: in the look of their node, and in a case that is handed down, where it is one of all letters.
fn people_manner(manner: Manner, node: &NamesParts<'_>) -> Manner
    ensures { manner_view result ≡ people_manner (manner_view manner) (names_parts_view node.now) }
{
    let own = changed_manner(node.look.formatting, manner);
    Manner {
        text_case: every_letter(manner.text_case),
        ..own
    }
}

/// A case of all letters; another one is none.
fn every_letter(case: Option<TextCase>) -> Option<TextCase>
    ensures { result ≡ every_letter case }
{
    match case {
        Some(TextCase::Lowercase) => Some(TextCase::Lowercase),
        Some(TextCase::Uppercase) => Some(TextCase::Uppercase),
        Some(TextCase::CapitalizeFirst)
        | Some(TextCase::CapitalizeAll)
        | Some(TextCase::Sentence)
        | Some(TextCase::Title)
        | None => None,
    }
}

impl<'s, 'a> NameStyle<'s, 'a> {
    /// Appends the people of each variable, or only how many are shown.
    fn push_people(
        &self,
        page: &mut Page<'a>,
        node: &NamesParts<'a>,
        properties: &NameDisambiguationProperties,
        people: &[Answered<'_>],
    ) -> Result<(), AllocError>
        ensures { OnOk result (page.new ≡ append_here self.now
            (people_pieces (name_style_view self.now) (names_parts_view node.now) properties.now
            (all_lent_answered_view people.now)) page.old) }
    {
        if self.options.is_count() {
            return self.push_count(page, properties.all_shown());
        }
        self.push_variables(page, node, properties.counts(), properties.forms(), people)
    }

    /// Appends a number.
    fn push_count(&self, page: &mut Page<'a>, shown: usize) -> Result<(), AllocError>
        ensures { OnOk result (page.new ≡ append_here self.now
            (normal (name_style_view self.now).manner (decimal shown) ∷ []) page.old) }
    {
        let text = digits(self.setting.alloc, shown)?;
        page.push_made(self.setting.quotes, self.setting.manner, text)
    }

    /// Appends the people of each variable, with a delimiter between those of two.
    fn push_variables(
        &self,
        page: &mut Page<'a>,
        node: &NamesParts<'a>,
        counts: &[PeopleCount],
        forms: &[DisambiguatedNameForm],
        people: &[Answered<'_>],
    ) -> Result<(), AllocError>
        ensures { OnOk result (page.new ≡ append_here self.now
            (flat_map (indexed_variable (name_style_view self.now) (names_parts_view node.now)
            (all_lent_answered_view people.now))
            (enumerate_from 0 (zip (cut counts.now forms.now) (all_lent_answered_view people.now))))
            page.old) }
    {
        let mut rest = forms;
        for index in 0..counts.len().min(people.len()) {
            let count = counts[index];
            let (own, others) = split_forms(rest, count.people);
            let (before, _) = people.split_at(index);
            self.push_next(page, node, before, count, own, &people[index])?;
            rest = others;
        }
        Ok(())
    }

    /// Appends the people of a variable after what stands before them, unless people before them
    /// are printed who are the same in their other role.
    fn push_next(
        &self,
        page: &mut Page<'a>,
        node: &NamesParts<'a>,
        before: &[Answered<'_>],
        count: PeopleCount,
        forms: &[DisambiguatedNameForm],
        answered: &Answered<'_>,
    ) -> Result<(), AllocError>
        ensures { OnOk result (page.new ≡ append_here self.now
            (next_variable (name_style_view self.now) (names_parts_view node.now)
            (all_lent_answered_view before.now) (length before.now)
            (counted_view count forms.now answered.now)) page.old) }
    {
        if node.leaves_out(before, answered.variable) {
            return Ok(());
        }
        self.push_before_people(page, node, before.len())?;
        self.push_variable(page, node, count, forms, answered)
    }

    /// Appends what stands before the people of the variable at an index.
    fn push_before_people(
        &self,
        page: &mut Page<'a>,
        node: &NamesParts<'a>,
        index: usize,
    ) -> Result<(), AllocError>
        ensures { OnOk result (page.new
            ≡ append_here self.now (before_people (name_style_view self.now).manner
            (resolved_options_view self.now.options) (names_parts_view node.now) index) page.old) }
    {
        if index == 0 {
            return Ok(());
        }
        let text = self.people_delimiter(node);
        page.push_text(self.setting.quotes, self.setting.manner, text)
    }

    /// The text between the people of two variables.
    fn people_delimiter(&self, node: &NamesParts<'a>) -> &'a str
        ensures { spelled result ≡ people_delimiter
            (resolved_options_view self.now.options) (names_parts_view node.now) }
    {
        text_or(
            first_text(node.delimiter, self.options.names_delimiter),
            comma_and_space(),
        )
    }

    /// Appends the people of a variable in an element, with the label.
    fn push_variable(
        &self,
        page: &mut Page<'a>,
        node: &NamesParts<'a>,
        count: PeopleCount,
        forms: &[DisambiguatedNameForm],
        answered: &Answered<'_>,
    ) -> Result<(), AllocError>
        ensures { OnOk result (page.new ≡ append_here self.now
            (variable_pieces (name_style_view self.now) (names_parts_view node.now)
            (counted_view count forms.now answered.now)) page.old) }
    {
        let frame = self.variable_frame();
        page.begin_element(&frame, ElemMeta::NameVariable(answered.variable))?;
        self.push_labelled(page, node, count.shown, forms, answered)?;
        page.end_element(self.setting.quotes, &frame)?;
        Ok(())
    }

    /// Appends the people of a variable with the label before or after them.
    fn push_labelled(
        &self,
        page: &mut Page<'a>,
        node: &NamesParts<'a>,
        shown: usize,
        forms: &[DisambiguatedNameForm],
        answered: &Answered<'_>,
    ) -> Result<(), AllocError>
        ensures { OnOk result (page.new
            ≡ append_here self.now (beside (names_parts_view node.now).label_is_first (label_pieces
            self.now.setting.locales.now (name_style_view self.now).manner
            (label_term (names_parts_view node.now) answered.now.variable)
            (length (lent_answered_view answered.now).0) (names_parts_view node.now).label)
            (list_pieces (name_style_view self.now) answered.now.variable shown
            (indexed forms.now answered.now.people.items))) page.old) }
    {
        let variable = answered.variable;
        let people = answered.people.as_slice();
        let term = node.label_term(variable);
        if node.label_is_first {
            self.push_label(page, term, people.len(), node.label)?;
            return self.push_list(page, variable, shown, forms, people);
        }
        self.push_list(page, variable, shown, forms, people)?;
        self.push_label(page, term, people.len(), node.label)
    }

    /// An element without affixes.
    fn variable_frame(&self) -> Frame<'a>
        ensures { frame_view result
            ≡ record (variable_frame (name_style_view self.now).manner NameVariable.Author)
            { meta = None } }
    {
        Frame {
            display: None,
            meta: None,
            manner: self.setting.manner,
            prefix: no_text(),
            suffix: no_text(),
        }
    }
}

fn digits(alloc: Global, number: usize) -> Result<String, AllocError>
    ensures { IfOk result (λ s. characters s ≡ decimal number) }
{
    let mut text = empty_text(alloc);
    push_digits(&mut text, number)?;
    Ok(text)
}

fn push_digits(out: &mut String, number: usize) -> Result<(), AllocError>
    ensures { OnOk result (characters out.new ≡ characters out.old ++ decimal number) }
{
    write!(out, "{number}")
}
