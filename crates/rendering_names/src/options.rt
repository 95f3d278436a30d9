//! What is specified for names by a node, the layout and the style.

ghost use Rattle.std.specs.Prelude.{◌≡◌, ◌&&◌, nat_le, nat_lt, if◌then◌else◌, true};
ghost use Rattle.std.specs.Option.{option_map, unwrap_or};
ghost use Rattle.laws.specs.Text.{spelled};
ghost use Rattle.rendering_names.specs.Names.{form_by, base_form, shown_by, shown_of, delimiter_by, inverts, delimits_last, delimits_et_al, is_count};
ghost use Rattle.rendering_names.specs.Persons.{comma_and_space, initials_rule, rule_by, stop_and_space};
ghost use Rattle.rendering_names.specs.Views.{resolved_options_view};
ghost use Rattle.rendering_style.specs.Options.{options_over};
ghost use Rattle.rendering_style.specs.Views.{options_view};

use crate::words::{comma_and_space, stop_and_space};
use literature_values::InitialsRule;
use rendering_style::NameOptions;
use rendering_taxonomy::{
    DelimiterBehavior, DisambiguatedNameForm, NameAnd, NameAsSortOrder, NameForm,
};
use texts::{borrowed_text, first_text, text_or};

/// What is specified for names, taken together from a node, the layout around it and the style. What none of them says is left
/// open.
#[derive(Clone, Copy)]
pub struct ResolvedNameOptions<'a> {
    /// What stands before the last name.
    pub and: Option<NameAnd>,
    /// The text between names.
    pub delimiter: Option<&'a str>,
    /// Whether the delimiter stands before the last name.
    pub delimiter_precedes_last: Option<DelimiterBehavior>,
    /// From how many names on not all are shown.
    pub et_al_min: Option<u32>,
    /// How many are shown then.
    pub et_al_use_first: Option<u32>,
    /// From how many names on not all are shown in subsequent cites, and how many are shown then.
    pub et_al_subsequent_min: Option<u32>,
    pub et_al_subsequent_use_first: Option<u32>,
    /// Whether the last name is shown after those left out.
    pub et_al_use_last: Option<bool>,
    pub form: Option<NameForm>,
    /// What stands after each initial; given names are cut to initials where this is specified.
    pub initialize_with: Option<&'a str>,
    /// Which names are inverted.
    pub name_as_sort_order: Option<NameAsSortOrder>,
    /// What stands after the family name of an inverted name.
    pub sort_separator: Option<&'a str>,
    /// Whether the particle of a family name goes after the given name.
    pub demote_non_dropping_particle: Option<bool>,
    /// Whether the delimiter stands before the term for the names left out.
    pub delimiter_precedes_et_al: Option<DelimiterBehavior>,
    /// Whether whole given names are cut to initials; else only what stands behind initials changes.
    pub initialize: Option<bool>,
    /// Whether hyphens stay between initials.
    pub initialize_with_hyphen: Option<bool>,
    /// Whether each run of letters of a given name has an initial; else each word of it has one.
    pub splits_initials: Option<bool>,
    /// The text between the people of two variables, where their node says none.
    pub names_delimiter: Option<&'a str>,
}

impl<'a> ResolvedNameOptions<'a> {
    /// What one of them says alone.
    pub fn new(options: &'a NameOptions) -> ResolvedNameOptions<'a>
        ensures { resolved_options_view result ≡ options_view options.now }
    {
        ResolvedNameOptions {
            and: options.and,
            delimiter: borrowed_text(&options.delimiter),
            delimiter_precedes_last: options.delimiter_precedes_last,
            et_al_min: options.et_al_min,
            et_al_use_first: options.et_al_use_first,
            et_al_subsequent_min: options.et_al_subsequent_min,
            et_al_subsequent_use_first: options.et_al_subsequent_use_first,
            et_al_use_last: options.et_al_use_last,
            form: options.form,
            initialize_with: borrowed_text(&options.initialize_with),
            name_as_sort_order: options.name_as_sort_order,
            sort_separator: borrowed_text(&options.sort_separator),
            demote_non_dropping_particle: options.demote_non_dropping_particle,
            delimiter_precedes_et_al: options.delimiter_precedes_et_al,
            initialize: options.initialize,
            initialize_with_hyphen: options.initialize_with_hyphen,
            splits_initials: options.splits_initials,
            names_delimiter: borrowed_text(&options.names_delimiter),
        }
    }

    /// Each option as it is specified here, or else around.
    #[inline(always)]
    pub fn over(&self, around: &ResolvedNameOptions<'a>) -> ResolvedNameOptions<'a>
        ensures { resolved_options_view result
            ≡ options_over (resolved_options_view self.now) (resolved_options_view around.now) }
    {
        ResolvedNameOptions {
            and: self.and.or(around.and),
            delimiter: first_text(self.delimiter, around.delimiter),
            delimiter_precedes_last: self
                .delimiter_precedes_last
                .or(around.delimiter_precedes_last),
            et_al_min: self.et_al_min.or(around.et_al_min),
            et_al_use_first: self.et_al_use_first.or(around.et_al_use_first),
            et_al_subsequent_min: self.et_al_subsequent_min.or(around.et_al_subsequent_min),
            et_al_subsequent_use_first: self
                .et_al_subsequent_use_first
                .or(around.et_al_subsequent_use_first),
            et_al_use_last: self.et_al_use_last.or(around.et_al_use_last),
            form: self.form.or(around.form),
            initialize_with: first_text(self.initialize_with, around.initialize_with),
            name_as_sort_order: self.name_as_sort_order.or(around.name_as_sort_order),
            sort_separator: first_text(self.sort_separator, around.sort_separator),
            demote_non_dropping_particle: self
                .demote_non_dropping_particle
                .or(around.demote_non_dropping_particle),
            delimiter_precedes_et_al: self
                .delimiter_precedes_et_al
                .or(around.delimiter_precedes_et_al),
            initialize: self.initialize.or(around.initialize),
            initialize_with_hyphen: self
                .initialize_with_hyphen
                .or(around.initialize_with_hyphen),
            splits_initials: self.splits_initials.or(around.splits_initials),
            names_delimiter: first_text(self.names_delimiter, around.names_delimiter),
        }
    }

    /// The form in which names are printed.
    pub(crate) fn base_form(&self) -> DisambiguatedNameForm
        ensures { result ≡ base_form (resolved_options_view self.now) }
    {
        form_by(
            self.form.unwrap_or(NameForm::Long),
            self.initialize_with.is_some(),
        )
    }

    /// How many of so many people are shown, in a first cite or in a subsequent one.
    pub(crate) fn shown(&self, is_first: bool, count: usize) -> usize
        ensures { result ≡ shown_of (resolved_options_view self.now) is_first count }
    {
        if is_first {
            return shown_by(self.et_al_min, self.et_al_use_first, count);
        }
        shown_by(
            self.et_al_subsequent_min.or(self.et_al_min),
            self.et_al_subsequent_use_first.or(self.et_al_use_first),
            count,
        )
    }

    /// The text between names.
    pub(crate) fn delimiter(&self) -> &'a str
        ensures { spelled result ≡ delimiter_by (resolved_options_view self.now) }
    {
        text_or(self.delimiter, comma_and_space())
    }

    /// The text after the family name of an inverted name.
    pub(crate) fn sort_separator(&self) -> &'a str
        ensures { spelled result
            ≡ unwrap_or (option_map spelled self.now.sort_separator) comma_and_space }
    {
        text_or(self.sort_separator, comma_and_space())
    }

    /// The text after each initial.
    pub(crate) fn after_initials(&self) -> &'a str
        ensures { spelled result
            ≡ unwrap_or (option_map spelled self.now.initialize_with) stop_and_space }
    {
        text_or(self.initialize_with, stop_and_space())
    }

    /// Whether the name at the index is inverted.
    pub(crate) fn inverts(&self, index: usize) -> bool
        ensures { result ≡ inverts self.now.name_as_sort_order index }
    {
        match self.name_as_sort_order {
            None => false,
            Some(NameAsSortOrder::All) => true,
            Some(NameAsSortOrder::First) => index == 0,
        }
    }

    /// Whether the delimiter stands before the last of so many names, where a word does.
    pub(crate) fn delimits_last(&self, count: usize) -> bool
        ensures { result ≡ delimits_last (resolved_options_view self.now) count
            (unwrap_or self.now.delimiter_precedes_last DelimiterBehavior.Contextual) }
    {
        match self
            .delimiter_precedes_last
            .unwrap_or(DelimiterBehavior::Contextual)
        {
            DelimiterBehavior::Contextual => 3 <= count,
            DelimiterBehavior::Always => true,
            DelimiterBehavior::Never => false,
            DelimiterBehavior::AfterInvertedName => self.inverts(count.saturating_sub(2)),
        }
    }

    /// Whether the delimiter stands before the term for those left out, where so many are shown.
    pub(crate) fn delimits_et_al(&self, shown: usize) -> bool
        ensures { result ≡ delimits_et_al (resolved_options_view self.now) shown
            (unwrap_or self.now.delimiter_precedes_et_al DelimiterBehavior.Contextual) }
    {
        match self
            .delimiter_precedes_et_al
            .unwrap_or(DelimiterBehavior::Contextual)
        {
            DelimiterBehavior::Contextual => 2 <= shown,
            DelimiterBehavior::Always => true,
            DelimiterBehavior::Never => false,
            DelimiterBehavior::AfterInvertedName => 0 < shown && self.inverts(shown - 1),
        }
    }

    /// What of given names is cut to initials.
    pub(crate) fn initials_rule(&self) -> InitialsRule
        ensures { result ≡ initials_rule (resolved_options_view self.now) }
    {
        rule_by(
            self.initialize.unwrap_or(true),
            self.splits_initials.unwrap_or(false),
        )
    }

    /// Whether hyphens stay between initials.
    pub(crate) fn keeps_hyphens(&self) -> bool
        ensures { result ≡ unwrap_or self.now.initialize_with_hyphen true }
    {
        self.initialize_with_hyphen.unwrap_or(true)
    }

    /// Whether only the number of people is printed.
    pub(crate) fn is_count(&self) -> bool
        ensures { result ≡ is_count self.now.form }
    {
        match self.form {
            Some(NameForm::Count) => true,
            Some(NameForm::Long) | Some(NameForm::Short) | None => false,
        }
    }
}

/// The form of names, cut to initials or not.
fn form_by(form: NameForm, has_initials: bool) -> DisambiguatedNameForm
    ensures { result ≡ form_by form has_initials }
{
    match (form, has_initials) {
        (NameForm::Count, _) => DisambiguatedNameForm::Count,
        (NameForm::Short, true) => DisambiguatedNameForm::ShortInitialized,
        (NameForm::Short, false) => DisambiguatedNameForm::ShortFull,
        (NameForm::Long, true) => DisambiguatedNameForm::LongInitialized,
        (NameForm::Long, false) => DisambiguatedNameForm::LongFull,
    }
}

/// What of given names is cut: nothing where they are not to be, else each piece, or each run.
fn rule_by(initializes: bool, splits: bool) -> InitialsRule
    ensures { result ≡ rule_by initializes splits }
{
    match (initializes, splits) {
        (false, _) => InitialsRule::Kept,
        (true, true) => InitialsRule::Pieces,
        (true, false) => InitialsRule::Runs,
    }
}

/// How many of so many are shown: the first ones from a least number on, where they are fewer, else all.
fn shown_by(least: Option<u32>, first: Option<u32>, count: usize) -> usize
    ensures { result ≡ shown_by least first count }
{
    match (least, first) {
        (Some(least), Some(first)) => first_of(least as usize, first as usize, count),
        (Some(_), None) | (None, Some(_)) | (None, None) => count,
    }
}

/// The first number where the count is the least one or more and greater than the first, else the count.
fn first_of(least: usize, first: usize, count: usize) -> usize
    ensures { result ≡ (if nat_le least count && nat_lt first count then first else count) }
{
    if least <= count && first < count {
        first
    } else {
        count
    }
}
