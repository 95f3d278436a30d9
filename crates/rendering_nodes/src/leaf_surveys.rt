//! Surveys of nodes that contain no others.

ghost use Rattle.std.specs.Prelude.{◌≡◌, ◌&&◌, IfOk, List, false, not, true};
ghost use Rattle.std.specs.Option.{option_map_or};
ghost use Rattle.std.specs.Str.{chars};
ghost use Rattle.rendering_context.specs.Answering.{answer_to, date_answer, is_missing};
ghost use Rattle.rendering_context.specs.Views.{context_view};
ghost use Rattle.rendering_entries.specs.Answers.{Answers};
ghost use Rattle.rendering_leaves.specs.Views.{form_view};
ghost use Rattle.rendering_nodes.specs.Admission.{allows_date, allows_variable, has_people, leaf_survey, source_survey};
ghost use Rattle.rendering_nodes.specs.Views.{stage_view, survey_view};
ghost use Rattle.rendering_style.specs.Nodes as nodes;
ghost use Rattle.rendering_style.specs.Views.{date_node_view, label_look_view, names_node_view, number_node_view};

use crate::form_admission::{allows_variable, allows_words};
use crate::style_walk::Walk;
use crate::survey::Survey;
use rendering_context::Context;
use rendering_entries::EntryLike;
use rendering_leaves::SpecialForm;
use rendering_style::{Date, Label, Names, Number};
use rendering_taxonomy::{DateVariable, LongShortForm, NumberVariable, Term, TermForm, Variable};
use std::alloc::AllocError;
use texts::has_text;

/// How far a call has come.
#[derive(Clone, Copy)]
pub(crate) struct Stage<'t, 's, 'a> {
    pub(crate) walk: &'t Walk<'s, 'a>,
    /// What is printed of the layout.
    pub(crate) form: SpecialForm,
    /// Whether the first date was printed.
    pub(crate) has_date: bool,
    /// The variables that are not printed again.
    pub(crate) suppressed: &'t [Variable],
}

impl<'a> Stage<'_, '_, 'a> {
    /// Surveys a text node of a variable.
    pub(crate) fn survey_variable<E: EntryLike>(
        &self,
        entry: &'a E,
        variable: Variable,
        form: LongShortForm,
    ) -> Result<Survey, AllocError>
        ensures { IfOk result (λ v. survey_view v ≡ source_survey
            (stage_view (E.answers entry.now) self.now) (nodes.of_variable variable form)) }
    {
        let is_printed = self.is_printed(entry, variable, form)?;
        Ok(Survey::of_variable(is_printed))
    }

    /// Surveys a text node of a term.
    pub(crate) fn survey_term(&self, term: Term, form: TermForm, plural: bool) -> Survey
        ensures { (a : Answers) → survey_view result
            ≡ source_survey (stage_view a self.now) (nodes.of_term term form plural) }
    {
        let context = &self.walk.context;
        let locales = context.locales;
        let text = locales.term_text(term, form, plural);
        Survey::of_words(has_text(text) && allows_words(self.form))
    }

    /// Surveys a text node of a text of the style's own.
    pub(crate) fn survey_value(&self, value: &str) -> Survey
        ensures { (a : Answers) → survey_view result
            ≡ source_survey (stage_view a self.now) (nodes.of_value (chars value.now)) }
    {
        Survey::of_words(has_text(value) && allows_words(self.form))
    }

    pub(crate) fn survey_number<E: EntryLike>(
        &self,
        entry: &'a E,
        number: &Number,
    ) -> Result<Survey, AllocError>
        ensures { IfOk result (λ v. survey_view v
            ≡ leaf_survey (stage_view (E.answers entry.now) self.now)
            (nodes.number (number_node_view number.now))) }
    {
        self.survey_variable(entry, number.variable, LongShortForm::Long)
    }

    pub(crate) fn survey_label<E: EntryLike>(
        &self,
        entry: &'a E,
        label: &Label,
    ) -> Result<Survey, AllocError>
        ensures { IfOk result (λ v. survey_view v
            ≡ leaf_survey (stage_view (E.answers entry.now) self.now)
            (nodes.label label.now.variable (label_look_view label.now.label))) }
    {
        let is_printed = self.is_printed(entry, label.variable, LongShortForm::Long)?;
        Ok(Survey::of_words(is_printed))
    }

    pub(crate) fn survey_date<E: EntryLike>(&self, entry: &'a E, date: &Date) -> Survey
        ensures { survey_view result ≡ leaf_survey (stage_view (E.answers entry.now) self.now)
            (nodes.date (date_node_view date.now)) }
    {
        Survey::of_variable(self.has_day(entry, date.variable) && self.allows_date())
    }

    /// Whether one of the variables of the names has people.
    ///
    /// # Errors
    /// Out of memory.
    #[tactic(auto, using(crate::proofs::PeopleThere::people_there))]
    pub(crate) fn has_people<E: EntryLike>(
        &self,
        entry: &'a E,
        names: &Names,
    ) -> Result<bool, AllocError>
        ensures { IfOk result (λ b. b
            ≡ has_people (stage_view (E.answers entry.now) self.now) (names_node_view names.now)) }
    {
        let variables = names.variables.as_slice();
        self.walk
            .context
            .has_people(entry, self.suppressed, variables)
    }

    /// Whether the form allows the variable, and it has something to print.
    fn is_printed<E: EntryLike>(
        &self,
        entry: &'a E,
        variable: Variable,
        form: LongShortForm,
    ) -> Result<bool, AllocError>
        ensures { IfOk result (λ b. b
            ≡ (not (is_missing (answer_to (stage_view (E.answers entry.now) self.now).context
            self.now.suppressed.now form variable))
            && allows_variable (form_view self.now.form) variable)) }
    {
        if !allows_variable(self.form, variable) {
            return Ok(false);
        }
        let context = &self.walk.context;
        if lacks_locator(context, variable) {
            return Ok(false);
        }
        let answer = context.answer(entry, self.suppressed, form, variable)?;
        Ok(answer.is_some())
    }

    /// Whether the variable has a date to print.
    fn has_day<E: EntryLike>(&self, entry: &'a E, variable: DateVariable) -> bool
        ensures { result ≡ option_map_or (λ day. true)
            (date_answer (stage_view (E.answers entry.now) self.now).context
            self.now.suppressed.now variable) false }
    {
        self.walk
            .context
            .date(entry, self.suppressed, variable)
            .is_some()
    }

    /// Whether the form allows a date.
    fn allows_date(&self) -> bool
        ensures { (a : Answers) → result ≡ allows_date
            (stage_view a self.now).context self.now.has_date (stage_view a self.now).form }
    {
        match self.form {
            SpecialForm::Whole | SpecialForm::WithoutAuthor | SpecialForm::WithoutNames(_) => true,
            SpecialForm::AuthorOnly(_) | SpecialForm::AuthorsAlone(_) => false,
            SpecialForm::FirstDateOnly => !self.has_date,
            SpecialForm::SuffixOnly => !self.has_date && !self.walk.context.has_suffix_node,
        }
    }
}

/// Whether the variable is the locator of a cite that has none. Most cites have none, and many styles ask each of them for one.
#[tactic(auto, using(crate::proofs::LocatorsLacked::no_locator))]
fn lacks_locator(context: &Context<'_, '_>, variable: Variable) -> bool
    ensures { (a : Answers) (suppressed : List Variable) (form : LongShortForm) → result ≡ true
        → is_missing (answer_to (context_view a context.now) suppressed form variable) ≡ true }
{
    match variable {
        Variable::Number(NumberVariable::Locator) => context.properties.locator.is_none(),
        _ => false,
    }
}
