//! What a call prints from.

ghost use Rattle.std.specs.Prelude.{◌≡◌, ◌++◌, ◌∷◌, [], filter, not, IfOk, OnOk};
ghost use Rattle.std.specs.Cow.{cow_value};
ghost use Rattle.std.specs.Option.{option_map};
ghost use Rattle.laws.specs.Text.{characters};
ghost use Rattle.rendering_context.specs.Answering as answering;
ghost use Rattle.rendering_entries.specs.Answers.{Answers};
ghost use Rattle.rendering_context.specs.Views.{context_view, answer_if};
ghost use Rattle.rendering_people.specs.Views.{all_lent_answered_view, lent_people_view};

use crate::answer::{
    Answer, address_of, as_text, number_or_text, pages_of, text_of, written_number, year_suffix,
};
use crate::cite::CiteProperties;
use crate::variables::{exchanged_for, is_among};
use literature_values::{Date, Person};
use rendering_entries::EntryLike;
use rendering_locale::AskedLocales;
use rendering_people::Answered;
use rendering_taxonomy::{
    DateVariable, LongShortForm, NameVariable, NumberVariable, PageRangeFormat, StandardVariable,
    Variable,
};
use std::alloc::{AllocError, Global};
use std::borrow::Cow;

/// What a call prints from beside an entry. Calls take the entry beside it; nothing of the entry but its answers is looked at.
#[derive(Clone, Copy)]
pub struct Context<'s, 'a> {
    pub alloc: Global,
    pub properties: &'s CiteProperties<'a>,
    /// The locales that are asked for words.
    pub locales: &'s AskedLocales<'a>,
    /// The close quotes inside which punctuation goes, in the order in which they are tried.
    pub quotes: &'s [&'s str],
    /// The year suffix of the cite; empty where there is none.
    pub year_suffix: &'a str,
    /// Whether an item of a bibliography is printed.
    pub is_bibliography: bool,
    /// Whether a layout of the style prints the year suffix by itself.
    pub has_suffix_node: bool,
    /// How the style shortens ranges of pages.
    pub page_ranges: Option<PageRangeFormat>,
    /// Whether the language of the call is English.
    pub in_english: bool,
    /// Whether numbers, ranges and locators are printed as in published styles.
    pub is_published: bool,
}

impl<'s, 'a> Context<'s, 'a> {
    /// What a number node of the variable prints, where it prints anything. A variable that is not printed again answers nothing.
    ///
    /// # Errors
    /// Out of memory.
    pub fn answer<E: EntryLike>(
        &self,
        entry: &'a E,
        suppressed: &[Variable],
        form: LongShortForm,
        variable: Variable,
    ) -> Result<Option<Answer<'a>>, AllocError>
        ensures { IfOk result (λ a. answer_if a ≡ answering.answer_to
            (context_view (E.answers entry.now) self.now) suppressed.now form variable) }
    {
        if is_among(suppressed, variable) {
            return Ok(None);
        }
        self.answer_of(entry, form, self.asked_for(variable))
    }

    /// What a text node of the variable prints: in a published style numbers as they were written.
    ///
    /// # Errors
    /// Out of memory.
    pub fn text_answer<E: EntryLike>(
        &self,
        entry: &'a E,
        suppressed: &[Variable],
        form: LongShortForm,
        variable: Variable,
    ) -> Result<Option<Answer<'a>>, AllocError>
        ensures { IfOk result (λ a. answer_if a ≡ answering.text_answer_to
            (context_view (E.answers entry.now) self.now) suppressed.now form variable) }
    {
        let text = self.text_written(entry, self.asked_for(variable))?;
        let answer = self.answer(entry, suppressed, form, variable)?;
        Ok(as_text(text, answer))
    }

    /// The text of a number or of pages of the entry, as it was written; a cite's numbers are not the entry's.
    fn text_written<E: EntryLike>(
        &self,
        entry: &E,
        variable: Variable,
    ) -> Result<Option<String>, AllocError>
        ensures { IfOk result (λ t. option_map characters t ≡ answering.text_written
            (context_view (E.answers entry.now) self.now) variable) }
    {
        match variable {
            Variable::Number(number) => self.number_written(entry, number),
            Variable::Page => self.written(entry, Variable::Page),
            Variable::Standard(_) | Variable::Name(_) | Variable::Date(_) => Ok(None),
        }
    }

    /// The text of a number of the entry, as it was written; a cite's numbers are not the entry's.
    fn number_written<E: EntryLike>(
        &self,
        entry: &E,
        number: NumberVariable,
    ) -> Result<Option<String>, AllocError>
        ensures { IfOk result (λ t. option_map characters t ≡ answering.text_written
            (context_view (E.answers entry.now) self.now) (Variable.Number number)) }
    {
        match number {
            NumberVariable::CitationNumber
            | NumberVariable::FirstReferenceNoteNumber
            | NumberVariable::Locator => Ok(None),
            _ => self.written(entry, Variable::Number(number)),
        }
    }

    /// The text of a number or of pages of the entry as it was written, where the style is a published one.
    fn written<E: EntryLike>(
        &self,
        entry: &E,
        variable: Variable,
    ) -> Result<Option<String>, AllocError>
        ensures { IfOk result (λ t. option_map characters t ≡ answering.written_in
            (context_view (E.answers entry.now) self.now) variable) }
    {
        if !self.is_published {
            return Ok(None);
        }
        entry.resolve_written(self.alloc, variable)
    }

    /// The variable that is asked: in a bibliography a label stands for a number or the other way round, where cites printed
    /// only one of them.
    pub fn asked_for(&self, variable: Variable) -> Variable
        ensures { (a : Answers) → result ≡ answering.asked_for (context_view a self.now) variable }
    {
        if self.is_bibliography {
            exchanged_for(self.properties.identifier_usage, variable)
        } else {
            variable
        }
    }

    /// The date that a date node of the variable prints.
    pub fn date<E: EntryLike>(
        &self,
        entry: &'a E,
        suppressed: &[Variable],
        variable: DateVariable,
    ) -> Option<Cow<'a, Date>>
        ensures { option_map cow_value result ≡ answering.date_answer
            (context_view (E.answers entry.now) self.now) suppressed.now variable }
    {
        if is_among(suppressed, Variable::Date(variable)) {
            return None;
        }
        entry.resolve_date_variable(variable)
    }

    /// The people of each of the variables that has some.
    ///
    /// # Errors
    /// Out of memory.
    pub fn people<E: EntryLike>(
        &self,
        entry: &'a E,
        suppressed: &[Variable],
        variables: &[NameVariable],
    ) -> Result<Vec<Answered<'a>>, AllocError>
        ensures { IfOk result (λ v. all_lent_answered_view v.items ≡ answering.all_people
            (context_view (E.answers entry.now) self.now) suppressed.now variables.now) }
    {
        let mut answered = Vec::new(self.alloc);
        for variable in variables {
            self.push_people(entry, suppressed, *variable, &mut answered)?;
        }
        Ok(answered)
    }

    /// Whether one of the variables has people.
    ///
    /// # Errors
    /// Out of memory.
    pub fn has_people<E: EntryLike>(
        &self,
        entry: &'a E,
        suppressed: &[Variable],
        variables: &[NameVariable],
    ) -> Result<bool, AllocError>
        ensures { IfOk result (λ b. b ≡ answering.has_people
            (context_view (E.answers entry.now) self.now) suppressed.now variables.now) }
    {
        for variable in variables {
            if self.is_answered_by_people(entry, suppressed, *variable)? {
                return Ok(true);
            }
        }
        Ok(false)
    }

    fn is_answered_by_people<E: EntryLike>(
        &self,
        entry: &'a E,
        suppressed: &[Variable],
        variable: NameVariable,
    ) -> Result<bool, AllocError>
        ensures { IfOk result (λ b. b ≡ answering.with_people (answering.people_answer (context_view (E.answers entry.now) self.now) suppressed.now variable, variable)) }
    {
        if is_among(suppressed, Variable::Name(variable)) {
            return Ok(false);
        }
        has_people(self.alloc, entry, variable)
    }

    /// Whether the answer to the variable is more than one: numbers and pages by their value, a locator's text by its signs, and in a
    /// published style other texts too.
    ///
    /// # Errors
    /// Out of memory.
    pub fn is_plural<E: EntryLike>(
        &self,
        entry: &'a E,
        variable: Variable,
    ) -> Result<bool, AllocError>
        ensures { IfOk result (λ b. b
            ≡ answering.is_plural_variable (context_view (E.answers entry.now) self.now) variable) }
    {
        match variable {
            Variable::Number(NumberVariable::Locator) => Ok(self.properties.has_plural_locator()),
            _ => self.has_plural_answer(entry, variable),
        }
    }

    /// Whether anything is answered to the variable, be it printed again or not.
    ///
    /// # Errors
    /// Out of memory.
    pub fn has_answer<E: EntryLike>(
        &self,
        entry: &'a E,
        variable: Variable,
    ) -> Result<bool, AllocError>
        ensures { IfOk result (λ b. b
            ≡ answering.has_answer (context_view (E.answers entry.now) self.now) variable) }
    {
        match variable {
            Variable::Name(variable) => has_people(self.alloc, entry, variable),
            Variable::Date(variable) => Ok(entry.resolve_date_variable(variable).is_some()),
            _ => self.is_answered(entry, self.asked_for(variable)),
        }
    }

    /// Whether texts of the entry are English: as the entry says, or else by the language of the call.
    pub fn is_english<E: EntryLike>(&self, entry: &E) -> bool
        ensures { result ≡ answering.is_english (context_view (E.answers entry.now) self.now) }
    {
        entry.is_english().unwrap_or(self.in_english)
    }

    /// Whether the answer to the variable is a number or pages, or in a published style a text that counts as numbers; of a locator
    /// whether its text spells a number.
    pub(crate) fn is_numeric<E: EntryLike>(
        &self,
        entry: &'a E,
        variable: Variable,
    ) -> Result<bool, AllocError>
        ensures { IfOk result (λ b. b ≡ answering.is_numeric_variable
            (context_view (E.answers entry.now) self.now) variable) }
    {
        match variable {
            Variable::Number(NumberVariable::Locator) => self
                .properties
                .has_numeric_locator(self.alloc),
            _ => self.has_numeric_answer(entry, variable),
        }
    }

    /// What is answered to the variable, be it printed again or not.
    fn answer_of<E: EntryLike>(
        &self,
        entry: &'a E,
        form: LongShortForm,
        variable: Variable,
    ) -> Result<Option<Answer<'a>>, AllocError>
        ensures { IfOk result (λ a. answer_if a
            ≡ answering.answer_of (context_view (E.answers entry.now) self.now) form variable) }
    {
        match variable {
            Variable::Standard(variable) => self.standard(entry, form, variable),
            Variable::Number(variable) => self.number(entry, variable),
            Variable::Page => pages_of(self.alloc, entry),
            Variable::Name(_) | Variable::Date(_) => Ok(None),
        }
    }

    /// What is answered to a variable that is a text; two of them are addresses.
    fn standard<E: EntryLike>(
        &self,
        entry: &'a E,
        form: LongShortForm,
        variable: StandardVariable,
    ) -> Result<Option<Answer<'a>>, AllocError>
        ensures { IfOk result (λ a. answer_if a ≡ answering.standard_answer
            (context_view (E.answers entry.now) self.now) form variable) }
    {
        match variable {
            StandardVariable::Doi => address_of(
                self.alloc,
                "https://doi.org/",
                entry,
                form,
                variable,
            ),
            StandardVariable::Url => address_of(self.alloc, "", entry, form, variable),
            StandardVariable::YearSuffix => Ok(year_suffix(self.year_suffix)),
            _ => text_of(self.alloc, entry, form, variable),
        }
    }

    /// What the cite answers, and else the entry, to a variable that is a number.
    fn number<E: EntryLike>(
        &self,
        entry: &'a E,
        variable: NumberVariable,
    ) -> Result<Option<Answer<'a>>, AllocError>
        ensures { IfOk result (λ a. answer_if a
            ≡ answering.number_answer (context_view (E.answers entry.now) self.now) variable) }
    {
        match variable {
            NumberVariable::CitationNumber => Ok(Some(self.properties.number_answer(self.alloc)?)),
            NumberVariable::FirstReferenceNoteNumber => self
                .properties
                .first_note_answer(self.alloc),
            NumberVariable::Locator => self
                .properties
                .locator_answer(self.alloc, self.page_ranges, self.is_published),
            _ => self.entry_number(entry, variable),
        }
    }

    /// A number of the entry, or in a published style its text where there is no number.
    fn entry_number<E: EntryLike>(
        &self,
        entry: &'a E,
        variable: NumberVariable,
    ) -> Result<Option<Answer<'a>>, AllocError>
        ensures { IfOk result (λ a. answer_if a ≡ answering.of_entry
            ((E.answers entry.now).number variable) (answering.written_in
            (context_view (E.answers entry.now) self.now) (Variable.Number variable))) }
    {
        match entry.resolve_number_variable(self.alloc, variable)? {
            Some(number) => Ok(number_or_text(number)),
            None => Ok(written_number(self.written(entry, Variable::Number(variable))?)),
        }
    }

    /// Whether what is answered to the variable is more than one.
    fn has_plural_answer<E: EntryLike>(
        &self,
        entry: &'a E,
        variable: Variable,
    ) -> Result<bool, AllocError>
        ensures { IfOk result (λ b. b ≡ answering.is_plural_answer self.now.is_published
            (answering.answer_of (context_view (E.answers entry.now) self.now)
            LongShortForm.Long variable)) }
    {
        match self.answer_of(entry, LongShortForm::Long, variable)? {
            Some(answer) => Ok(answer.is_plural(self.is_published)),
            None => Ok(false),
        }
    }

    /// Whether what is answered to the variable is a number or pages, or in a published style a text that counts as numbers.
    fn has_numeric_answer<E: EntryLike>(
        &self,
        entry: &'a E,
        variable: Variable,
    ) -> Result<bool, AllocError>
        ensures { IfOk result (λ b. b ≡ answering.is_numeric_answer self.now.is_published
            (answering.answer_of (context_view (E.answers entry.now) self.now)
            LongShortForm.Long variable)) }
    {
        match self.answer_of(entry, LongShortForm::Long, variable)? {
            Some(answer) => Ok(answer.is_numeric(self.is_published)),
            None => Ok(false),
        }
    }

    /// Whether anything is answered to the variable that is asked.
    fn is_answered<E: EntryLike>(
        &self,
        entry: &'a E,
        variable: Variable,
    ) -> Result<bool, AllocError>
        ensures { IfOk result (λ b. b ≡ not (answering.is_missing (answering.answer_of
            (context_view (E.answers entry.now) self.now) LongShortForm.Long variable))) }
    {
        match self.answer_of(entry, LongShortForm::Long, variable)? {
            Some(_) => Ok(true),
            None => Ok(false),
        }
    }

    fn push_people<E: EntryLike>(
        &self,
        entry: &'a E,
        suppressed: &[Variable],
        variable: NameVariable,
        answered: &mut Vec<Answered<'a>>,
    ) -> Result<(), AllocError>
        ensures { OnOk result (all_lent_answered_view answered.new.items
            ≡ all_lent_answered_view answered.old.items ++ answering.all_people
            (context_view (E.answers entry.now) self.now) suppressed.now (variable ∷ [])) }
    {
        if is_among(suppressed, Variable::Name(variable)) {
            return Ok(());
        }
        let people = entry.resolve_name_variable(self.alloc, variable)?;
        push_answered(answered, people, variable)
    }
}

fn push_answered<'a>(
    answered: &mut Vec<Answered<'a>>,
    people: Vec<Cow<'a, Person>>,
    variable: NameVariable,
) -> Result<(), AllocError>
    ensures { OnOk result (all_lent_answered_view answered.new.items
        ≡ all_lent_answered_view answered.old.items
        ++ filter answering.with_people ((lent_people_view people.entry.items, variable) ∷ [])) }
{
    if !people.is_empty() {
        answered.push(Answered { people, variable })?;
    }
    Ok(())
}

fn has_people<E: EntryLike>(
    alloc: Global,
    entry: &E,
    variable: NameVariable,
) -> Result<bool, AllocError>
    ensures { IfOk result (λ b. b
        ≡ answering.with_people ((E.answers entry.now).people variable, variable)) }
{
    let people = entry.resolve_name_variable(alloc, variable)?;
    Ok(!people.is_empty())
}
