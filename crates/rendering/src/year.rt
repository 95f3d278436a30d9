//! The year of an entry alone.

ghost use Rattle.std.specs.Prelude.{◌≡◌, codes, filter_map, false, IfOk, OnOk, OnSome};
ghost use Rattle.std.specs.Cow.{cow_value};
ghost use Rattle.std.specs.Option.{option_map, unwrap_or};
ghost use Rattle.laws.specs.Text.{characters, spelled};
ghost use Rattle.rendering_dates.specs.Dates.{years_text};
ghost use Rattle.rendering_locale.specs.Lookup.{term};
ghost use Rattle.rendering.specs.Purposes.{first_dated, year_dates, append_year};
ghost use Rattle.rendering.specs.Views.{context_in};

use crate::call::Call;
use crate::default_texts::no_date;
use literature_values::Date;
use rendering_dates::push_years;
use rendering_entries::EntryLike;
use rendering_leaves::State;
use rendering_locale::AskedLocales;
use rendering_page::plain_manner;
use rendering_taxonomy::{DateVariable, OtherTerm, Term, TermForm};
use std::alloc::{AllocError, Global};
use std::borrow::Cow;
use texts::empty_text;

impl<'s, 'a> Call<'s, 'a> {
    /// Appends the years of the first date that there is, else the term for none, in the default formatting.
    pub(crate) fn push_year<E: EntryLike>(
        &self,
        entry: &'a E,
        state: &mut State<'a>,
    ) -> Result<(), AllocError>
        ensures { OnOk result (state.new
            ≡ append_year (context_in (E.answers entry.entry.now) self.now) state.old) }
    {
        let context = self.walk.context;
        match first_date(entry) {
            Some(date) => {
                let years = years_of(context.alloc, context.locales, &date)?;
                state.page.push_made(context.quotes, plain_manner(), years)
            }
            None => {
                let text = no_year(context.locales);
                state.page.push_text(context.quotes, plain_manner(), text)
            }
        }
    }
}

/// The first of the dates that are asked for a year.
fn first_date<E: EntryLike>(entry: &E) -> Option<Cow<'_, Date>>
    ensures { option_map cow_value result
        ≡ first_dated (filter_map (E.answers entry.now).date year_dates) }
{
    let variables = &[
        DateVariable::Issued,
        DateVariable::EventDate,
        DateVariable::Submitted,
        DateVariable::OriginalDate,
    ];
    for variable in variables {
        let date = entry.resolve_date_variable(*variable);
        if date.is_some() {
            return date;
        }
    }
    None
}

fn years_of(alloc: Global, locales: &AskedLocales, date: &Date) -> Result<String, AllocError>
    ensures { IfOk result (λ s. characters s ≡ years_text locales.now date.now) }
{
    let mut years = empty_text(alloc);
    push_years(&mut years, locales, date)?;
    Ok(years)
}

/// What stands for a year where there is none.
fn no_year<'a>(locales: &AskedLocales<'a>) -> &'a str
    ensures { spelled result ≡ unwrap_or
        (term locales.now (Term.Other OtherTerm.NoDate) TermForm.Long false) (codes "n.d.") }
{
    match locales.term(Term::Other(OtherTerm::NoDate), TermForm::Long, false) {
        Some(text) => text,
        None => no_date(),
    }
}
