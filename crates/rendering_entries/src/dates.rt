//! Dates of entries.

ghost use Rattle.std.specs.Prelude.{◌≡◌, ◌∷◌, [], option_and_then};
ghost use Rattle.std.specs.Cow.{cow_value};
ghost use Rattle.std.specs.Option.{option_map};
ghost use Rattle.literature_entries.specs.Views.{fields_view, view_in};
ghost use Rattle.rendering_entries.specs.Library.{date_answer};
ghost use Rattle.rendering_entries.specs.Views.{entry_ancestry};
ghost use Rattle.rendering_entries.specs.Works.{first_parent};

use crate::works::first_parent;
use literature_entries::Entry;
use literature_values::{Date, EntryType};
use rendering_taxonomy::DateVariable;
use std::borrow::Cow;

/// The date of a variable, borrowed.
pub(crate) fn date_answer(entry: &Entry, variable: DateVariable) -> Option<Cow<'_, Date>>
    ensures { option_map cow_value result ≡ date_answer (entry_ancestry entry.now) variable }
{
    Some(Cow::Borrowed(variable_date(entry, variable)?))
}

fn variable_date(entry: &Entry, variable: DateVariable) -> Option<&Date>
    ensures { view_in (λ d. d) result ≡ date_answer (entry_ancestry entry.now) variable }
{
    match variable {
        DateVariable::Accessed => visit_date(entry),
        DateVariable::AvailableDate => None,
        DateVariable::EventDate => date_of_parent(entry, EntryType::Conference),
        DateVariable::Issued => entry.date(),
        DateVariable::OriginalDate => date_of_parent(entry, EntryType::Original),
        DateVariable::Submitted => None,
    }
}

/// The day on which the address was last visited.
fn visit_date(entry: &Entry) -> Option<&Date>
    ensures { view_in (λ d. d) result
        ≡ option_and_then (λ u. u.visit_date) (fields_view entry.now).url }
{
    entry.url()?.visit_date.as_ref()
}

/// The date of the first parent of that type.
fn date_of_parent(entry: &Entry, entry_type: EntryType) -> Option<&Date>
    ensures { view_in (λ d. d) result ≡ option_and_then (λ fs. fs.date)
        (first_parent (entry_type ∷ []) (entry_ancestry entry.now)) }
{
    first_parent(entry, entry_type)?.date()
}
