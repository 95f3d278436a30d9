//! The dates of an entry.

ghost use Rattle.std.specs.Prelude.{◌≡◌, ◌++◌, map, IfOk, OnOk, Some, codes, string_bytes};
ghost use Rattle.std.specs.Option.{option_map};
ghost use Rattle.laws.specs.Text.{characters};
ghost use Rattle.interop_values.specs.Values.{values};
ghost use Rattle.interop_values.specs.Readings.{date_if_read};
ghost use Rattle.interop.specs.DateFields.{field_name};
ghost use Rattle.interop.specs.Bridge.{faults_of, fault_in, unless_faulty};
ghost use Rattle.interop.specs.Views.{fault_view, dates_of, refusal_of};
ghost use Rattle.laws.specs.Results.{Gives};

use crate::error::{BridgeError, DateField, FieldFault};
use biblatex_dates::{Date as SourceDate, TypeErrorKind};
use biblatex_fields::Fields;
use interop_values::{date_under, library_date, own_date};
use literature_values::Date;
use std::alloc::{AllocError, Global};
use texts::owned;

/// The dates of an entry as a library keeps them.
#[derive(Clone, Copy)]
pub(crate) struct Dates {
    pub(crate) own: Option<Date>,
    pub(crate) event: Option<Date>,
    pub(crate) original: Option<Date>,
    pub(crate) visited: Option<Date>,
}

/// Reads the dates of an entry, or all their faults.
pub(crate) fn read_dates(alloc: Global, key: &str, fields: &Fields) -> Result<Dates, BridgeError>
    ensures { Gives refusal_of (λ d. d) result
        (unless_faulty (faults_of key.now (values fields.now)) (dates_of (values fields.now))) }
{
    let mut faults = Vec::new(alloc);
    let own = date_or_fault(&mut faults, key, DateField::Date, own_date(alloc, fields)?)?;
    let event = date_or_fault(
        &mut faults,
        key,
        DateField::EventDate,
        date_under(alloc, fields, "eventdate")?,
    )?;
    let original = date_or_fault(
        &mut faults,
        key,
        DateField::OrigDate,
        date_under(alloc, fields, "origdate")?,
    )?;
    let visited = date_or_fault(
        &mut faults,
        key,
        DateField::UrlDate,
        date_under(alloc, fields, "urldate")?,
    )?;
    if faults.is_empty() {
        return Ok(Dates {
            own,
            event,
            original,
            visited,
        });
    }
    Err(BridgeError::Fields(faults))
}

/// The date as a library keeps it; a fault goes after the others.
fn date_or_fault(
    faults: &mut Vec<FieldFault>,
    key: &str,
    field: DateField,
    read: Option<Result<SourceDate, TypeErrorKind>>,
) -> Result<Option<Date>, AllocError>
    ensures date { IfOk result (λ d. d ≡ date_if_read read) }
    ensures faults { OnOk result (map fault_view faults.new.items
        ≡ map fault_view faults.old.items ++ fault_in key.now (field_name field) read) }
{
    match read {
        None => Ok(None),
        Some(Ok(date)) => Ok(Some(library_date(date))),
        Some(Err(kind)) => {
            let key = owned(*faults.allocator(), key)?;
            faults.push(FieldFault { key, field, kind })?;
            Ok(None)
        }
    }
}
