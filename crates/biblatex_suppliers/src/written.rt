//! Entries as they are written.

ghost use Rattle.std.specs.Prelude.{◌≡◌, ◌<◌, ◌==◌, Some, length, slice_get};
ghost use Rattle.std.specs.Option.{option_map, is_some};
ghost use Rattle.biblatex_fields.specs.Fields.{value_named};
ghost use Rattle.biblatex_fields.specs.Value.{field_value_view};
ghost use Rattle.biblatex_entries.specs.Roles.{role_of};
ghost use Rattle.biblatex_entries.specs.Entries.{source_view};
ghost use Rattle.biblatex_inheritance.specs.Resolved.{own};
ghost use Rattle.biblatex_suppliers.specs.FieldNames.{field_name};
ghost use Rattle.biblatex_suppliers.specs.Written.{beside, entry_with, shared_named, with_shared, written_view};
ghost use Rattle.biblatex_suppliers.specs.Suppliers.{own_of};

use crate::names::FieldName;
use crate::shared::{Shared, Written};
use biblatex_content::Chunks;
use biblatex_entries::{Entry, Role};

/// The member of that number, if there is one.
fn member_at(entries: &[Entry], number: usize) -> Option<&Entry>
    ensures { option_map (λ e. e.now) result ≡ slice_get entries.now number }
{
    entries.get(number)
}

/// The entry of that number, without the fields beside it, if there is one.
pub fn entry_at(entries: &Written, number: usize) -> Option<&Entry>
    ensures { option_map (λ e. e.now) result ≡ slice_get entries.now.entries.items number }
{
    member_at(entries.entries.as_slice(), number)
}

/// The same of an entry that there is.
pub(crate) fn entry_there(entries: &Written, number: usize) -> &Entry
    requires { number < length (written_view entries.now) }
    ensures { slice_get entries.now.entries.items number ≡ Some result.now }
{
    &entries.entries[number]
}

/// The fields beside the entry of that number.
pub(crate) fn beside(shared: &[Vec<Shared>], number: usize) -> &[Shared]
    ensures { result.now ≡ beside shared.now number }
{
    shared
        .get(number)
        .map(|fields| fields.as_slice())
        .unwrap_or_default()
}

/// Whether no field stands beside the entry of that number.
pub(crate) fn stands_alone(entries: &Written, number: usize) -> bool
    ensures { result ≡ (length (beside entries.now.shared.items number) == 0) }
{
    beside(entries.shared.as_slice(), number).is_empty()
}

/// What the type of the entry of that number means for the fields that it inherits and passes on.
pub(crate) fn role_at(entries: &Written, number: usize) -> Option<Role>
    ensures { result ≡ option_map (λ e. role_of e.entry_type)
        (slice_get (written_view entries.now) number) }
{
    match entry_at(entries, number) {
        Some(entry) => Some(entry.entry_type.role()),
        None => None,
    }
}

/// The value of that name among fields beside an entry.
fn shared_named<'e>(shared: &'e [Shared], name: &str) -> Option<&'e Chunks>
    ensures { option_map (λ v. field_value_view v.now.items) result
        ≡ shared_named name.now shared.now }
{
    for field in shared {
        if name == field.name.as_str() {
            return Some(field.value.as_ref());
        }
    }
    None
}

/// The value of a field of an entry with the fields beside it.
pub(crate) fn written_in<'e>(
    entry: &'e Entry,
    shared: &'e [Shared],
    name: &str,
) -> Option<&'e Chunks>
    ensures { option_map (λ v. field_value_view v.now.items) result
        ≡ value_named name.now (with_shared entry.now.fields shared.now) }
{
    match shared_named(shared, name) {
        Some(value) => Some(value),
        None => entry.get(name),
    }
}

/// The same, but none of `xdata`.
fn own_in<'e>(entry: &'e Entry, shared: &'e [Shared], name: &str) -> Option<&'e Chunks>
    ensures { option_map (λ v. field_value_view v.now.items) result
        ≡ own (entry_with (source_view entry.now) shared.now) name.now }
{
    if name == "xdata" {
        return None;
    }
    written_in(entry, shared, name)
}

/// The same of the entry of a number.
pub(crate) fn own_value(entries: &Written, number: usize, name: FieldName) -> Option<&Chunks>
    ensures { option_map (λ v. field_value_view v.now.items) result
        ≡ own_of (slice_get (written_view entries.now) number) (field_name name) }
{
    match entry_at(entries, number) {
        Some(entry) => own_in(
            entry,
            beside(entries.shared.as_slice(), number),
            name.text(),
        ),
        None => None,
    }
}

/// Whether the entry of a number has a field as it is written; none has `xdata`.
pub(crate) fn has_own(entries: &Written, number: usize, name: FieldName) -> bool
    ensures { result
        ≡ is_some (own_of (slice_get (written_view entries.now) number) (field_name name)) }
{
    own_value(entries, number, name).is_some()
}
