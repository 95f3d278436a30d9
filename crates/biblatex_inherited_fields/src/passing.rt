//! What a reference passes on.

ghost use Rattle.std.specs.Prelude.{◌≡◌, if◌then◌else◌, None, Some, IfOk, OnOk, ◌||◌};
ghost use Rattle.std.specs.Str.{bytes_eq};
ghost use Rattle.laws.specs.Borrowed.{borrowed};
ghost use Rattle.biblatex_fields.specs.Fields.{value_named};
ghost use Rattle.biblatex_fields.specs.Value.{field_value_view};
ghost use Rattle.biblatex_entries.specs.Roles.{role_of};
ghost use Rattle.biblatex_entries.specs.TypeNames.{type_name};
ghost use Rattle.biblatex_inherited_fields.specs.Table.{is_among, never, of_all, source_name};
ghost use Rattle.biblatex_inherited_fields.specs.Offered.{offered};
ghost use Rattle.biblatex_inherited_fields.specs.Views.{PassesOn, table_view};

use crate::table::{OF_ALL, OF_ARTICLES, OF_PARTS, is_never, source_name};
use biblatex_content::{Chunks, copied};
use biblatex_entries::{Entry, Role};
use biblatex_fields::Fields;
use std::alloc::{AllocError, Global};

/// Adds to the fields what they lack and the reference offers to an entry of the role.
pub fn pass_on(alloc: Global, to: Role, fields: &mut Fields, from: &Entry) -> Result<(), AllocError>
    ensures { OnOk result (PassesOn fields.old fields.new
        (offered to (role_of (type_name from.now.entry_type)) (table_view from.now.fields))) }
{
    match to {
        Role::XData => pass_on_all(alloc, fields, &from.fields),
        Role::Article => pass_on_both(alloc, to, fields, from, &OF_ARTICLES),
        Role::PartOfBook | Role::PartOfOther => pass_on_both(alloc, to, fields, from, &OF_PARTS),
        _ => pass_on_named(alloc, to, fields, from, &OF_ALL),
    }
}

/// Passes on the fields that every entry inherits, and those of these names.
fn pass_on_both(
    alloc: Global,
    to: Role,
    fields: &mut Fields,
    from: &Entry,
    names: &[&str],
) -> Result<(), AllocError>
    ensures { OnOk result (PassesOn fields.old fields.new (λ name. if is_among of_all name
        || is_among (borrowed names.now) name then value_named
        (source_name to (role_of (type_name from.now.entry_type)) name) from.now.fields
        else None)) }
{
    pass_on_named(alloc, to, fields, from, &OF_ALL)?;
    pass_on_named(alloc, to, fields, from, names)
}

/// Passes on the fields of these names.
fn pass_on_named(
    alloc: Global,
    to: Role,
    fields: &mut Fields,
    from: &Entry,
    names: &[&str],
) -> Result<(), AllocError>
    ensures { OnOk result (PassesOn fields.old fields.new (λ name.
        if is_among (borrowed names.now) name then value_named
        (source_name to (role_of (type_name from.now.entry_type)) name) from.now.fields
        else None)) }
{
    for name in names {
        pass_on_one(alloc, to, fields, from, name)?;
    }
    Ok(())
}

/// Passes on the field of the name.
fn pass_on_one(
    alloc: Global,
    to: Role,
    fields: &mut Fields,
    from: &Entry,
    wanted: &str,
) -> Result<(), AllocError>
    ensures { OnOk result (PassesOn fields.old fields.new (λ name. if bytes_eq name wanted.now
        then value_named (source_name to (role_of (type_name from.now.entry_type)) wanted.now)
        from.now.fields else None)) }
{
    match from.get(source_name(to, from.entry_type.role(), wanted)) {
        Some(value) => put_lacking(alloc, fields, wanted, value),
        None => Ok(()),
    }
}

/// Passes on all fields but those that are never inherited.
fn pass_on_all(alloc: Global, fields: &mut Fields, from: &Fields) -> Result<(), AllocError>
    ensures { OnOk result (PassesOn fields.old fields.new (λ name. if is_among never name
        then None else value_named name from.now)) }
{
    for (name, value) in from.iter() {
        if !is_never(name.as_str()) {
            put_lacking(alloc, fields, name.as_str(), value)?;
        }
    }
    Ok(())
}

/// Adds a field, unless there is one of its name.
pub fn put_lacking(
    alloc: Global,
    fields: &mut Fields,
    wanted: &str,
    value: &Chunks,
) -> Result<(), AllocError>
    ensures { OnOk result (PassesOn fields.old fields.new (λ name. if bytes_eq name wanted.now
        then Some (field_value_view value.now.items) else None)) }
{
    if fields.get(wanted).is_some() {
        return Ok(());
    }
    fields.insert(
        String::from_str(alloc, wanted)?,
        copied_value(alloc, value)?,
    )
}

/// The same value, with the same spans.
pub fn copied_value(alloc: Global, value: &Chunks) -> Result<Chunks, AllocError>
    ensures { IfOk result (λ v. field_value_view v.items ≡ field_value_view value.now.items) }
{
    let copies = copied(alloc, value.as_slice())?;
    Ok(copies)
}
