//! What references pass on: of each field that an entry inherits where it stands.

ghost use Rattle.std.specs.Prelude.{◌≡◌, ◌||◌, List, ℕ, map, IfOk, OnOk, None, Some, true, slice_get, if◌then◌else◌};
ghost use Rattle.std.specs.Str.{bytes_eq};
ghost use Rattle.biblatex_entries.specs.Entries.{Source};
ghost use Rattle.biblatex_fields.specs.Fields.{value_named};
ghost use Rattle.biblatex_inherited_fields.specs.Offered.{offered};
ghost use Rattle.biblatex_inherited_fields.specs.Table.{is_among, of_all, of_articles, of_parts, source_name};
ghost use Rattle.biblatex_inherited_fields.specs.Views.{PassesOn};
ghost use Rattle.biblatex_inheritance.specs.Resolved.{first_offer, offer_if, offers};
ghost use Rattle.biblatex_suppliers.specs.Asked.{is_asked, of_dates};
ghost use Rattle.biblatex_suppliers.specs.FieldNames.{field_name};
ghost use Rattle.biblatex_suppliers.specs.Suppliers.{supplied, supplied_fields, seen, PassesOnAsked};
ghost use Rattle.biblatex_suppliers.specs.Written.{written_view};

use crate::asked::{further, of_all, of_articles, of_dates, of_parts, source_of};
use crate::names::FieldName;
use crate::seeing::seen_supplier;
use crate::shared::Written;
use crate::supplier::{Supplied, Supplier, Supplies, supplier_named};
use crate::written::role_at;
use biblatex_entries::Role;
use std::alloc::{AllocError, Global};

/// The fields that an entry of the role inherits and for which it may be asked, each from the first of the references that offers it.
pub(crate) fn suppliers_for(
    alloc: Global,
    role: Role,
    entries: &Written,
    supplies: &[Supplies],
    references: &[usize],
) -> Result<Vec<Supplied>, AllocError>
    ensures { IfOk result (λ v. (name : List ℕ) → is_asked role name ≡ true
        → value_named name (supplied_fields (written_view entries.now) v.items)
        ≡ first_offer role (offers (written_view entries.now)
        (seen (written_view entries.now) supplies.now) references.now) name) }
{
    let mut suppliers = Vec::new(alloc);
    for &reference in references {
        push_from(role, entries, supplies, reference, &mut suppliers)?;
    }
    Ok(suppliers)
}

/// Adds the fields that are lacking and that a reference offers to an entry of the role, where there is such an entry.
fn push_from(
    role: Role,
    entries: &Written,
    supplies: &[Supplies],
    reference: usize,
    suppliers: &mut Vec<Supplied>,
) -> Result<(), AllocError>
    ensures { OnOk result (PassesOnAsked role
        (supplied_fields (written_view entries.now) suppliers.old.items)
        (supplied_fields (written_view entries.now) suppliers.new.items) (first_offer role
        (offer_if reference (slice_get (written_view entries.now) reference)
        (seen (written_view entries.now) supplies.now reference)))) }
{
    match role_at(entries, reference) {
        Some(from) => push_offered(role, from, entries, supplies, reference, suppliers),
        None => Ok(()),
    }
}

/// The same of a reference that there is, by its role.
fn push_offered(
    to: Role,
    from: Role,
    entries: &Written,
    supplies: &[Supplies],
    reference: usize,
    suppliers: &mut Vec<Supplied>,
) -> Result<(), AllocError>
    ensures { OnOk result (PassesOnAsked to
        (supplied_fields (written_view entries.now) suppliers.old.items)
        (supplied_fields (written_view entries.now) suppliers.new.items)
        (offered to from (seen (written_view entries.now) supplies.now reference))) }
{
    match to {
        Role::XData => push_all(suppliers, to, from, entries, supplies, reference),
        _ => push_both(
            further(to),
            to,
            from,
            entries,
            supplies,
            reference,
            suppliers,
        ),
    }
}

/// Adds all fields for which an xdata entry may be asked.
fn push_all(
    suppliers: &mut Vec<Supplied>,
    to: Role,
    from: Role,
    entries: &Written,
    supplies: &[Supplies],
    reference: usize,
) -> Result<(), AllocError>
    ensures { OnOk result (PassesOn
        (supplied_fields (written_view entries.now) suppliers.old.items)
        (supplied_fields (written_view entries.now) suppliers.new.items)
        (λ name. if (is_among of_all name || is_among of_articles name)
        || (is_among of_parts name || is_among of_dates name)
        then seen (written_view entries.now) supplies.now reference (source_name to from name)
        else None)) }
{
    push_both(
        of_articles(),
        to,
        from,
        entries,
        supplies,
        reference,
        suppliers,
    )?;
    push_named(
        to,
        from,
        entries,
        supplies,
        reference,
        of_parts(),
        suppliers,
    )?;
    push_named(
        to,
        from,
        entries,
        supplies,
        reference,
        of_dates(),
        suppliers,
    )
}

/// Adds the fields that every entry inherits, and those of these names.
fn push_both(
    names: &[FieldName],
    to: Role,
    from: Role,
    entries: &Written,
    supplies: &[Supplies],
    reference: usize,
    suppliers: &mut Vec<Supplied>,
) -> Result<(), AllocError>
    ensures { OnOk result (PassesOn
        (supplied_fields (written_view entries.now) suppliers.old.items)
        (supplied_fields (written_view entries.now) suppliers.new.items)
        (λ name. if is_among of_all name || is_among (map field_name names.now) name
        then seen (written_view entries.now) supplies.now reference (source_name to from name)
        else None)) }
{
    push_named(to, from, entries, supplies, reference, of_all(), suppliers)?;
    push_named(to, from, entries, supplies, reference, names, suppliers)
}

/// Adds the fields of these names.
fn push_named(
    to: Role,
    from: Role,
    entries: &Written,
    supplies: &[Supplies],
    reference: usize,
    names: &[FieldName],
    suppliers: &mut Vec<Supplied>,
) -> Result<(), AllocError>
    ensures { OnOk result (PassesOn
        (supplied_fields (written_view entries.now) suppliers.old.items)
        (supplied_fields (written_view entries.now) suppliers.new.items)
        (λ name. if is_among (map field_name names.now) name
        then seen (written_view entries.now) supplies.now reference (source_name to from name)
        else None)) }
{
    for name in names {
        push_seen(to, from, entries, supplies, reference, *name, suppliers)?;
    }
    Ok(())
}

/// Adds the field of the name.
fn push_seen(
    to: Role,
    from: Role,
    entries: &Written,
    supplies: &[Supplies],
    reference: usize,
    wanted: FieldName,
    suppliers: &mut Vec<Supplied>,
) -> Result<(), AllocError>
    ensures { OnOk result (PassesOn
        (supplied_fields (written_view entries.now) suppliers.old.items)
        (supplied_fields (written_view entries.now) suppliers.new.items)
        (λ name. if bytes_eq name (field_name wanted)
        then seen (written_view entries.now) supplies.now reference
        (source_name to from (field_name wanted)) else None)) }
{
    match seen_supplier(entries, supplies, reference, source_of(to, from, wanted)) {
        Some(supplier) => push_lacking(wanted, supplier, suppliers),
        None => Ok(()),
    }
}

/// Adds a field, unless there is one of its name.
fn push_lacking(
    wanted: FieldName,
    supplier: Supplier,
    suppliers: &mut Vec<Supplied>,
) -> Result<(), AllocError>
    ensures { OnOk result ((es : List Source) → PassesOn
        (supplied_fields es suppliers.old.items) (supplied_fields es suppliers.new.items)
        (λ name. if bytes_eq name (field_name wanted) then Some (supplied es supplier)
        else None)) }
{
    if supplier_named(suppliers.as_slice(), wanted.text()).is_some() {
        return Ok(());
    }
    suppliers.push(Supplied {
        name: wanted,
        supplier,
    })?;
    Ok(())
}
