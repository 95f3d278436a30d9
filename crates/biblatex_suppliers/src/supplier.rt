//! Where the values stand of fields that an entry inherits.

ghost use Rattle.std.specs.Prelude.{◌≡◌};
ghost use Rattle.biblatex_suppliers.specs.Suppliers.{supplier_named};

use crate::names::FieldName;
use biblatex_dates::Date;
use biblatex_inheritance::Dated;

/// Where the value of a field stands that an entry inherits.
#[derive(Clone, Copy)]
pub enum Supplier {
    /// In the entry of a number, under a name, as it is written there.
    Field(usize, FieldName),
    /// Nowhere: it is a date that an entry inherited.
    Date(Date),
}

/// A field that an entry inherits.
#[derive(Clone, Copy)]
pub struct Supplied {
    /// The entry's name for it.
    pub name: FieldName,
    /// Where its value stands.
    pub supplier: Supplier,
}

/// What an entry inherits, as far as others may ask for it.
#[derive(Drop)]
pub struct Supplies {
    /// The fields that its references offer.
    pub suppliers: Vec<Supplied>,
    /// The date that it inherits, and the fault of the first that it would inherit and that cannot be read.
    pub dated: Dated,
}

/// Where the first of the fields of that name stands.
pub(crate) fn supplier_named(suppliers: &[Supplied], name: &str) -> Option<Supplier>
    ensures { result ≡ supplier_named name.now suppliers.now }
{
    for supplied in suppliers {
        if name == supplied.name.text() {
            return Some(supplied.supplier);
        }
    }
    None
}
