//! Why an entry is not bridged.

ghost use Rattle.std.specs.Prelude.{◌≡◌, Some};
ghost use Rattle.interop.specs.DateFields.{field_name};
ghost use Rattle.interop.specs.declared.error.BridgeError.TheVariants.{Memory};

use biblatex_dates::TypeErrorKind;
use std::alloc::AllocError;
use std::fmt;
use thiserror::Error;

/// A field that is read as a date.
#[derive(Clone, Copy, Debug)]
pub enum DateField {
    /// When the work came out: `date`, or `year`, `month` and `day`.
    Date,
    /// When the conference was held.
    EventDate,
    /// When the original came out.
    OrigDate,
    /// When the address was last visited.
    UrlDate,
}

impl DateField {
    /// The name under which it is written: `date`, `eventdate`, `origdate` or `urldate`.
    pub fn name(self) -> &'static str
        ensures { result.now ≡ field_name self }
    {
        match self {
            DateField::Date => "date",
            DateField::EventDate => "eventdate",
            DateField::OrigDate => "origdate",
            DateField::UrlDate => "urldate",
        }
    }
}

/// Its name.
impl fmt::Display for DateField {
    ghost output = { λ field. Some (field_name field) };

    fn fmt<W: fmt::Write>(&self, f: &mut fmt::Formatter<W>) -> fmt::Result {
        f.write_str(self.name())
    }
}

/// A field that cannot be read.
#[derive(Debug, Drop)]
pub struct FieldFault {
    /// The key of the entry.
    pub key: String,
    /// Which field it is.
    pub field: DateField,
    /// Why it cannot be read.
    pub kind: TypeErrorKind,
}

/// Why entries are not bridged.
#[derive(Debug, Drop, Error)]
pub enum BridgeError {
    /// A request for memory was refused, or an address would take 4 GB.
    #[error("out of memory")]
    Memory,
    /// All fields that cannot be read, in the order of the file and of each entry `date`, `eventdate`, `origdate`, `urldate`.
    #[error("fields that cannot be read")]
    Fields(Vec<FieldFault>),
}

impl From<AllocError> for BridgeError {
    ghost from_gives = { λ _ e. e ≡ Memory };

    fn from(_error: AllocError) -> BridgeError {
        BridgeError::Memory
    }
}
