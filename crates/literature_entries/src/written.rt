//! The texts of an entry's numbers and pages as they were written.

ghost use Rattle.std.specs.Prelude.{◌≡◌, OnOk, OnErr, string_bytes};
ghost use Rattle.literature_entries.specs.Names.{with_written, written};
ghost use Rattle.literature_entries.specs.Views.{fields_view, view_in, Sets};

use crate::entry::Entry;
use crate::serials::{number_under, put_number};
use std::alloc::AllocError;

/// The texts stand beside the values of the fields: neither changes the other.
impl Entry {
    /// The text of a number or of pages as it was written, by the name of its field as `has` takes it; none where it is not known.
    pub fn written(&self, field: &str) -> Option<&str>
        ensures { view_in (λ s. s) result ≡ written field.now (fields_view self.now) }
    {
        number_under(&self.details.written, field)
    }

    /// Sets the text of a number or of pages, by the name of its field.
    ///
    /// # Errors
    /// Out of memory, where the entry is as it was.
    pub fn set_written(&mut self, field: &str, text: String) -> Result<(), AllocError>
        ensures ok { OnOk result (Sets self.old
            (with_written field.now (string_bytes text) (fields_view self.old)) self.new) }
        ensures err { OnErr result (Sets self.old (fields_view self.old) self.new) }
    {
        put_number(&mut self.details.written, field, text)
    }
}
