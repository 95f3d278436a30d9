//! Lists that grow by what may be absent.

ghost use Rattle.std.specs.Prelude.{◌≡◌, ◌++◌, OnOk};
ghost use Rattle.std.specs.Option.{option_to_list};

use std::alloc::AllocError;

/// Appends a value, if there is one.
pub(crate) fn push_if<T: Drop>(values: &mut Vec<T>, value: Option<T>) -> Result<(), AllocError>
    ensures { OnOk result (values.new.items ≡ values.old.items ++ option_to_list value) }
{
    match value {
        Some(value) => {
            values.push(value)?;
            Ok(())
        }
        None => Ok(()),
    }
}
