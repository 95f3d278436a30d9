//! How entries are shown.

ghost use Rattle.std.specs.Prelude.{◌≡◌, ◌++◌, IfOk, OnOk, string_bytes, flat_map};
ghost use Rattle.biblatex.specs.Value.{field_value_view};
ghost use Rattle.biblatex.specs.Fields.{AreInOrder};
ghost use Rattle.biblatex.specs.Entries.{source_view};
ghost use Rattle.bib_show.specs.Shown.{shown, shown_entry, shown_field, AreAllInOrder};

use crate::member::push_value;
use biblatex::{Bibliography, Chunks, Entry, Fields};
use std::alloc::{AllocError, Global};

/// The entries in their order: for each a line `@TYPE KEY`, and a line `  NAME = VALUE` for each of its fields, in the order of
/// their names' bytes. Verbatim text stands in braces, math between dollar signs; a backslash, a dollar sign, a brace or a
/// control character is shown as `\u{..}` with its number.
pub fn show(alloc: Global, bibliography: &Bibliography) -> Result<String, AllocError>
    ensures shown { IfOk result (λ s. string_bytes s ≡ shown bibliography.now.entries) }
    ensures order { OnOk result (AreAllInOrder bibliography.now.entries) }
{
    let mut out = String::new(alloc);
    let mut rest = bibliography.entries();
    while let Some((entry, more)) = rest.split_first() {
        push_entry(&mut out, entry)?;
        rest = more;
    }
    Ok(out)
}

/// Shows one more entry.
fn push_entry(out: &mut String, entry: &Entry) -> Result<(), AllocError>
    ensures shown { OnOk result (string_bytes out.new
        ≡ string_bytes out.old ++ shown_entry (source_view entry.now)) }
    ensures order { OnOk result (AreInOrder entry.now.fields) }
{
    out.push('@')?;
    out.push_str(entry.entry_type.name())?;
    out.push(' ')?;
    out.push_str(entry.key.as_str())?;
    out.push('\n')?;
    push_fields(out, &entry.fields)
}

/// Shows the fields of an entry.
fn push_fields(out: &mut String, fields: &Fields) -> Result<(), AllocError>
    ensures shown { OnOk result (string_bytes out.new
        ≡ string_bytes out.old ++ flat_map shown_field fields.now) }
    ensures order { OnOk result (AreInOrder fields.now) }
{
    for (name, value) in fields.iter() {
        push_field(out, name.as_str(), value)?;
    }
    Ok(())
}

/// Shows one more field.
fn push_field(out: &mut String, name: &str, value: &Chunks) -> Result<(), AllocError>
    ensures { OnOk result (string_bytes out.new
        ≡ string_bytes out.old ++ shown_field (name.now, field_value_view value.now.items)) }
{
    out.push_str("  ")?;
    out.push_str(name)?;
    out.push_str(" = ")?;
    push_value(out, value.as_slice())?;
    out.push('\n')
}
