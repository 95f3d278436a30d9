//! Sets of texts.

ghost use Rattle.std.specs.Prelude.{◌≡◌};
ghost use Rattle.csl_locales.specs.Sets.{Adds, has_text};

use std::alloc::AllocError;
use std::collections::BTreeSet;

/// Adds a text, and says whether it is new.
///
/// # Errors
/// Where a request for memory was refused.
pub fn add_text<'t>(texts: &mut BTreeSet<&'t str>, text: &'t str) -> Result<bool, AllocError>
    ensures { Adds texts.old texts.new text.entry.now result }
{
    let added = texts.insert(text)?;
    Ok(added)
}

/// Whether there is the text.
pub fn has_text<'t>(texts: &BTreeSet<&'t str>, text: &'t str) -> bool
    ensures { result ≡ has_text texts.now text.entry.now }
{
    texts.contains(text)
}
