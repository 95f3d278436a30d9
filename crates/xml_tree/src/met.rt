//! The names that the attributes of a tag have so far.

ghost use Rattle.std.specs.Prelude.{◌≡◌, None, Some};
ghost use Rattle.std.specs.Option.{option_map};
ghost use Rattle.std.specs.Str.{chars};
ghost use Rattle.laws.specs.Text.{spelled};
ghost use Rattle.xml_tree.specs.Met.{Adds, name_of, named_by};
ghost use Rattle.xml_tree.specs.Views.{full_name_view};

use crate::scope::borrowed_space;
use crate::tree::FullName;
use std::alloc::AllocError;
use std::collections::BTreeSet;

/// Adds a name without a prefix, and says whether it is new.
fn add_plain<'n>(
    met: &mut BTreeSet<(Option<&'n str>, &'n str)>,
    local: &'n str,
) -> Result<bool, AllocError>
    ensures { Adds met.old met.new (name_of None (chars local.now)) result }
{
    let added = met.insert((None, local))?;
    Ok(added)
}

/// Adds a name with a prefix, and says whether it is new.
fn add_prefixed<'n>(
    met: &mut BTreeSet<(Option<&'n str>, &'n str)>,
    prefix: &'n str,
    local: &'n str,
) -> Result<bool, AllocError>
    ensures { Adds met.old met.new (name_of (Some (chars prefix.now)) (chars local.now)) result }
{
    let added = met.insert((Some(prefix), local))?;
    Ok(added)
}

/// Adds a name, and says whether it is new.
pub(crate) fn add_name<'n>(
    met: &mut BTreeSet<(Option<&'n str>, &'n str)>,
    prefix: Option<&'n str>,
    local: &'n str,
) -> Result<bool, AllocError>
    ensures { Adds met.old met.new
        (name_of (option_map spelled prefix.entry) (spelled local.entry)) result }
{
    match prefix {
        None => add_plain(met, local),
        Some(prefix) => add_prefixed(met, prefix, local),
    }
}

/// Adds an expanded name, and says whether it is new.
pub(crate) fn add_full_name<'n>(
    met: &mut BTreeSet<(Option<&'n str>, &'n str)>,
    name: &'n FullName<'_>,
) -> Result<bool, AllocError>
    ensures { Adds met.old met.new (named_by (full_name_view name.now)) result }
{
    add_name(met, borrowed_space(&name.space), name.local)
}
