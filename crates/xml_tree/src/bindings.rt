//! What an element binds prefixes to.

ghost use Rattle.std.specs.Prelude.{◌≡◌, ℕ, List, OnOk};
ghost use Rattle.std.specs.Option.{option_map};
ghost use Rattle.std.specs.Str.{chars};
ghost use Rattle.laws.specs.Text.{spelled};
ghost use Rattle.xml_tree.specs.Scope.{unbound, bound, bound_prefix};
ghost use Rattle.xml_tree.specs.Views.{space_view, prefix_space, bindings_view};

use std::alloc::{AllocError, Global};
use std::collections::BTreeMap;
use std::rc::RcStr;

/// What an element binds prefixes to.
#[derive(Drop)]
pub(crate) struct Bindings<'s> {
    /// The default namespace, where the element declares one, or none where it takes it back.
    default_space: Option<Option<RcStr>>,
    prefixes: BTreeMap<&'s str, Option<RcStr>>,
}

/// What the prefix is bound to.
fn prefix_space<'b, 's>(
    prefixes: &'b BTreeMap<&'s str, Option<RcStr>>,
    prefix: &'s str,
) -> Option<&'b Option<RcStr>>
    ensures { option_map (λ s. space_view s.now) result
        ≡ prefix_space prefixes.now (chars prefix.now) }
{
    prefixes.get(prefix)
}

/// Binds a prefix.
fn bind_prefix<'s>(
    prefixes: &mut BTreeMap<&'s str, Option<RcStr>>,
    prefix: &'s str,
    space: Option<RcStr>,
) -> Result<(), AllocError>
    ensures { OnOk result ((p : List ℕ) → prefix_space prefixes.new p
        ≡ bound_prefix (chars prefix.now) (space_view space) (prefix_space prefixes.old) p) }
{
    prefixes.insert(prefix, space)?;
    Ok(())
}

impl<'s> Bindings<'s> {
    /// None.
    pub(crate) fn new(alloc: Global) -> Bindings<'s>
        ensures { bindings_view result ≡ unbound }
    {
        let prefixes = BTreeMap::new(alloc);
        Bindings {
            default_space: None,
            prefixes,
        }
    }

    /// What the prefix, or none, is bound to.
    pub(crate) fn get(&self, prefix: Option<&'s str>) -> Option<&Option<RcStr>>
        ensures { option_map (λ s. space_view s.now) result
            ≡ bindings_view self.now (option_map spelled prefix.entry) }
    {
        match prefix {
            Some(prefix) => prefix_space(&self.prefixes, prefix),
            None => self.default_space.as_ref(),
        }
    }

    /// Binds the prefix, or none.
    pub(crate) fn bind(
        &mut self,
        prefix: Option<&'s str>,
        space: Option<RcStr>,
    ) -> Result<(), AllocError>
        ensures { OnOk result (bindings_view self.new ≡ bound (option_map spelled prefix.entry)
            (space_view space) (bindings_view self.old)) }
    {
        match prefix {
            Some(prefix) => bind_prefix(&mut self.prefixes, prefix, space),
            None => {
                self.default_space = Some(space);
                Ok(())
            }
        }
    }
}
