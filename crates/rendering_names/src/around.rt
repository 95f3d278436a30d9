//! What is said of names around their node.

ghost use Rattle.std.specs.Prelude.{◌≡◌};
ghost use Rattle.rendering_names.specs.Around.{not_overriding};
ghost use Rattle.rendering_names.specs.Views.{names_around_view, overriding_view, resolved_options_view};
ghost use Rattle.rendering_style.specs.Options.{open_options, options_over};

use crate::options::ResolvedNameOptions;
use rendering_taxonomy::NameAsSortOrder;

/// What counts for names whatever their node says, as what a key says of them.
#[derive(Clone, Copy)]
pub struct OverridingOptions {
    /// From how many names on not all are shown.
    pub et_al_min: Option<u32>,
    /// How many are shown then.
    pub et_al_use_first: Option<u32>,
    /// Whether the last name is shown after those left out.
    pub et_al_use_last: Option<bool>,
    /// Which names are inverted.
    pub name_as_sort_order: Option<NameAsSortOrder>,
}

impl OverridingOptions {
    /// Each option as it is specified here, or else there.
    pub(crate) fn over<'a>(&self, options: &ResolvedNameOptions<'a>) -> ResolvedNameOptions<'a>
        ensures { resolved_options_view result
            ≡ options_over (overriding_view self.now) (resolved_options_view options.now) }
    {
        ResolvedNameOptions {
            et_al_min: self.et_al_min.or(options.et_al_min),
            et_al_use_first: self.et_al_use_first.or(options.et_al_use_first),
            et_al_use_last: self.et_al_use_last.or(options.et_al_use_last),
            name_as_sort_order: self.name_as_sort_order.or(options.name_as_sort_order),
            ..*options
        }
    }
}

/// What is said of names around their node.
#[derive(Clone, Copy)]
pub struct NamesAround<'a> {
    /// What counts where the node says nothing.
    pub options: ResolvedNameOptions<'a>,
    /// What counts whatever the node says.
    pub overriding: OverridingOptions,
}

impl<'a> NamesAround<'a> {
    /// Options that count where the node says nothing, and nothing that overrides it.
    pub fn not_overriding(options: &ResolvedNameOptions<'a>) -> NamesAround<'a>
        ensures { names_around_view result ≡ not_overriding (resolved_options_view options.now) }
    {
        NamesAround {
            options: *options,
            overriding: nothing(),
        }
    }
}

/// Nothing that overrides options.
fn nothing() -> OverridingOptions
    ensures { overriding_view result ≡ open_options }
{
    OverridingOptions {
        et_al_min: None,
        et_al_use_first: None,
        et_al_use_last: None,
        name_as_sort_order: None,
    }
}
