//! The keys of entries.

ghost use Rattle.std.specs.Prelude.{◌≡◌, map, None, IfOk};
ghost use Rattle.std.specs.Option.{option_map};
ghost use Rattle.laws.specs.Text.{characters};
ghost use Rattle.rendering.specs.Words.{words_of, words_view};
ghost use Rattle.rendering_context.specs.Cites.{year_suffix_of};
ghost use Rattle.rendering.specs.Views.{style_context_view};
ghost use Rattle.rendering_context.specs.Views.{cite_properties_view, locator_view};
ghost use Rattle.rendering_names.specs.Views.{resolved_options_view};
ghost use Rattle.rendering_nodes.specs.Views.{walk_context};
ghost use Rattle.rendering_style.specs.StyleViews.{style_view};
ghost use Rattle.rendering_style.specs.Views.{sort_key_view};
ghost use Rattle.driver_order.specs.EntryKeys.{inherited, keys_in, keys_of, keys_with, part_by, sorting_properties};
ghost use Rattle.rendering_sorting.specs.Views.{parts_view};

use rendering::{
    CiteProperties, DisambiguateState, ResolvedNameOptions, SpecificLocator, StyleContext, Words,
    YearSuffixText,
};
use rendering_entries::EntryLike;
use rendering_nodes::Walk;
use rendering_sorting::{SortPart, key_value, part_of};
use rendering_style::SortKey;
use rendering_taxonomy::{IbidState, IdentifierUsage};
use std::alloc::{AllocError, Global};

/// What keys are printed from: a style with its words, the keys, the options for names that they inherit, and whether they are those of a
/// bibliography.
#[derive(Clone, Copy)]
pub(crate) struct KeyContext<'k> {
    pub(crate) alloc: Global,
    pub(crate) context: &'k StyleContext<'k>,
    pub(crate) words: &'k Words<'k>,
    pub(crate) keys: &'k [SortKey],
    pub(crate) options: ResolvedNameOptions<'k>,
    pub(crate) is_bibliography: bool,
    ghost language: { words_view words.now ≡ words_of (style_context_view context.now) None },
    ghost sort: { map sort_key_view keys.now
        ≡ keys_of is_bibliography (style_context_view context.now).style },
    ghost names: { resolved_options_view options
        ≡ inherited is_bibliography (style_context_view context.now).style },
}

impl KeyContext<'_> {
    /// The keys of an entry that has this number, and is cited with this locator.
    pub(crate) fn keys<E: EntryLike>(
        &self,
        entry: &E,
        number: usize,
        locator: Option<SpecificLocator<'_, ()>>,
    ) -> Result<Vec<SortPart>, AllocError>
        ensures { IfOk result (λ v. parts_view v ≡ keys_in self.now.is_bibliography
            (style_context_view self.now.context.now) (E.answers entry.now) number
            (option_map locator_view locator.entry)) }
    {
        let properties = sorting_properties(number, locator);
        let year_suffix = YearSuffixText::new(self.alloc, &properties.disambiguation)?;
        self.keys_with(&year_suffix, entry, &properties)
    }

    /// The keys of an entry with these properties and this year suffix.
    fn keys_with<'c, E: EntryLike>(
        &'c self,
        year_suffix: &'c YearSuffixText,
        entry: &'c E,
        properties: &'c CiteProperties<'c>,
    ) -> Result<Vec<SortPart>, AllocError>
        requires { characters year_suffix.now.0
            ≡ year_suffix_of (cite_properties_view properties.now).disambiguation }
        ensures { IfOk result (λ v. parts_view v ≡ keys_with self.now.is_bibliography
            (style_context_view self.now.context.now) (E.answers entry.now)
            (cite_properties_view properties.now)) }
    {
        let walk = self
            .context
            .walk(self.words, year_suffix, properties, self.is_bibliography);
        parts(self.alloc, &walk, entry, self.keys, &self.options)
    }
}

/// The keys that are printed from a walk, which inherit these options for names.
fn parts<'a, E: EntryLike>(
    alloc: Global,
    walk: &Walk<'_, 'a>,
    entry: &'a E,
    keys: &'a [SortKey],
    options: &ResolvedNameOptions<'a>,
) -> Result<Vec<SortPart>, AllocError>
    ensures { IfOk result (λ v. parts_view v
        ≡ map (part_by (walk_context (E.answers entry.now) walk.now)
        (style_view walk.now.style.now) (resolved_options_view options.now))
        (map sort_key_view keys.now)) }
{
    let mut parts = Vec::with_capacity(alloc, keys.len())?;
    for key in keys {
        parts.push(part_of(key.direction, key_value(walk, entry, key, options)?))?;
    }
    Ok(parts)
}

/// A cite as it is sorted: the first of its entry, with the number of this and the locator alone.
fn sorting_properties<'a>(
    number: usize,
    locator: Option<SpecificLocator<'a, ()>>,
) -> CiteProperties<'a>
    ensures { cite_properties_view result
        ≡ sorting_properties number (option_map locator_view locator.entry) }
{
    CiteProperties {
        note_number: None,
        first_note_number: None,
        is_near_note: false,
        is_first: true,
        initial_idx: 0,
        locator,
        citation_number: number,
        ibid: IbidState::Different,
        disambiguation: DisambiguateState::None,
        identifier_usage: IdentifierUsage::None,
        first_names: None,
    }
}
