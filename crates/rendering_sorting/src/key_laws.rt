//! The law of keys. The function does nothing.

ghost use Rattle.rendering_sorting.specs.Laws.{KeysCompareByTheirValues};

use crate::key::SortPart;

/// Of two keys the first values that differ decide; a key that the other one goes on from is less.
pub fn keys_compare_by_their_values()
    ensures { KeysCompareByTheirValues ⟦<Vec<SortPart> as Ord>⟧.cmp }
{}
