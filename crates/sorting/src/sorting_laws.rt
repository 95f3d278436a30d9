//! Laws of sorted lists. The functions do nothing.

ghost use Rattle.sorting.specs.Laws.{SortedIsPermutation, SortedIsSorted, SortedIsStable, StableSortsAreOne};

/// A sorted list has the elements of the list.
pub fn sorted_is_permutation<K: Ord>()
    ensures { SortedIsPermutation K.cmp }
{}

/// In a sorted list no element is less than the one before it.
pub fn sorted_is_sorted<K: Ord>()
    ensures { SortedIsSorted K.cmp }
{}

/// In a sorted list elements that compare as equal stand in the order that they have in the list.
pub fn sorted_is_stable<K: Ord>()
    ensures { SortedIsStable K.cmp }
{}

/// A list that is sorted, and in which elements that compare as equal stand in the order that they have in another list, is that list sorted.
pub fn stable_sorts_are_one<K: Ord>()
    ensures { StableSortsAreOne K.cmp }
{}
