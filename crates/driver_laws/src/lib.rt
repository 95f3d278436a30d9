//! Laws of `driver`: what holds of the citations and the bibliography of all documents. The functions do nothing, and carry the laws as their
//! contracts.
#![tactic(auto)]

ghost use Rattle.driver_laws.specs.Laws.{AlikeEntriesGiveOne, EntriesHaveOneNumberAndState, HiddenItemsPrintNothing, ItemsAreTheOrder, KeysAreTheOrder, YearSuffixesAreDistinct, YearSuffixesAreFinal, NumbersAreConsecutive, OrderHasTheCited, RoundsThatGiveNothingChangeNothing, UncitedEntriesChangeNothing};

/// The numbers of the cited entries, taken in the order of these, count on from the offset.
#[tactic(auto, using(crate::proofs::EntriesOrdered::numbers_are_consecutive))]
pub fn numbers_are_consecutive<P>()
    ensures { NumbersAreConsecutive P }
{}

/// The order has each cited entry once, and no other.
pub fn order_has_the_cited<P>()
    ensures { OrderHasTheCited P }
{}

/// All cites of an entry have one number and one state: what disambiguates one of them from cites of other entries does so for all.
pub fn entries_have_one_number_and_state<P>()
    ensures { EntriesHaveOneNumberAndState P }
{}

/// Where the style has a bibliography, this has one item for each cited entry, in their order.
pub fn items_are_the_order<P>()
    ensures { ItemsAreTheOrder P }
{}

/// There is one key for each cited entry, in their order: keys and items go together one by one.
pub fn keys_are_the_order<P>()
    ensures { KeysAreTheOrder P }
{}

/// A request of hidden items alone prints nothing.
pub fn hidden_items_print_nothing<P>()
    ensures { HiddenItemsPrintNothing P }
{}

/// Year suffixes are final: an entry that has one after some rounds has the same after one more.
pub fn year_suffixes_are_final()
    ensures { YearSuffixesAreFinal }
{}

/// No two entries have the same year suffix of one class in one round.
pub fn year_suffixes_are_distinct()
    ensures { YearSuffixesAreDistinct }
{}

/// A round that gives nothing changes nothing.
pub fn rounds_that_give_nothing_change_nothing()
    ensures { RoundsThatGiveNothingChangeNothing }
{}

/// Entries that are wanted and not cited change nothing.
pub fn uncited_entries_change_nothing<P>()
    ensures { UncitedEntriesChangeNothing P }
{}

/// What cited entries answer to what no style names changes nothing: two documents that differ in it alone give the same.
pub fn alike_entries_give_one<P>()
    ensures { AlikeEntriesGiveOne P }
{}
