//! What texts hold that are put one after the other, and what entries change that are put between two of them.

ghost use Rattle.biblatex_laws.specs.Between.{UnreachedEntriesBetweenChangeNothing};
ghost use Rattle.biblatex_laws.specs.Joined.{JoinedTextsHoldBoth, WhatFollowsIsRead};

/// A text of whole lines, and a text after it that begins with an item, have together the entries and the abbreviations of both.
pub fn joined_texts_hold_both()
    ensures { JoinedTextsHoldBoth }
{}

/// Where a text of whole lines and a text after it that begins with an item are read together, and the first is read by itself, so is the second.
pub fn what_follows_is_read()
    ensures { WhatFollowsIsRead }
{}

/// A file says the same of all that names reach after a text of entries was put between two parts of its text, if these names mean none of
/// the entries.
pub fn unreached_entries_between_change_nothing()
    ensures { UnreachedEntriesBetweenChangeNothing }
{}
