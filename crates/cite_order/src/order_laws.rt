//! Laws of documents in order.

ghost use Rattle.cite_order.specs.Laws.{WithoutKeysNothingIsSorted};

/// In a style without sort keys a document comes to what `cite` gives.
pub fn without_keys_nothing_is_sorted()
    ensures { WithoutKeysNothingIsSorted }
{}
