//! Loops over the entries of a bibliography.

ghost use Rattle.std.specs.Prelude.{◌≡◌, ◌<◌, ◌^◌, length};
ghost use Rattle.std.specs.Borrow.{sem};
ghost use Rattle.std.specs.Slice.Iter.{iter_rest, iter_steps, iter_mut_rest, iter_mut_name};
ghost use Rattle.std.specs.Iterator.Adapters.{IterMutYieldsInOrder};
ghost use Rattle.std.specs.Vec.Iter.{into_iter_steps, into_iter_items, into_iter_len};
ghost use Rattle.std.specs.Iterator.Runs.{EveryRun, ItemsMapTo, ItemsAre};
ghost use Rattle.std.specs.Global.{Global};
ghost use Rattle.biblatex_entries.specs.declared.entry.Entry.{Entry};
ghost use Rattle.biblatex_entries.specs.Entries.{sources_view};
ghost use Rattle.biblatex.specs.Lending.{LendsEntries};

use crate::Bibliography;
use biblatex_entries::Entry;
use std::slice::{Iter, IterMut};
use std::vec::IntoIter;

impl IntoIterator for Bibliography {
    type Item = Entry;

    type IntoIter = IntoIter<Entry>;

    ghost into_iter_gives = { λ b r. (sources_view (into_iter_items r) ≡ b.entries)
        × (into_iter_len r ≡ length b.entries) × EveryRun
        (into_iter_steps {X = Entry} {Z = Global}) (λ p. ItemsAre p (into_iter_items p.from)) };

    fn into_iter(self) -> IntoIter<Entry> {
        self.into_vec().into_iter()
    }
}

impl<'a> IntoIterator for &'a Bibliography {
    type Item = &'a Entry;

    type IntoIter = Iter<'a, Entry>;

    ghost into_iter_gives = { λ b r. (sources_view (iter_rest r) ≡ b.now.entries)
        × (length (iter_rest r) < 2 ^ 64)
        × EveryRun (iter_steps {A = Entry}) (λ p. ItemsMapTo p (λ y. y.now) (iter_rest p.from)) };

    fn into_iter(self) -> Iter<'a, Entry> {
        self.entries().iter()
    }
}

impl<'a> IntoIterator for &'a mut Bibliography {
    type Item = &'a mut Entry;

    type IntoIter = IterMut<'a, Entry>;

    ghost into_iter_gives = { λ b r. (sources_view (iter_mut_rest r) ≡ b.now.entries)
        × IterMutYieldsInOrder Entry };

    fn into_iter(self) -> IterMut<'a, Entry>
        ensures* writes_back { sem 𝓛 (LendsEntries self.entry (iter_mut_name result)) }
        ensures into_iter_gives { (sources_view (iter_mut_rest result) ≡ self.old.entries)
            × IterMutYieldsInOrder Entry }
    {
        self.iter_mut()
    }
}
