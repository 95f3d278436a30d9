//! Questions to entries and to the works that they are part of.

ghost use Rattle.std.specs.Prelude.{◌≡◌, ◌∷◌, ◌++◌, IfOk, OnOk};
ghost use Rattle.std.specs.List.{flat_map};
ghost use Rattle.laws.specs.Borrowed.{borrowed};
ghost use Rattle.literature_entries.specs.Ancestors.{ancestors, Asks, AsksFrom, first_of};
ghost use Rattle.literature_entries.specs.Views.{parents, fields_view, view_in};
ghost use Rattle.literature_values.specs.OtherViews.{address_view};

use crate::entry::Entry;
use literature_values::{Date, QualifiedUrl};
use std::alloc::{AllocError, Global};

impl Entry {
    /// The first answer of a closure that is asked of the entry and its ancestors, by depth and then by path, each once;
    /// none where there is no answer.
    ///
    /// # Errors
    /// Out of memory.
    pub fn map<'a, T, F: FnMut(&'a Entry) -> Option<T>>(
        &'a self,
        mut f: F,
    ) -> Result<Option<T>, AllocError>
        requires { F.IsAlwaysCallable f }
        ensures { IfOk result (AsksFrom F.step f (self.now ∷ ancestors self.now)) }
    {
        if let Some(answer) = f(self) {
            return Ok(Some(answer));
        }
        self.map_parents(f)
    }

    /// The same of the entry's ancestors alone.
    ///
    /// # Errors
    /// Out of memory.
    pub fn map_parents<'a, T, F: FnMut(&'a Entry) -> Option<T>>(
        &'a self,
        mut f: F,
    ) -> Result<Option<T>, AllocError>
        requires { F.IsAlwaysCallable f }
        ensures { IfOk result (AsksFrom F.step f (ancestors self.now)) }
    {
        let alloc = *self.parents.allocator();
        let mut level = Vec::new(alloc);
        push_all(&mut level, self.parents())?;
        while !level.is_empty() {
            let (answer, asked) = first_answer(level.as_slice(), f);
            if let Some(answer) = answer {
                return Ok(Some(answer));
            }
            f = asked;
            level = parents_of(alloc, level.as_slice())?;
        }
        Ok(None)
    }

    /// The date of the entry, or the first of its ancestors by depth and then by path.
    ///
    /// # Errors
    /// Out of memory.
    pub fn date_any(&self) -> Result<Option<&Date>, AllocError>
        ensures { IfOk result (λ d. view_in (λ d. d) d
            ≡ first_of (λ e. (fields_view e).date) (self.now ∷ ancestors self.now)) }
    {
        self.map(|entry| entry.date())
    }

    /// The address of the entry, or the first of its ancestors by depth and then by path.
    ///
    /// # Errors
    /// Out of memory.
    pub fn url_any(&self) -> Result<Option<&QualifiedUrl>, AllocError>
        ensures { IfOk result (λ u. view_in address_view u
            ≡ first_of (λ e. (fields_view e).url) (self.now ∷ ancestors self.now)) }
    {
        self.map(|entry| entry.url())
    }
}

/// The first answer of a closure that is asked of each of the entries in turn, and the closure after that.
fn first_answer<'a, T, F: FnMut(&'a Entry) -> Option<T>>(
    entries: &[&'a Entry],
    mut f: F,
) -> (Option<T>, F)
    requires { F.IsAlwaysCallable f }
    ensures asked { Asks F.step f (borrowed entries.now) result.0 result.1 }
    ensures callable { F.IsAlwaysCallable result.1 }
{
    for entry in entries {
        if let Some(answer) = f(*entry) {
            return (Some(answer), f);
        }
    }
    (None, f)
}

/// The parents of all of the entries.
fn parents_of<'a>(alloc: Global, entries: &[&'a Entry]) -> Result<Vec<&'a Entry>, AllocError>
    ensures { IfOk result (λ v. borrowed v.items ≡ flat_map parents (borrowed entries.now)) }
{
    let mut all = Vec::new(alloc);
    for entry in entries {
        push_all(&mut all, entry.parents())?;
    }
    Ok(all)
}

/// Appends references to entries after others.
fn push_all<'a>(all: &mut Vec<&'a Entry>, entries: &'a [Entry]) -> Result<(), AllocError>
    ensures { OnOk result (borrowed all.new.items ≡ borrowed all.old.items ++ entries.now) }
{
    for entry in entries {
        all.push(entry)?;
    }
    Ok(())
}
