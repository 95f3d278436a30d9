//! The works that an entry is part of.

ghost use Rattle.std.specs.Prelude.{◌≡◌, ◌||◌, ◌++◌, ◌∷◌, [], true, Some, map, IfOk, OnOk, option_to_list, codes};
ghost use Rattle.std.specs.Option.{option_map, is_some};
ghost use Rattle.biblatex_content.specs.Views.{styled};
ghost use Rattle.literature_values.specs.declared.entry_type.EntryType.TheVariants as works;
ghost use Rattle.interop_values.specs.Values.{values};
ghost use Rattle.literature_entries.specs.EntriesData.{entry_view};
ghost use Rattle.interop.specs.Bridge.{titled, titled_under, container_entry, conference_of, original_of, further};
ghost use Rattle.interop.specs.Views.{dates_of};

use crate::dates::Dates;
use crate::fields::set_container_fields;
use crate::setting::{set_author, set_date, set_title};
use biblatex_content::{Chunk, Spanned};
use biblatex_fields::Fields;
use interop_values::{format, format_if, people_under, value};
use literature_entries::Entry;
use literature_values::{Date, EntryType};
use std::alloc::{AllocError, Global};
use texts::empty_text;

/// The work that holds an entry.
pub(crate) fn container_entry(
    alloc: Global,
    fields: &Fields,
    entry_type: EntryType,
    title: &[Spanned<Chunk>],
) -> Result<Entry, AllocError>
    ensures { IfOk result (λ e. entry_view e
        ≡ container_entry (values fields.now) entry_type (styled title.now)) }
{
    let title = format(alloc, title)?;
    let author = people_under(alloc, fields, "bookauthor")?;
    let mut parents = Vec::new(alloc);
    push_titled(
        alloc,
        &mut parents,
        EntryType::Anthology,
        value(fields, "series"),
    )?;
    let mut outer = Entry::new(empty_text(alloc), entry_type);
    set_title(&mut outer, Some(title));
    set_author(&mut outer, author);
    set_container_fields(alloc, &mut outer, fields)?;
    outer.set_parents(parents);
    Ok(outer)
}

/// Appends the parents that are not parents of the container; the series is among them where there is no container.
pub(crate) fn push_further(
    alloc: Global,
    parents: &mut Vec<Entry>,
    fields: &Fields,
    series: Option<&[Spanned<Chunk>]>,
    dates: Dates,
) -> Result<(), AllocError>
    requires { dates ≡ dates_of (values fields.now) }
    ensures { OnOk result (map entry_view parents.new.items
        ≡ map entry_view parents.old.items ++ further
        (option_to_list (option_map (λ v. titled works.Anthology (styled v.now)) series.entry))
        (values fields.now)) }
{
    push_titled(alloc, parents, EntryType::Book, value(fields, "maintitle"))?;
    push_titled(alloc, parents, EntryType::Anthology, series)?;
    push_conference(alloc, parents, value(fields, "eventtitle"), dates.event)?;
    push_original(alloc, parents, dates.original)
}

/// Appends a work that has a title alone, where there is a title.
fn push_titled(
    alloc: Global,
    parents: &mut Vec<Entry>,
    entry_type: EntryType,
    title: Option<&[Spanned<Chunk>]>,
) -> Result<(), AllocError>
    ensures { OnOk result (map entry_view parents.new.items ≡ map entry_view parents.old.items
        ++ option_to_list (option_map (λ v. titled entry_type (styled v.now)) title.entry)) }
{
    match title {
        Some(title) => push_work(alloc, parents, entry_type, title),
        None => Ok(()),
    }
}

/// Appends a work that has a title alone.
#[inline(never)]
fn push_work(
    alloc: Global,
    parents: &mut Vec<Entry>,
    entry_type: EntryType,
    title: &[Spanned<Chunk>],
) -> Result<(), AllocError>
    ensures { OnOk result (map entry_view parents.new.items
        ≡ map entry_view parents.old.items ++ titled entry_type (styled title.now) ∷ []) }
{
    let title = format(alloc, title)?;
    let mut work = Entry::new(empty_text(alloc), entry_type);
    set_title(&mut work, Some(title));
    Ok(parents.push(work)?)
}

/// Appends the conference, where its title or its date is there.
#[tactic(auto, using(crate::proofs::KindsTitled::no_conference))]
fn push_conference(
    alloc: Global,
    parents: &mut Vec<Entry>,
    title: Option<&[Spanned<Chunk>]>,
    date: Option<Date>,
) -> Result<(), AllocError>
    ensures { OnOk result (map entry_view parents.new.items ≡ map entry_view parents.old.items
        ++ conference_of (option_map (λ v. styled v.now) title.entry) date) }
{
    if !has_conference(title, date) {
        return Ok(());
    }
    push_this_conference(alloc, parents, title, date)
}

/// Appends the conference of a title or a date.
#[inline(never)]
fn push_this_conference(
    alloc: Global,
    parents: &mut Vec<Entry>,
    title: Option<&[Spanned<Chunk>]>,
    date: Option<Date>,
) -> Result<(), AllocError>
    requires { (is_some title || is_some date) ≡ true }
    ensures { OnOk result (map entry_view parents.new.items ≡ map entry_view parents.old.items
        ++ conference_of (option_map (λ v. styled v.now) title.entry) date) }
{
    let title = format_if(alloc, title)?;
    let mut conference = Entry::new(empty_text(alloc), EntryType::Conference);
    set_title(&mut conference, title);
    set_date(&mut conference, date);
    Ok(parents.push(conference)?)
}

/// Whether a title or a date is there.
fn has_conference(title: Option<&[Spanned<Chunk>]>, date: Option<Date>) -> bool
    ensures { result ≡ (is_some title.entry || is_some date) }
{
    title.is_some() || date.is_some()
}

/// Appends the original, where its date is there.
fn push_original(
    alloc: Global,
    parents: &mut Vec<Entry>,
    date: Option<Date>,
) -> Result<(), AllocError>
    ensures { OnOk result (map entry_view parents.new.items
        ≡ map entry_view parents.old.items ++ original_of date) }
{
    match date {
        Some(date) => push_original_of(alloc, parents, date),
        None => Ok(()),
    }
}

/// Appends the original of a date.
#[inline(never)]
fn push_original_of(alloc: Global, parents: &mut Vec<Entry>, date: Date) -> Result<(), AllocError>
    ensures { OnOk result (map entry_view parents.new.items
        ≡ map entry_view parents.old.items ++ original_of (Some date)) }
{
    let mut original = Entry::new(empty_text(alloc), EntryType::Original);
    original.set_date(date);
    Ok(parents.push(original)?)
}
