//! What an entry says, or else the first of its ancestors.

ghost use Rattle.std.specs.Prelude.{◌≡◌, codes, IfOk};
ghost use Rattle.literature_numbers.specs.Views.{numeral_view};
ghost use Rattle.literature_values.specs.TextViews.{format_view};
ghost use Rattle.literature_values.specs.TypedViews.{typed_view};
ghost use Rattle.literature_entries.specs.Names.{serial};
ghost use Rattle.literature_entries.specs.Views.{fields_view, people_view, view_in};
ghost use Rattle.rendering_entries.specs.Library.{publisher_name, publisher_place};
ghost use Rattle.rendering_entries.specs.Views.{entry_ancestry};
ghost use Rattle.rendering_entries.specs.Works.{nearest};

use literature_entries::Entry;
use literature_values::{FormatString, MaybeTyped, Numeric, Person};
use std::alloc::AllocError;

pub(crate) fn nearest_edition(entry: &Entry) -> Result<Option<&MaybeTyped<Numeric>>, AllocError>
    ensures { IfOk result (λ n. view_in (typed_view numeral_view) n
        ≡ nearest (λ fs. fs.edition) (entry_ancestry entry.now)) }
{
    entry.map(|work| work.edition())
}

pub(crate) fn nearest_issue(entry: &Entry) -> Result<Option<&MaybeTyped<Numeric>>, AllocError>
    ensures { IfOk result (λ n. view_in (typed_view numeral_view) n
        ≡ nearest (λ fs. fs.issue) (entry_ancestry entry.now)) }
{
    entry.map(|work| work.issue())
}

/// The number of volumes.
pub(crate) fn nearest_volume_total(
    entry: &Entry,
) -> Result<Option<&MaybeTyped<Numeric>>, AllocError>
    ensures { IfOk result (λ n. view_in (typed_view numeral_view) n
        ≡ nearest (λ fs. fs.volume_total) (entry_ancestry entry.now)) }
{
    entry.map(|work| work.volume_total())
}

pub(crate) fn nearest_volume(entry: &Entry) -> Result<Option<&MaybeTyped<Numeric>>, AllocError>
    ensures { IfOk result (λ n. view_in (typed_view numeral_view) n
        ≡ nearest (λ fs. fs.volume) (entry_ancestry entry.now)) }
{
    entry.map(|work| work.volume())
}

pub(crate) fn nearest_editor(entry: &Entry) -> Result<Option<&[Person]>, AllocError>
    ensures { IfOk result (λ ps. view_in people_view ps
        ≡ nearest (λ fs. fs.editor) (entry_ancestry entry.now)) }
{
    entry.map(|work| work.editor())
}

/// The name of the publisher.
pub(crate) fn nearest_publisher(entry: &Entry) -> Result<Option<&FormatString>, AllocError>
    ensures { IfOk result (λ t. view_in format_view t
        ≡ nearest publisher_name (entry_ancestry entry.now)) }
{
    entry.map(|work| publisher_name(work))
}

/// The publisher's location.
pub(crate) fn nearest_place(entry: &Entry) -> Result<Option<&FormatString>, AllocError>
    ensures { IfOk result (λ t. view_in format_view t
        ≡ nearest publisher_place (entry_ancestry entry.now)) }
{
    entry.map(|work| publisher_place(work))
}

/// The International Standard Book Number.
pub(crate) fn nearest_isbn(entry: &Entry) -> Result<Option<&str>, AllocError>
    ensures { IfOk result (λ t. view_in (λ s. s) t
        ≡ nearest (serial (codes "isbn")) (entry_ancestry entry.now)) }
{
    entry.map(|work| work.isbn())
}

/// The International Standard Serial Number.
pub(crate) fn nearest_issn(entry: &Entry) -> Result<Option<&str>, AllocError>
    ensures { IfOk result (λ t. view_in (λ s. s) t
        ≡ nearest (serial (codes "issn")) (entry_ancestry entry.now)) }
{
    entry.map(|work| work.issn())
}

/// The name of an entry's own publisher.
fn publisher_name(entry: &Entry) -> Option<&FormatString>
    ensures { view_in format_view result ≡ publisher_name (fields_view entry.now) }
{
    entry.publisher()?.name.as_ref()
}

/// The location of an entry's own publisher.
fn publisher_place(entry: &Entry) -> Option<&FormatString>
    ensures { view_in format_view result ≡ publisher_place (fields_view entry.now) }
{
    entry.publisher()?.location.as_ref()
}
