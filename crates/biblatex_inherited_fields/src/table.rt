//! Which fields an entry inherits, and under which name of the reference each of them stands.

ghost use Rattle.std.specs.Prelude.{◌≡◌, ◌||◌};
ghost use Rattle.biblatex_entries.specs.Roles.{is_multi_volume};
ghost use Rattle.biblatex_inherited_fields.specs.Table.{is_among, never, is_part, is_volume, is_book, is_part_of_book, is_third_of_renamed, is_xdata, is_periodical, renamed, renamed_in_part, source_name};

use biblatex_content::third_byte;
use biblatex_entries::Role;

/// The fields that every entry inherits, but for xdata entries.
pub(crate) const OF_ALL: [&str; 31] = [
    "author",
    "editor",
    "editortype",
    "translator",
    "publisher",
    "location",
    "address",
    "edition",
    "series",
    "number",
    "volume",
    "volumes",
    "isbn",
    "issn",
    "doi",
    "url",
    "urldate",
    "eprint",
    "eprinttype",
    "language",
    "langid",
    "institution",
    "school",
    "organization",
    "version",
    "pubstate",
    "maintitle",
    "mainsubtitle",
    "eventtitle",
    "eventdate",
    "origdate",
];

/// The fields that articles inherit as well.
pub(crate) const OF_ARTICLES: [&str; 4] = ["journaltitle", "journalsubtitle", "journal", "issue"];

/// The fields that parts of books and of works like them inherit as well.
pub(crate) const OF_PARTS: [&str; 3] = ["booktitle", "booksubtitle", "bookauthor"];

/// Whether the field is never inherited, not even by xdata entries, which inherit all others.
pub(crate) fn is_never(name: &str) -> bool
    ensures { result ≡ is_among never name.now }
{
    matches!(
        name,
        "crossref" | "ids" | "xdata" | "title" | "addendum" | "note"
    )
}

/// The name under which the field stands in the reference.
pub fn source_name<'n>(to: Role, from: Role, name: &'n str) -> &'n str
    ensures { result.now ≡ source_name to from name.now }
{
    if is_xdata(to) || is_xdata(from) {
        return name;
    }
    renamed(to, from, name)
}

/// The name under which the field stands in a reference, where neither is an xdata entry. The third byte of most names says that it is the
/// same.
fn renamed<'n>(to: Role, from: Role, name: &'n str) -> &'n str
    ensures { result.now ≡ renamed to from name.now }
{
    if !is_third_of_renamed(third_byte(name)) {
        return name;
    }
    renamed_title(to, from, name)
}

/// The same of any name.
fn renamed_title<'n>(to: Role, from: Role, name: &'n str) -> &'n str
    ensures { result.now ≡ renamed to from name.now }
{
    match name {
        "journaltitle" if is_periodical(from) => "title",
        "journalsubtitle" if is_periodical(from) => "subtitle",
        "maintitle" if is_multi_volume(from) => "title",
        "mainsubtitle" if is_multi_volume(from) => "subtitle",
        _ => renamed_in_part(to, from, name),
    }
}

/// Whether the byte is the third one of a name that may stand for another one in a reference.
fn is_third_of_renamed(byte: u8) -> bool
    ensures { result ≡ is_third_of_renamed byte }
{
    matches!(byte, b'i' | b'o' | b'u')
}

/// The same where the entry is a part of a book or of a work like it.
#[tactic(auto, unfolding(crate::specs::Table::renamed_in_part))]
fn renamed_in_part<'n>(to: Role, from: Role, name: &'n str) -> &'n str
    ensures { result.now ≡ renamed_in_part to from name.now }
{
    match name {
        "booktitle" if is_part(to) && is_volume(from) => "title",
        "booksubtitle" if is_part(to) && is_volume(from) => "subtitle",
        "bookauthor" if is_part_of_book(to) && is_book(from) => "author",
        _ => name,
    }
}

fn is_xdata(role: Role) -> bool
    ensures { result ≡ is_xdata role }
{
    matches!(role, Role::XData)
}

fn is_periodical(role: Role) -> bool
    ensures { result ≡ is_periodical role }
{
    matches!(role, Role::Periodical)
}

/// Whether it is of several volumes.
fn is_multi_volume(role: Role) -> bool
    ensures { result ≡ is_multi_volume role }
{
    matches!(role, Role::MultiVolumeBook | Role::MultiVolume)
}

/// Whether it is a part of a book or of a work like it.
fn is_part(role: Role) -> bool
    ensures { result ≡ is_part role }
{
    matches!(role, Role::PartOfBook | Role::PartOfOther)
}

/// Whether it is a book or a work like it, of one volume.
fn is_volume(role: Role) -> bool
    ensures { result ≡ is_volume role }
{
    matches!(role, Role::Book | Role::Volume)
}

fn is_part_of_book(role: Role) -> bool
    ensures { result ≡ is_part_of_book role }
{
    matches!(role, Role::PartOfBook)
}

/// Whether it is a book, of one volume or several.
fn is_book(role: Role) -> bool
    ensures { result ≡ is_book role }
{
    matches!(role, Role::Book | Role::MultiVolumeBook)
}
