//! Names under which fields are written, and the order of these names.

ghost use Rattle.std.specs.Prelude.{◌≡◌, map};
ghost use Rattle.std.specs.Option.{option_map};
ghost use Rattle.std.specs.Map.{lookup};
ghost use Rattle.std.specs.Str.{bytes_eq};
ghost use Rattle.biblatex_writing.specs.FieldNames.{is_never_written, is_third_of_read, is_third_of_written, other_names, written_name};
ghost use Rattle.biblatex_writing.specs.Order.{comes_before};
ghost use Rattle.biblatex_writing.specs.MovedFields.{row_view};

use biblatex_content::third_byte;

/// A field that is written under another name than its own.
#[derive(Clone, Copy)]
pub(crate) enum Moved {
    Annote,
    PrimaryClass,
    ArchivePrefix,
    Pdf,
    School,
    Journal,
    Address,
    Key,
}

impl Moved {
    /// Its own name.
    pub(crate) fn name(self) -> &'static str
        ensures { result.now ≡ (row_view self).1 }
    {
        match self {
            Moved::Annote => "annote",
            Moved::PrimaryClass => "primaryclass",
            Moved::ArchivePrefix => "archiveprefix",
            Moved::Pdf => "pdf",
            Moved::School => "school",
            Moved::Journal => "journal",
            Moved::Address => "address",
            Moved::Key => "key",
        }
    }

    /// The name under which it is written.
    fn written(self) -> &'static str
        ensures { result.now ≡ (row_view self).0 }
    {
        match self {
            Moved::Annote => "annotation",
            Moved::PrimaryClass => "eprintclass",
            Moved::ArchivePrefix => "eprinttype",
            Moved::Pdf => "file",
            Moved::School => "institution",
            Moved::Journal => "journaltitle",
            Moved::Address => "location",
            Moved::Key => "sortkey",
        }
    }
}

/// The name under which the field of that name is written: `journaltitle` for `journal`, and so on; most fields are written
/// under their own. The name is in lower case.
pub fn written_name(name: &str) -> &str
    ensures { result.now ≡ written_name name.now }
{
    match name {
        "annote" => "annotation",
        "primaryclass" => "eprintclass",
        "archiveprefix" => "eprinttype",
        "pdf" => "file",
        "school" => "institution",
        "journal" => "journaltitle",
        "address" => "location",
        "key" => "sortkey",
        _ => name,
    }
}

/// The fields that are written under another name, in the order of these names.
pub(crate) fn moved_fields() -> &'static [Moved]
    ensures { map row_view result.now ≡ other_names }
{
    &[
        Moved::Annote,
        Moved::PrimaryClass,
        Moved::ArchivePrefix,
        Moved::Pdf,
        Moved::School,
        Moved::Journal,
        Moved::Address,
        Moved::Key,
    ]
}

/// The other name under which a field may be read that is written under a name. The third byte of most names says that they have none.
#[inline(always)]
pub fn other_name(name: &str) -> Option<&'static str>
    ensures { option_map (λ s. s.now) result ≡ lookup (bytes_eq name.now) other_names }
{
    if !is_third_of_written(third_byte(name)) {
        return None;
    }
    other_name_of_moved(name)
}

/// The same of any name.
#[inline(never)]
fn other_name_of_moved(name: &str) -> Option<&'static str>
    ensures { option_map (λ s. s.now) result ≡ lookup (bytes_eq name.now) other_names }
{
    match name {
        "annotation" => Some("annote"),
        "eprintclass" => Some("primaryclass"),
        "eprinttype" => Some("archiveprefix"),
        "file" => Some("pdf"),
        "institution" => Some("school"),
        "journaltitle" => Some("journal"),
        "location" => Some("address"),
        "sortkey" => Some("key"),
        _ => None,
    }
}

/// Whether no field is written under a name, since fields of that name are written under another one. The third byte of most names
/// says that they are none of these.
#[inline(always)]
pub fn is_never_written(name: &str) -> bool
    ensures { result ≡ is_never_written name.now }
{
    if !is_third_of_read(third_byte(name)) {
        return false;
    }
    is_name_of_moved(name)
}

/// The same of any name.
#[inline(never)]
fn is_name_of_moved(name: &str) -> bool
    ensures { result ≡ is_never_written name.now }
{
    matches!(
        name,
        "annote"
            | "primaryclass"
            | "archiveprefix"
            | "pdf"
            | "school"
            | "journal"
            | "address"
            | "key"
    )
}

/// Whether the byte is the third one of a name under which fields of another name are written.
#[inline(always)]
fn is_third_of_written(byte: u8) -> bool
    ensures { result ≡ is_third_of_written byte }
{
    matches!(byte, b'c' | b'l' | b'n' | b'r' | b's' | b'u')
}

/// Whether the byte is the third one of such another name.
#[inline(always)]
fn is_third_of_read(byte: u8) -> bool
    ensures { result ≡ is_third_of_read byte }
{
    matches!(byte, b'c' | b'd' | b'f' | b'h' | b'i' | b'n' | b'u' | b'y')
}

/// Whether the moved field comes before the field of that name, which is written under its own.
pub(crate) fn comes_before(field: Moved, name: &str) -> bool
    ensures { result ≡ comes_before (row_view field) name.now }
{
    let (written, own) = (field.written(), field.name());
    written < name || (written == name && own < name)
}
