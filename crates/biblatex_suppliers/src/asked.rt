//! The fields of xdata entries for which others ask, and those of references in which they stand.

ghost use Rattle.std.specs.Prelude.{◌≡◌, map};
ghost use Rattle.std.specs.Option.{option_map};
ghost use Rattle.biblatex_inherited_fields.specs.Table.{of_all, of_articles, of_parts, source_name};
ghost use Rattle.biblatex_suppliers.specs.Asked.{further, of_dates, other_source};
ghost use Rattle.biblatex_suppliers.specs.FieldNames.{field_name};

use crate::names::FieldName;
use biblatex_entries::Role;
use biblatex_inherited_fields::source_name;

/// The fields that every entry inherits, but for xdata entries.
pub(crate) fn of_all() -> &'static [FieldName]
    ensures { map field_name result.now ≡ of_all }
{
    &[
        FieldName::Author,
        FieldName::Editor,
        FieldName::EditorType,
        FieldName::Translator,
        FieldName::Publisher,
        FieldName::Location,
        FieldName::Address,
        FieldName::Edition,
        FieldName::Series,
        FieldName::Number,
        FieldName::Volume,
        FieldName::Volumes,
        FieldName::Isbn,
        FieldName::Issn,
        FieldName::Doi,
        FieldName::Url,
        FieldName::UrlDate,
        FieldName::Eprint,
        FieldName::EprintType,
        FieldName::Language,
        FieldName::LangId,
        FieldName::Institution,
        FieldName::School,
        FieldName::Organization,
        FieldName::Version,
        FieldName::PubState,
        FieldName::MainTitle,
        FieldName::MainSubtitle,
        FieldName::EventTitle,
        FieldName::EventDate,
        FieldName::OrigDate,
    ]
}

/// The fields that articles inherit as well.
pub(crate) fn of_articles() -> &'static [FieldName]
    ensures { map field_name result.now ≡ of_articles }
{
    &[
        FieldName::JournalTitle,
        FieldName::JournalSubtitle,
        FieldName::Journal,
        FieldName::Issue,
    ]
}

/// The fields that parts of books and of works like them inherit as well.
pub(crate) fn of_parts() -> &'static [FieldName]
    ensures { map field_name result.now ≡ of_parts }
{
    &[
        FieldName::BookTitle,
        FieldName::BookSubtitle,
        FieldName::BookAuthor,
    ]
}

/// The fields that a date is made of.
pub(crate) fn of_dates() -> &'static [FieldName]
    ensures { map field_name result.now ≡ of_dates }
{
    &[
        FieldName::Date,
        FieldName::Year,
        FieldName::Month,
        FieldName::Day,
    ]
}

/// The fields that an entry of the role inherits beyond those that every entry inherits, but for xdata entries.
pub(crate) fn further(to: Role) -> &'static [FieldName]
    ensures { map field_name result.now ≡ further to }
{
    match to {
        Role::Article => of_articles(),
        Role::PartOfBook | Role::PartOfOther => of_parts(),
        _ => &[],
    }
}

/// The field of the reference in which a field stands.
pub(crate) fn source_of(to: Role, from: Role, wanted: FieldName) -> FieldName
    ensures { field_name result ≡ source_name to from (field_name wanted) }
{
    match other_source(source_name(to, from, wanted.text())) {
        Some(name) => name,
        None => wanted,
    }
}

/// The field of that name, if another one may stand in it.
fn other_source(name: &str) -> Option<FieldName>
    ensures { option_map field_name result ≡ other_source name.now }
{
    match name {
        "title" => Some(FieldName::Title),
        "subtitle" => Some(FieldName::Subtitle),
        "author" => Some(FieldName::Author),
        _ => None,
    }
}
