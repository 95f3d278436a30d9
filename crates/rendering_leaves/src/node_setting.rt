//! What is handed down from node to node.

use rendering_names::{NamesAround, NamesParts};
use rendering_page::Manner;
use rendering_taxonomy::NameVariable;

/// What is printed of a layout.
#[derive(Clone, Copy, Debug, PartialEq, Eq)]
pub enum SpecialForm {
    /// All of it.
    Whole,
    /// The names of a variable alone.
    AuthorOnly(NameVariable),
    /// All but the names of authors.
    WithoutAuthor,
    /// The first date, the year suffix, and locators.
    FirstDateOnly,
    /// The year suffix, and locators.
    SuffixOnly,
    /// The names of a variable alone, without the affixes of the nodes round them.
    AuthorsAlone(NameVariable),
    /// All but the names of a variable, and nothing stands for these.
    WithoutNames(NameVariable),
}

/// What is handed down from node to node.
#[derive(Clone, Copy)]
pub struct NodeSetting<'a> {
    /// How texts are appended.
    pub manner: Manner,
    /// Whether quotes are inner ones.
    pub inside_quotes: bool,
    /// What stands between the children of the group around.
    pub delimiter: Option<&'a str>,
    /// What the layout and the style, or a key, say of names.
    pub options: NamesAround<'a>,
    /// Whether a substitute for names is printed.
    pub in_substitute: bool,
    /// What is printed of the layout.
    pub form: SpecialForm,
    /// The names whose substitute the nodes stand in, be it in groups and branches, but not in macros that it calls.
    pub outer_names: Option<NamesParts<'a>>,
}
