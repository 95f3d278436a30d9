//! The parts of a names node.

ghost use Rattle.std.specs.Prelude.{◌≡◌, ◌||◌, is_some, if◌then◌else◌};
ghost use Rattle.std.specs.Option.{option_map, option_or};
ghost use Rattle.rendering_names.specs.Names.{completed, node_options, own_over, without_affixes};
ghost use Rattle.rendering_names.specs.Views.{names_around_view, names_parts_view, resolved_options_view};
ghost use Rattle.rendering_style.specs.Views.{names_node_view, label_look_view};

use crate::around::NamesAround;
use crate::options::ResolvedNameOptions;
use rendering_style::{EtAl, LabelLook, Look, Name, Names};
use rendering_taxonomy::NameVariable;
use texts::{borrowed_text, no_text};

/// What a names node says: its own, and, where it is a substitute for another one, what it takes from that.
#[derive(Clone, Copy)]
pub struct NamesParts<'a> {
    pub variables: &'a [NameVariable],
    pub name: Option<&'a Name>,
    pub et_al: Option<&'a EtAl>,
    pub label: Option<&'a LabelLook>,
    /// Whether the label stands before the names.
    pub label_is_first: bool,
    /// Whether editors who are the translators too are printed once.
    pub merges_editor_translator: bool,
    /// The text between the people of two variables.
    pub delimiter: Option<&'a str>,
    pub look: &'a Look,
    /// What stands before all names, in place of the prefix of the look.
    pub prefix: &'a str,
    /// What stands after all names, in place of the suffix of the look.
    pub suffix: &'a str,
}

impl<'a> NamesParts<'a> {
    /// What the node says by itself.
    pub fn new(node: &'a Names) -> NamesParts<'a>
        ensures { names_parts_view result ≡ names_node_view node.now }
    {
        NamesParts {
            variables: node.variables.as_slice(),
            name: node.name.as_ref(),
            et_al: node.et_al.as_ref(),
            label: node.label.as_ref(),
            label_is_first: node.label_is_first,
            merges_editor_translator: node.merges_editor_translator,
            delimiter: borrowed_text(&node.delimiter),
            look: &node.look,
            prefix: node.look.prefix.as_str(),
            suffix: node.look.suffix.as_str(),
        }
    }

    /// What it says where it is a substitute for another node: without a name and a term for those left out it takes those of the
    /// other node, and without a label of its own the label too, with its position.
    pub fn completed(&self, outer: &NamesParts<'a>) -> NamesParts<'a>
        ensures { names_parts_view result
            ≡ completed (names_parts_view outer.now) (names_parts_view self.now) }
    {
        if self.says_how() {
            return *self;
        }
        NamesParts {
            name: outer.name,
            et_al: outer.et_al,
            label: or_label(self.label, outer.label),
            label_is_first: self.label_is_first_or(outer.label_is_first),
            ..*self
        }
    }

    /// The same without affixes.
    pub fn without_affixes(&self) -> NamesParts<'a>
        ensures { names_parts_view result ≡ without_affixes (names_parts_view self.now) }
    {
        NamesParts {
            prefix: no_text(),
            suffix: no_text(),
            ..*self
        }
    }

    /// Whether something is specified for single names or of the term for those left out.
    fn says_how(&self) -> bool
        ensures { result ≡ (is_some (names_parts_view self.now).name
            || is_some (names_parts_view self.now).et_al) }
    {
        match (self.name, self.et_al) {
            (Some(_), _) | (None, Some(_)) => true,
            (None, None) => false,
        }
    }

    /// Whether the label stands before the names; where there is no label, what holds of another one.
    fn label_is_first_or(&self, other: bool) -> bool
        ensures { result ≡ (if is_some (names_parts_view self.now).label
            then self.now.label_is_first else other) }
    {
        match self.label {
            Some(_) => self.label_is_first,
            None => other,
        }
    }

    /// What it says of names, and where it says nothing what is specified around it; over both stands what overrides them.
    pub fn options(&self, around: &NamesAround<'a>) -> ResolvedNameOptions<'a>
        ensures { resolved_options_view result
            ≡ node_options (names_parts_view self.now) (names_around_view around.now) }
    {
        let own = self.own_over(&around.options);
        around.overriding.over(&own)
    }

    /// What it says of names, and where it says nothing what is specified around it.
    fn own_over(&self, around: &ResolvedNameOptions<'a>) -> ResolvedNameOptions<'a>
        ensures { resolved_options_view result
            ≡ own_over (names_parts_view self.now) (resolved_options_view around.now) }
    {
        match self.name {
            Some(name) => ResolvedNameOptions::new(&name.options).over(around),
            None => *around,
        }
    }
}

/// The first of two labels, or else the second.
fn or_label<'a>(label: Option<&'a LabelLook>, other: Option<&'a LabelLook>) -> Option<&'a LabelLook>
    ensures { option_map (λ b. label_look_view b.now) result
        ≡ option_or (option_map (λ b. label_look_view b.now) label.entry)
        (option_map (λ b. label_look_view b.now) other.entry) }
{
    match label {
        Some(label) => Some(label),
        None => other,
    }
}
