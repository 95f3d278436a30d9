//! Names as they print for sorting.

ghost use Rattle.std.specs.Prelude.{◌≡◌};
ghost use Rattle.rendering_style.specs.Views.{names_node_view, options_view};
ghost use Rattle.sorting_styles.specs.Nodes.{sorting_names, without_and};

use rendering_style::{NameOptions, Names};

/// Leaves out the word before the last name.
fn leave_and(options: &mut NameOptions)
    ensures { options_view options.new ≡ without_and (options_view options.old) }
{
    options.and = None;
}

/// Makes names print for sorting, without a label and without a word before the last.
pub(crate) fn change_names(names: &mut Names)
    ensures { names_node_view names.new ≡ sorting_names (names_node_view names.old) }
{
    if let Some(name) = &mut names.name {
        leave_and(&mut name.options);
    }
    names.label = None;
}
