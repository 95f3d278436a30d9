//! Names that a form leaves out or prints alone, with what would stand for them.

ghost use Rattle.std.specs.Prelude.{◌≡◌};
ghost use Rattle.rendering_entries.specs.Answers.{Answers};
ghost use Rattle.rendering_leaves.specs.NodeSettings.{authors_alone};
ghost use Rattle.rendering_leaves.specs.Views.{form_view};
ghost use Rattle.rendering_nodes.specs.Admission.{have_names_of, holds_names_of, in_substitute_of, is_names_of, is_shut_out_by, substitute_form};
ghost use Rattle.rendering_nodes.specs.Views.{macros_of, stage_view};
ghost use Rattle.rendering_style.specs.Opening.{each_node, open_node};
ghost use Rattle.rendering_style.specs.Views.{names_node_view, node_view, nodes_view};

use crate::form_admission::{is_among_names, is_of};
use crate::leaf_surveys::Stage;
use crate::style_walk::Walk;
use rendering_leaves::SpecialForm;
use rendering_style::{Names, Node};
use rendering_taxonomy::NameVariable;

impl<'t, 's, 'a> Stage<'t, 's, 'a> {
    /// Whether the form shuts the substitute of the names out.
    pub(crate) fn is_shut_out(&self, levels: usize, names: &Names, substitute: &[Node]) -> bool
        ensures { result ≡ is_shut_out_by (form_view self.now.form) (names_node_view names.now)
            (each_node (open_node levels (macros_of self.now.walk.now))
            (nodes_view substitute.now)) }
    {
        match self.form {
            SpecialForm::WithoutAuthor => is_of(NameVariable::Author, names),
            SpecialForm::WithoutNames(variable) => {
                let variables = names.variables.as_slice();
                self.walk
                    .holds_names_of(levels, variable, variables, substitute)
            }
            SpecialForm::Whole
            | SpecialForm::AuthorOnly(_)
            | SpecialForm::FirstDateOnly
            | SpecialForm::SuffixOnly
            | SpecialForm::AuthorsAlone(_) => false,
        }
    }

    /// How far the call has come in the substitute of names.
    pub(crate) fn in_substitute_of(
        &self,
        levels: usize,
        names: &Names,
        substitute: &[Node],
    ) -> Stage<'t, 's, 'a>
        ensures stage { (a : Answers) → stage_view a result
            ≡ in_substitute_of (names_node_view names.now)
            (each_node (open_node levels (macros_of self.now.walk.now)) (nodes_view substitute.now))
            (stage_view a self.now) }
        ensures macros { macros_of result.walk.now ≡ macros_of self.now.walk.now }
    {
        let variables = names.variables.as_slice();
        let form = self
            .walk
            .substitute_form(self.form, levels, variables, substitute);
        Stage { form, ..*self }
    }
}

impl Walk<'_, '_> {
    /// The form of the substitute of names of these variables. Where the names of a variable are printed alone, all is printed of what
    /// stands for names that hold those.
    pub(crate) fn substitute_form(
        &self,
        form: SpecialForm,
        levels: usize,
        variables: &[NameVariable],
        substitute: &[Node],
    ) -> SpecialForm
        ensures { form_view result ≡ substitute_form (form_view form) variables.now
            (each_node (open_node levels (macros_of self.now)) (nodes_view substitute.now)) }
    {
        match form {
            SpecialForm::AuthorsAlone(variable) => {
                self.alone_unless(levels, variable, variables, substitute)
            }
            _ => form,
        }
    }

    /// All, where the names hold those of the variable, and else its names alone.
    fn alone_unless(
        &self,
        levels: usize,
        variable: NameVariable,
        variables: &[NameVariable],
        substitute: &[Node],
    ) -> SpecialForm
        ensures { form_view result ≡ substitute_form (authors_alone variable) variables.now
            (each_node (open_node levels (macros_of self.now)) (nodes_view substitute.now)) }
    {
        if self.holds_names_of(levels, variable, variables, substitute) {
            SpecialForm::Whole
        } else {
            SpecialForm::AuthorsAlone(variable)
        }
    }

    /// Whether names of these variables hold those of a variable: it is one of these, or its names would stand for them.
    pub(crate) fn holds_names_of(
        &self,
        levels: usize,
        variable: NameVariable,
        variables: &[NameVariable],
        substitute: &[Node],
    ) -> bool
        ensures { result ≡ holds_names_of variable variables.now
            (each_node (open_node levels (macros_of self.now)) (nodes_view substitute.now)) }
    {
        is_among_names(variable, variables) || self.have_names_of(levels, variable, substitute)
    }

    /// Whether one of the nodes is names of the variable.
    #[tactic(auto, using(crate::proofs::LeftOutSteps::names_here, crate::proofs::LeftOutSteps::names_on))]
    fn have_names_of(&self, levels: usize, variable: NameVariable, nodes: &[Node]) -> bool
        ensures { result ≡ have_names_of variable
            (each_node (open_node levels (macros_of self.now)) (nodes_view nodes.now)) }
    {
        for node in nodes {
            if self.is_names_of(levels, variable, node) {
                return true;
            }
        }
        false
    }

    /// Whether the node is.
    #[tactic(auto, using(crate::proofs::LeftOutSteps::text_is_no_names, crate::proofs::LeftOutSteps::names_are))]
    fn is_names_of(&self, levels: usize, variable: NameVariable, node: &Node) -> bool
        ensures { result
            ≡ is_names_of variable (open_node levels (macros_of self.now) (node_view node.now)) }
    {
        if levels == 0 {
            return false;
        }
        match node {
            Node::Names(names, _) => is_of(variable, names),
            Node::Text(_) => false,
            Node::Number(_) | Node::Label(_) | Node::Date(_) => false,
            Node::Choose(_, _) | Node::Group(_, _) => false,
        }
    }
}
