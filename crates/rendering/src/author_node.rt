//! The node for authors for which nothing is specified.

ghost use Rattle.std.specs.Prelude.{◌≡◌, ◌∷◌, [], true, map, IfOk};
ghost use Rattle.rendering_style.specs.Nodes.{names, no_nodes};
ghost use Rattle.rendering_style.specs.Views.{names_node_view, node_view};
ghost use Rattle.rendering.specs.AuthorNodes.{is_made};
ghost use Rattle.rendering.specs.Purposes.{author_node};

use rendering_style::{Look, Names, Node};
use rendering_taxonomy::NameVariable;
use std::alloc::{AllocError, Global};

/// A node for the authors, for which nothing is specified.
#[derive(Debug, Drop)]
pub(crate) struct AuthorNode {
    nodes: Vec<Node>,
    ghost made: { is_made (map node_view nodes.items) ≡ true },
}

impl AuthorNode {
    /// The node.
    ///
    /// # Errors
    /// Out of memory.
    #[tactic(auto, using(crate::proofs::AuthorNodeIs::made_from))]
    pub(crate) fn new(alloc: Global) -> Result<AuthorNode, AllocError> {
        let names = author_names(alloc)?;
        let nodes = Vec::from_array(alloc, [Node::Names(names, Vec::new(alloc))])?;
        Ok(AuthorNode { nodes })
    }

    /// The node alone.
    #[tactic(auto, using(crate::proofs::AuthorNodeIs::made_is))]
    pub(crate) fn nodes(&self) -> &[Node]
        ensures { map node_view result.now ≡ names author_node no_nodes ∷ [] }
    {
        self.nodes.as_slice()
    }
}

/// What is specified for the names of authors: nothing.
fn author_names(alloc: Global) -> Result<Names, AllocError>
    ensures { IfOk result (λ n. names_node_view n ≡ author_node) }
{
    Ok(Names {
        variables: Vec::from_array(alloc, [NameVariable::Author])?,
        name: None,
        et_al: None,
        label: None,
        label_is_first: false,
        merges_editor_translator: false,
        delimiter: None,
        look: Look::plain(alloc),
    })
}
