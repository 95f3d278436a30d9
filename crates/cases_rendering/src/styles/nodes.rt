//! Nodes of styles.

use crate::styles::conditions::condition;
use crate::styles::leaves::leaf;
use crate::styles::looks::look;
use crate::styles::names::names_of;
use cases::{Session, Value};
use rendering_style::{ChooseBranch, Group, Node};

/// How deep nodes may nest.
const DEPTH: u32 = 400;

/// The nodes of a list.
pub(crate) fn nodes_of(session: &mut Session, object: &Value<'_>, name: &'static str) -> Vec<Node> {
    nodes(session, object, name, DEPTH)
}

/// The nodes of a list, which nest at most so deep; one that is left out is empty.
#[cycle(reading)]
fn nodes(session: &mut Session, object: &Value<'_>, name: &'static str, depth: u32) -> Vec<Node> {
    let mut nodes = Vec::new(session.alloc);
    let Some(items) = session.items(object, name) else {
        return nodes;
    };
    if depth == 0 {
        session.want(name, "nodes less deep in one another");
        return nodes;
    }
    for item in items {
        let node = node(session, item, depth - 1);
        session.push(&mut nodes, node);
    }
    nodes
}

/// A node, in which nodes nest at most so deep.
#[cycle(reading)]
fn node(session: &mut Session, given: &Value<'_>, depth: u32) -> Node {
    match session.text(given, "node") {
        "names" => {
            let names = names_of(session, given);
            Node::Names(names, nodes(session, given, "substitute", depth))
        }
        "choose" => {
            session.only(given, &["node", "branches", "otherwise"]);
            let branches = branches(session, given, depth);
            Node::Choose(branches, nodes(session, given, "otherwise", depth))
        }
        "group" => {
            let group = group(session, given);
            Node::Group(group, nodes(session, given, "nodes", depth))
        }
        kind => leaf(session, given, kind),
    }
}

/// The members of a group.
const GROUP_MEMBERS: [&str; 7] = [
    "node",
    "nodes",
    "delimiter",
    "formatting",
    "prefix",
    "suffix",
    "display",
];

/// A group, without its nodes.
fn group(session: &mut Session, given: &Value<'_>) -> Group {
    session.only(given, &GROUP_MEMBERS);
    Group {
        delimiter: session.maybe_owned_text(given, "delimiter"),
        look: look(session, given),
    }
}

/// The branches of a choose.
#[cycle(reading)]
fn branches(session: &mut Session, given: &Value<'_>, depth: u32) -> Vec<ChooseBranch> {
    let mut branches = Vec::new(session.alloc);
    let Some(items) = session.items(given, "branches") else {
        session.want("branches", "a list");
        return branches;
    };
    for item in items {
        let branch = branch(session, item, depth);
        session.push(&mut branches, branch);
    }
    branches
}

/// The members of a branch.
const BRANCH_MEMBERS: [&str; 9] = [
    "nodes",
    "match",
    "type",
    "variable",
    "is_numeric",
    "is_uncertain_date",
    "locator",
    "position",
    "disambiguate",
];

/// A branch of a choose.
#[cycle(reading)]
fn branch(session: &mut Session, given: &Value<'_>, depth: u32) -> ChooseBranch {
    session.only(given, &BRANCH_MEMBERS);
    let condition = condition(session, given);
    let children = nodes(session, given, "nodes", depth);
    ChooseBranch {
        condition,
        children,
    }
}
