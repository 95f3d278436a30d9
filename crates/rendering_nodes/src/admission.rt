//! Surveys of nodes that contain others. A macro is opened where it is called, down to so many levels of nodes; nothing is
//! printed of what lies deeper.

ghost use Rattle.std.specs.Prelude.{◌≡◌, suc, map, IfOk};
ghost use Rattle.rendering_nodes.specs.Findings.{all_asked, next_asked, node_asked};
ghost use Rattle.rendering_nodes.specs.Views.{macros_of, stage_view, survey_view};
ghost use Rattle.rendering_style.specs.Nodes as nodes;
ghost use Rattle.rendering_style.specs.Opening.{each_branch, each_node, macro_named, open_node, part};
ghost use Rattle.rendering_style.specs.Views.{branch_view, branches_of, names_node_view, node_view, nodes_view, text_node_view, text_look_view};

use crate::finding::{Finding, push_nothing_found, put_finding};
use crate::form_admission::allows_names;
use crate::leaf_surveys::Stage;
use crate::survey::Survey;
use rendering_entries::EntryLike;
use rendering_style::{ChooseBranch, Names, Node, Text, TextTarget};
use std::alloc::AllocError;

impl<'a> Stage<'_, '_, 'a> {
    /// Surveys all nodes together. What is found of each is appended to the findings.
    #[cycle(surveys)]
    pub(crate) fn survey_all<E: EntryLike>(
        &self,
        entry: &'a E,
        levels: usize,
        nodes: &'a [Node],
        findings: &mut Vec<Finding>,
    ) -> Result<Survey, AllocError>
        ensures { IfOk result (λ v. (survey_view v, findings.new.items)
            ≡ all_asked (stage_view (E.answers entry.now) self.now) findings.old.items
            (each_node (open_node levels (macros_of self.now.walk.now)) (nodes_view nodes.now))) }
    {
        let mut found = Survey::nothing();
        for node in nodes {
            let next = self.survey_next(entry, levels, node, findings)?;
            found = found.with(next);
        }
        Ok(found)
    }

    /// Surveys a node among several. What is found of it is appended before what is found of the nodes inside it.
    #[cycle(surveys)]
    fn survey_next<E: EntryLike>(
        &self,
        entry: &'a E,
        levels: usize,
        node: &'a Node,
        findings: &mut Vec<Finding>,
    ) -> Result<Survey, AllocError>
        ensures { IfOk result (λ v. (survey_view v, findings.new.items)
            ≡ next_asked (stage_view (E.answers entry.now) self.now) findings.old.items
            (open_node levels (macros_of self.now.walk.now) (node_view node.now))) }
    {
        let index = findings.len();
        push_nothing_found(findings)?;
        let survey = self.survey_node(entry, levels, node, findings)?;
        put_finding(findings, index, survey);
        Ok(survey)
    }

    /// Surveys a node. What is found of the nodes inside it is appended to the findings.
    #[cycle(surveys)]
    pub(crate) fn survey_node<E: EntryLike>(
        &self,
        entry: &'a E,
        levels: usize,
        node: &'a Node,
        findings: &mut Vec<Finding>,
    ) -> Result<Survey, AllocError>
        ensures { IfOk result (λ v. (survey_view v, findings.new.items)
            ≡ node_asked (stage_view (E.answers entry.now) self.now) findings.old.items
            (open_node levels (macros_of self.now.walk.now) (node_view node.now))) }
    {
        if levels == 0 {
            return Ok(Survey::nothing());
        }
        match node {
            Node::Text(text) => self.survey_text(entry, levels - 1, text, findings),
            Node::Number(number) => self.survey_number(entry, number),
            Node::Label(label) => self.survey_label(entry, label),
            Node::Date(date) => Ok(self.survey_date(entry, date)),
            Node::Names(names, substitute) => self.survey_names(
                entry,
                levels - 1,
                names,
                substitute,
                findings,
            ),
            Node::Choose(branches, otherwise) => {
                self.survey_choose(entry, levels - 1, branches, otherwise, findings)
            }
            Node::Group(_, children) => {
                let inside = self.survey_all(entry, levels - 1, children, findings)?;
                Ok(inside.of_group())
            }
        }
    }

    #[cycle(surveys)]
    fn survey_text<E: EntryLike>(
        &self,
        entry: &'a E,
        levels: usize,
        text: &'a Text,
        findings: &mut Vec<Finding>,
    ) -> Result<Survey, AllocError>
        ensures { IfOk result (λ v. (survey_view v, findings.new.items)
            ≡ node_asked (stage_view (E.answers entry.now) self.now) findings.old.items
            (open_node (suc levels) (macros_of self.now.walk.now)
            (text_node_view text.now.target (text_look_view text.now.look)))) }
    {
        match &text.target {
            TextTarget::Variable(variable, form) => self.survey_variable(entry, *variable, *form),
            TextTarget::Macro(name) => self.survey_macro(entry, levels, name.as_str(), findings),
            TextTarget::Term(term, form, plural) => Ok(self.survey_term(*term, *form, *plural)),
            TextTarget::Value(value) => Ok(self.survey_value(value.as_str())),
        }
    }

    /// Surveys the macro of that name, or no node where there is none.
    #[cycle(surveys)]
    fn survey_macro<E: EntryLike>(
        &self,
        entry: &'a E,
        levels: usize,
        name: &'a str,
        findings: &mut Vec<Finding>,
    ) -> Result<Survey, AllocError>
        ensures { IfOk result (λ v. (look : nodes.TextLook) → (survey_view v, findings.new.items)
            ≡ node_asked (stage_view (E.answers entry.now) self.now) findings.old.items
            (part (open_node levels (macros_of self.now.walk.now)) name.now look
            (macro_named (macros_of self.now.walk.now) name.now))) }
    {
        match self.walk.style.macro_named(name) {
            Some(nodes) => {
                let inside = self.survey_all(entry, levels, nodes, findings)?;
                Ok(inside.of_macro())
            }
            None => Ok(Survey::nothing()),
        }
    }

    /// Surveys names: themselves where they have people, else all of their substitute, unless that is shut out.
    #[cycle(surveys)]
    fn survey_names<E: EntryLike>(
        &self,
        entry: &'a E,
        levels: usize,
        names: &'a Names,
        substitute: &'a [Node],
        findings: &mut Vec<Finding>,
    ) -> Result<Survey, AllocError>
        ensures { IfOk result (λ v. (survey_view v, findings.new.items)
            ≡ node_asked (stage_view (E.answers entry.now) self.now) findings.old.items
            (nodes.names (names_node_view names.now) (each_node
            (open_node levels (macros_of self.now.walk.now)) (nodes_view substitute.now)))) }
    {
        if self.has_people(entry, names)? {
            return Ok(Survey::of_variable(allows_names(self.form, names)));
        }
        let is_shut_out = self.is_shut_out(levels, names, substitute);
        if is_shut_out {
            return Ok(Survey::of_variable(false));
        }
        let stage = self.in_substitute_of(levels, names, substitute);
        let inside = stage.survey_all(entry, levels, substitute, findings)?;
        Ok(inside.of_substitute(self.form))
    }

    /// Surveys the branch that is taken.
    #[cycle(surveys)]
    fn survey_choose<E: EntryLike>(
        &self,
        entry: &'a E,
        levels: usize,
        branches: &'a [ChooseBranch],
        otherwise: &'a [Node],
        findings: &mut Vec<Finding>,
    ) -> Result<Survey, AllocError>
        ensures { IfOk result (λ v. (survey_view v, findings.new.items)
            ≡ node_asked (stage_view (E.answers entry.now) self.now) findings.old.items
            (nodes.choose (each_branch (open_node levels (macros_of self.now.walk.now))
            (branches_of (map branch_view branches.now) (nodes_view otherwise.now))))) }
    {
        let taken = self.walk.taken(entry, branches, otherwise)?;
        let inside = self.survey_all(entry, levels, taken.nodes, findings)?;
        Ok(inside.after_tests(taken.met))
    }
}
