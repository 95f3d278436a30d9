//! What nodes add to a page. A macro is opened where it is called, down to so many levels of nodes; nothing is printed of what lies
//! deeper.

ghost use Rattle.std.specs.Prelude.{◌≡◌, suc, map, true, IfOk, IfSome, OnOk, Option, None, Some};
ghost use Rattle.std.specs.Option.{option_map};
ghost use Rattle.rendering_entries.specs.Answers.{Answers};
ghost use Rattle.rendering_leaves.specs.NodeSettings.{noted};
ghost use Rattle.rendering_leaves.specs.Views.{setting_view};
ghost use Rattle.rendering_names.specs.Views.{names_parts_view};
ghost use Rattle.rendering_nodes.specs.Admission.{substitute_form};
ghost use Rattle.rendering_nodes.specs.Content.{accepted, content, contents, delimited_node, first_substitute, tried};
ghost use Rattle.rendering_nodes.specs.Findings.{AreFound, AreFoundInside, IsFound, IsKnown, IsSurveyed};
ghost use Rattle.rendering_nodes.specs.Turns.{is_next, append_next, in_delimited, names_appended, settled, append_substitute, is_substitute, substituted};
ghost use Rattle.rendering_nodes.specs.Views.{macros_of, opened_list, opened_node, walk_context};
ghost use Rattle.rendering_page.specs.Pages.{prints};
ghost use Rattle.rendering_style.specs.Nodes as nodes;
ghost use Rattle.rendering_style.specs.Opening.{each_branch, each_node, macro_named, open_node, part};
ghost use Rattle.rendering_style.specs.Views.{branch_view, branches_of, group_node_view, nodes_view, text_node_view, text_look_view};

use crate::elements::{delimited_frame, delimits_printed};
use crate::finding::{Findings, Known, NodeFinding, Surveyed};
use crate::inner_settings::{inside_group, inside_macro, inside_names, names_in, taken_around};
use crate::style_walk::Walk;
use rendering_entries::EntryLike;
use rendering_leaves::{
    NodeSetting, State, push_date, push_label, push_number, push_term, push_value, push_variable,
};
use rendering_names::NamesParts;
use rendering_style::{ChooseBranch, Group, Node, Text, TextLook, TextTarget};
use std::alloc::AllocError;
use std::mem;

impl<'a> Walk<'_, 'a> {
    /// Prints nodes one after the other that were not surveyed, each that is admitted, with the delimiter of the group around
    /// between them.
    pub(crate) fn push_unsurveyed<E: EntryLike>(
        &self,
        entry: &'a E,
        setting: &NodeSetting<'a>,
        levels: usize,
        nodes: &'a [Node],
        state: &mut State<'a>,
    ) -> Result<(), AllocError>
        ensures { OnOk result (state.new
            ≡ contents (walk_context (E.answers entry.now) self.now) (setting_view setting.now) true
            (each_node (open_node levels (macros_of self.now)) (nodes_view nodes.now)) state.old) }
    {
        self.push_all(entry, setting, levels, nodes, Findings::nothing(), state)
    }

    /// Prints nodes one after the other, each that is admitted, with the delimiter of the group around between them.
    #[cycle(contents)]
    fn push_all<E: EntryLike>(
        &self,
        entry: &'a E,
        setting: &NodeSetting<'a>,
        levels: usize,
        nodes: &'a [Node],
        findings: Findings<'_>,
        state: &mut State<'a>,
    ) -> Result<(), AllocError>
        requires { AreFound (walk_context (E.answers entry.now) self.now)
            (setting_view setting.now).form findings (opened_list levels self.now nodes.now) }
        ensures { OnOk result (state.new
            ≡ contents (walk_context (E.answers entry.now) self.now) (setting_view setting.now) true
            (opened_list levels self.now nodes.now) state.old) }
    {
        let mut is_first = true;
        let mut rest = findings;
        for node in nodes {
            let finding = rest.take_first(setting.form, state);
            let is_admitted = self.push_next(
                entry, setting, levels, is_first, node, finding, state,
            )?;
            is_first = is_first && !is_admitted;
        }
        Ok(())
    }

    /// Prints a node, if it is admitted, after the delimiter of the group around. It is surveyed where nothing is known of it. Returns
    /// whether it is admitted.
    #[cycle(contents)]
    fn push_next<E: EntryLike>(
        &self,
        entry: &'a E,
        setting: &NodeSetting<'a>,
        levels: usize,
        is_first: bool,
        node: &'a Node,
        finding: Option<NodeFinding<'_>>,
        state: &mut State<'a>,
    ) -> Result<bool, AllocError>
        requires { IfSome finding (λ n. IsFound (walk_context (E.answers entry.now) self.now)
            (setting_view setting.now) state.old n (opened_node levels self.now node.now)) }
        ensures admitted { IfOk result (λ b. b
            ≡ is_next (walk_context (E.answers entry.now) self.now) (setting_view setting.now)
            (opened_node levels self.now node.now) state.old) }
        ensures state { OnOk result (state.new
            ≡ append_next (walk_context (E.answers entry.now) self.now) (setting_view setting.now)
            is_first (opened_node levels self.now node.now) state.old) }
    {
        let known = self.survey_unless_known(entry, setting, levels, node, finding, state)?;
        let finding = known.finding();
        self.push_found(entry, setting, levels, is_first, node, finding, state)
    }

    /// Prints a node that was surveyed, if it is admitted, after the delimiter of the group around. Returns whether it is.
    #[cycle(contents)]
    fn push_found<E: EntryLike>(
        &self,
        entry: &'a E,
        setting: &NodeSetting<'a>,
        levels: usize,
        is_first: bool,
        node: &'a Node,
        finding: NodeFinding<'_>,
        state: &mut State<'a>,
    ) -> Result<bool, AllocError>
        requires { IsFound (walk_context (E.answers entry.now) self.now) (setting_view setting.now)
            state.old finding (opened_node levels self.now node.now) }
        ensures admitted { IfOk result (λ b. b
            ≡ is_next (walk_context (E.answers entry.now) self.now) (setting_view setting.now)
            (opened_node levels self.now node.now) state.old) }
        ensures state { OnOk result (state.new
            ≡ append_next (walk_context (E.answers entry.now) self.now) (setting_view setting.now)
            is_first (opened_node levels self.now node.now) state.old) }
    {
        if !finding.admits(state) {
            return Ok(false);
        }
        self.push_admitted(
            entry,
            setting,
            levels,
            is_first,
            node,
            finding.inside,
            state,
        )?;
        Ok(true)
    }

    /// Prints a node that is admitted, after the delimiter of the group around. In a published style both are removed if the node
    /// prints nothing.
    #[cycle(contents)]
    fn push_admitted<E: EntryLike>(
        &self,
        entry: &'a E,
        setting: &NodeSetting<'a>,
        levels: usize,
        is_first: bool,
        node: &'a Node,
        findings: Findings<'_>,
        state: &mut State<'a>,
    ) -> Result<(), AllocError>
        requires { AreFoundInside (walk_context (E.answers entry.now) self.now)
            (setting_view setting.now).form findings (opened_node levels self.now node.now) }
        ensures { OnOk result (state.new
            ≡ delimited_node (walk_context (E.answers entry.now) self.now)
            (setting_view setting.now) is_first
            (content (walk_context (E.answers entry.now) self.now) None (setting_view setting.now)
            (opened_node levels self.now node.now)) state.old) }
    {
        if delimits_printed(setting, state) {
            return self.push_delimited(entry, setting, levels, node, findings, state);
        }
        self.push_delimiter(setting, is_first, state)?;
        self.push_node(entry, setting, levels, None, node, findings, state)
    }

    /// Prints a node in an element with the delimiter of the group around before it, which is removed if the node prints nothing.
    #[cycle(contents)]
    fn push_delimited<E: EntryLike>(
        &self,
        entry: &'a E,
        setting: &NodeSetting<'a>,
        levels: usize,
        node: &'a Node,
        findings: Findings<'_>,
        state: &mut State<'a>,
    ) -> Result<(), AllocError>
        requires { AreFoundInside (walk_context (E.answers entry.now) self.now)
            (setting_view setting.now).form findings (opened_node levels self.now node.now) }
        ensures { OnOk result (state.new
            ≡ in_delimited (walk_context (E.answers entry.now) self.now) (setting_view setting.now)
            (opened_node levels self.now node.now) state.old) }
    {
        let frame = delimited_frame(setting, state);
        self.begin_delimited(&frame, state)?;
        self.push_node(entry, setting, levels, None, node, findings, state)?;
        self.end_delimited(&frame, state)
    }

    /// What is known of a node, or else what a survey finds of it.
    fn survey_unless_known<'t, E: EntryLike>(
        &self,
        entry: &'a E,
        setting: &NodeSetting<'a>,
        levels: usize,
        node: &'a Node,
        finding: Option<NodeFinding<'t>>,
        state: &State<'a>,
    ) -> Result<Known<'t>, AllocError>
        requires { IfSome finding (λ n. IsFound (walk_context (E.answers entry.now) self.now)
            (setting_view setting.now) state.now n (opened_node levels self.now node.now)) }
        ensures { IfOk result (λ k. IsKnown (walk_context (E.answers entry.now) self.now)
            (setting_view setting.now) state.now k (opened_node levels self.now node.now)) }
    {
        match finding {
            Some(finding) => Ok(Known::Before(finding)),
            None => {
                let surveyed = self.surveyed(entry, setting, levels, node, state)?;
                Ok(Known::Now(surveyed))
            }
        }
    }

    /// What a survey finds of a node.
    fn surveyed<E: EntryLike>(
        &self,
        entry: &'a E,
        setting: &NodeSetting<'a>,
        levels: usize,
        node: &'a Node,
        state: &State<'a>,
    ) -> Result<Surveyed, AllocError>
        ensures { IfOk result (λ n. IsSurveyed (walk_context (E.answers entry.now) self.now)
            (setting_view setting.now) state.now n (opened_node levels self.now node.now)) }
    {
        let mut inside = Vec::new(self.context.alloc);
        let stage = self.stage(setting.form, state);
        let found = stage.survey_node(entry, levels, node, &mut inside)?;
        Ok(Surveyed {
            is_admitted: found.is_admitted,
            met: found.met,
            has_date: state.has_date,
            suppressed: state.suppressed.clone()?,
            inside,
        })
    }

    /// Prints a node. `outer` are the names whose substitute it stands in directly.
    #[cycle(contents)]
    fn push_node<E: EntryLike>(
        &self,
        entry: &'a E,
        setting: &NodeSetting<'a>,
        levels: usize,
        outer: Option<&NamesParts<'a>>,
        node: &'a Node,
        findings: Findings<'_>,
        state: &mut State<'a>,
    ) -> Result<(), AllocError>
        requires { AreFoundInside (walk_context (E.answers entry.now) self.now)
            (setting_view setting.now).form findings (opened_node levels self.now node.now) }
        ensures { OnOk result (state.new ≡ content (walk_context (E.answers entry.now) self.now)
            (option_map (λ n. names_parts_view n.now) outer.entry) (setting_view setting.now)
            (opened_node levels self.now node.now) state.old) }
    {
        if levels == 0 {
            return Ok(());
        }
        let inner = levels - 1;
        match node {
            Node::Text(text) => self.push_text(entry, setting, inner, text, findings, state),
            Node::Number(number) => push_number(&self.context, entry, setting, number, state),
            Node::Label(label) => push_label(&self.context, entry, setting, label, state),
            Node::Date(date) => push_date(&self.context, entry, setting, date, state),
            Node::Names(names, substitute) => {
                let is_published = self.context.is_published;
                let parts = taken_around(is_published, outer, setting, names);
                self.push_names(entry, setting, inner, &parts, substitute, findings, state)
            }
            Node::Choose(branches, otherwise) => {
                self.push_choose(entry, setting, inner, branches, otherwise, findings, state)
            }
            Node::Group(group, children) => {
                self.push_group(entry, setting, inner, group, children, findings, state)
            }
        }
    }

    /// Prints a text.
    #[cycle(contents)]
    fn push_text<E: EntryLike>(
        &self,
        entry: &'a E,
        setting: &NodeSetting<'a>,
        levels: usize,
        text: &'a Text,
        findings: Findings<'_>,
        state: &mut State<'a>,
    ) -> Result<(), AllocError>
        requires { AreFoundInside (walk_context (E.answers entry.now) self.now)
            (setting_view setting.now).form findings (open_node (suc levels) (macros_of self.now)
            (text_node_view text.now.target (text_look_view text.now.look))) }
        ensures { (outer : Option nodes.NamesNode)
            → OnOk result (state.new ≡ content (walk_context (E.answers entry.now) self.now) outer
            (setting_view setting.now) (open_node (suc levels) (macros_of self.now)
            (text_node_view text.now.target (text_look_view text.now.look))) state.old) }
    {
        let look = &text.look;
        match &text.target {
            TextTarget::Variable(variable, form) => {
                push_variable(&self.context, entry, setting, *variable, *form, look, state)
            }
            TextTarget::Macro(name) => {
                self.push_macro(entry, setting, levels, name.as_str(), look, findings, state)
            }
            TextTarget::Term(term, form, plural) => {
                push_term(&self.context, setting, *term, *form, *plural, look, state)
            }
            TextTarget::Value(value) => {
                push_value(&self.context, setting, value.as_str(), look, state)
            }
        }
    }

    /// Prints the macro of that name in an element; where there is none, nothing.
    #[cycle(contents)]
    fn push_macro<E: EntryLike>(
        &self,
        entry: &'a E,
        setting: &NodeSetting<'a>,
        levels: usize,
        name: &'a str,
        look: &'a TextLook,
        findings: Findings<'_>,
        state: &mut State<'a>,
    ) -> Result<(), AllocError>
        requires { AreFoundInside (walk_context (E.answers entry.now) self.now)
            (setting_view setting.now).form findings (part (open_node levels (macros_of self.now))
            name.now (text_look_view look.now) (macro_named (macros_of self.now) name.now)) }
        ensures { (outer : Option nodes.NamesNode)
            → OnOk result (state.new ≡ content (walk_context (E.answers entry.now) self.now) outer
            (setting_view setting.now) (part (open_node levels (macros_of self.now)) name.now
            (text_look_view look.now) (macro_named (macros_of self.now) name.now)) state.old) }
    {
        let Some(nodes) = self.style.macro_named(name) else {
            return Ok(());
        };
        self.begin_macro(setting, look, state)?;
        let inside = inside_macro(setting, look);
        self.push_all(entry, &inside, levels, nodes, findings, state)?;
        self.end_macro(setting, look, state)
    }

    /// Prints a group in an element.
    #[cycle(contents)]
    fn push_group<E: EntryLike>(
        &self,
        entry: &'a E,
        setting: &NodeSetting<'a>,
        levels: usize,
        group: &'a Group,
        children: &'a [Node],
        findings: Findings<'_>,
        state: &mut State<'a>,
    ) -> Result<(), AllocError>
        requires { AreFound (walk_context (E.answers entry.now) self.now)
            (setting_view setting.now).form findings (opened_list levels self.now children.now) }
        ensures { (outer : Option nodes.NamesNode)
            → OnOk result (state.new ≡ content (walk_context (E.answers entry.now) self.now) outer
            (setting_view setting.now) (nodes.group (group_node_view group.now)
            (opened_list levels self.now children.now)) state.old) }
    {
        self.begin_group(setting, group, state)?;
        let inside = inside_group(setting, group);
        self.push_all(entry, &inside, levels, children, findings, state)?;
        self.end_group(setting, group, state)
    }

    /// Prints the branch that is taken.
    #[cycle(contents)]
    fn push_choose<E: EntryLike>(
        &self,
        entry: &'a E,
        setting: &NodeSetting<'a>,
        levels: usize,
        branches: &'a [ChooseBranch],
        otherwise: &'a [Node],
        findings: Findings<'_>,
        state: &mut State<'a>,
    ) -> Result<(), AllocError>
        requires { AreFoundInside (walk_context (E.answers entry.now) self.now)
            (setting_view setting.now).form findings
            (nodes.choose (each_branch (open_node levels (macros_of self.now))
            (branches_of (map branch_view branches.now) (nodes_view otherwise.now)))) }
        ensures { (outer : Option nodes.NamesNode) → OnOk result (state.new
            ≡ content (walk_context (E.answers entry.now) self.now) outer (setting_view setting.now)
            (nodes.choose (each_branch (open_node levels (macros_of self.now))
            (branches_of (map branch_view branches.now) (nodes_view otherwise.now)))) state.old) }
    {
        let taken = self.taken(entry, branches, otherwise)?;
        state.note(taken.met);
        self.push_all(entry, setting, levels, taken.nodes, findings, state)
    }

    /// Prints names with people, or their substitute. The parts are what the node says, with what it takes from the names whose substitute
    /// it is.
    #[cycle(contents)]
    fn push_names<E: EntryLike>(
        &self,
        entry: &'a E,
        setting: &NodeSetting<'a>,
        levels: usize,
        parts: &NamesParts<'a>,
        substitute: &'a [Node],
        findings: Findings<'_>,
        state: &mut State<'a>,
    ) -> Result<(), AllocError>
        requires { AreFound (walk_context (E.answers entry.now) self.now)
            (substitute_form (setting_view setting.now).form (names_parts_view parts.now).variables
            (opened_list levels self.now substitute.now))
            findings (opened_list levels self.now substitute.now) }
        ensures { OnOk result (state.new
            ≡ names_appended (walk_context (E.answers entry.now) self.now)
            (setting_view setting.now) (names_parts_view parts.now)
            (opened_list levels self.now substitute.now) state.old) }
    {
        let people = self
            .context
            .people(entry, state.suppressed.as_slice(), parts.variables)?;
        let own = names_in(setting, parts);
        if people.is_empty() {
            return self.push_substitute(entry, setting, levels, &own, substitute, findings, state);
        }
        self.push_people(setting, &own, people.as_slice(), state)
    }

    /// Prints the element of names, with their substitute.
    #[cycle(contents)]
    fn push_substitute<E: EntryLike>(
        &self,
        entry: &'a E,
        setting: &NodeSetting<'a>,
        levels: usize,
        names: &NamesParts<'a>,
        substitute: &'a [Node],
        findings: Findings<'_>,
        state: &mut State<'a>,
    ) -> Result<(), AllocError>
        requires { AreFound (walk_context (E.answers entry.now) self.now)
            (substitute_form (setting_view setting.now).form (names_parts_view names.now).variables
            (opened_list levels self.now substitute.now))
            findings (opened_list levels self.now substitute.now) }
        ensures { OnOk result (state.new ≡ substituted (walk_context (E.answers entry.now) self.now)
            (setting_view setting.now) (names_parts_view names.now)
            (opened_list levels self.now substitute.now) state.old) }
    {
        self.begin_names(setting, names, state)?;
        let form = self.substitute_form(setting.form, levels, names.variables, substitute);
        let inside = inside_names(setting, names, form);
        self.push_first(entry, &inside, levels, names, substitute, findings, state)?;
        self.end_names(setting, names, state)
    }

    /// Prints the first node that prints something. `outer` are the names whose substitute it stands in directly.
    #[cycle(contents)]
    fn push_first<E: EntryLike>(
        &self,
        entry: &'a E,
        setting: &NodeSetting<'a>,
        levels: usize,
        outer: &NamesParts<'a>,
        substitute: &'a [Node],
        findings: Findings<'_>,
        state: &mut State<'a>,
    ) -> Result<(), AllocError>
        requires { AreFound (walk_context (E.answers entry.now) self.now)
            (setting_view setting.now).form findings (opened_list levels self.now substitute.now) }
        ensures { OnOk result (state.new
            ≡ first_substitute (walk_context (E.answers entry.now) self.now)
            (names_parts_view outer.now) (setting_view setting.now)
            (opened_list levels self.now substitute.now) state.old) }
    {
        let mut rest = findings;
        for node in substitute {
            let finding = rest.take_first(setting.form, state);
            if self.push_substitute_node(entry, setting, levels, outer, node, finding, state)? {
                return Ok(());
            }
        }
        Ok(())
    }

    /// Prints a node, if it prints something, and returns whether it does. It is surveyed where nothing is known of it. Of a node
    /// that prints nothing only this remains: whether the test `disambiguate` was evaluated.
    #[cycle(contents)]
    fn push_substitute_node<E: EntryLike>(
        &self,
        entry: &'a E,
        setting: &NodeSetting<'a>,
        levels: usize,
        outer: &NamesParts<'a>,
        node: &'a Node,
        finding: Option<NodeFinding<'_>>,
        state: &mut State<'a>,
    ) -> Result<bool, AllocError>
        requires { IfSome finding (λ n. IsFound (walk_context (E.answers entry.now) self.now)
            (setting_view setting.now) state.old n (opened_node levels self.now node.now)) }
        ensures printed { IfOk result (λ b. b ≡ is_substitute
            (walk_context (E.answers entry.now) self.now) (names_parts_view outer.now)
            (setting_view setting.now) (opened_node levels self.now node.now) state.old) }
        ensures state { OnOk result (state.new ≡ append_substitute
            (walk_context (E.answers entry.now) self.now) (names_parts_view outer.now)
            (setting_view setting.now) (opened_node levels self.now node.now) state.old) }
    {
        let known = self.survey_unless_known(entry, setting, levels, node, finding, state)?;
        let finding = known.finding();
        self.push_tried(entry, setting, levels, outer, node, finding, state)
    }

    /// Prints a node that was surveyed, if it prints something, and returns whether it does.
    #[cycle(contents)]
    fn push_tried<E: EntryLike>(
        &self,
        entry: &'a E,
        setting: &NodeSetting<'a>,
        levels: usize,
        outer: &NamesParts<'a>,
        node: &'a Node,
        finding: NodeFinding<'_>,
        state: &mut State<'a>,
    ) -> Result<bool, AllocError>
        requires { IsFound (walk_context (E.answers entry.now) self.now) (setting_view setting.now)
            state.old finding (opened_node levels self.now node.now) }
        ensures printed { IfOk result (λ b. b ≡ is_substitute
            (walk_context (E.answers entry.now) self.now) (names_parts_view outer.now)
            (setting_view setting.now) (opened_node levels self.now node.now) state.old) }
        ensures state { OnOk result (state.new ≡ append_substitute
            (walk_context (E.answers entry.now) self.now) (names_parts_view outer.now)
            (setting_view setting.now) (opened_node levels self.now node.now) state.old) }
    {
        if !finding.admits(state) {
            return Ok(false);
        }
        let done = self.tried(entry, setting, levels, outer, node, finding.inside, state)?;
        self.accept(setting, done, state)
    }

    /// What a call has printed once a node is printed that is a substitute for names.
    #[cycle(contents)]
    fn tried<E: EntryLike>(
        &self,
        entry: &'a E,
        setting: &NodeSetting<'a>,
        levels: usize,
        outer: &NamesParts<'a>,
        node: &'a Node,
        findings: Findings<'_>,
        state: &State<'a>,
    ) -> Result<State<'a>, AllocError>
        requires { AreFoundInside (walk_context (E.answers entry.now) self.now)
            (setting_view setting.now).form findings (opened_node levels self.now node.now) }
        ensures { IfOk result (λ done. done ≡ content (walk_context (E.answers entry.now) self.now)
            (Some (names_parts_view outer.now)) (setting_view setting.now)
            (opened_node levels self.now node.now) (tried
            (walk_context (E.answers entry.now) self.now) (setting_view setting.now) state.now)) }
    {
        let mut done = state.copied()?;
        self.begin_bare(setting, &mut done)?;
        self.push_node(
            entry,
            setting,
            levels,
            Some(outer),
            node,
            findings,
            &mut done,
        )?;
        Ok(done)
    }

    /// Takes over the state of what was tried, if that printed something, and returns whether it did; else only notes whether the
    /// test `disambiguate` was evaluated there.
    fn accept(
        &self,
        setting: &NodeSetting<'a>,
        done: State<'a>,
        state: &mut State<'a>,
    ) -> Result<bool, AllocError>
        ensures printed { IfOk result (λ b. b ≡ prints 0 done.entry.page.tokens) }
        ensures state { (a : Answers) → OnOk result (state.new
            ≡ settled (walk_context a self.now) (setting_view setting.now) done.entry state.old) }
    {
        if !has_printed_in(&done) {
            note_met(&done, state);
            return Ok(false);
        }
        let done = self.ended(setting, done)?;
        let _before = mem::replace(state, done);
        Ok(true)
    }

    /// Ends the element of what was tried: the substitute stands.
    fn ended(&self, setting: &NodeSetting<'a>, done: State<'a>) -> Result<State<'a>, AllocError>
        ensures { (a : Answers) → IfOk result (λ s. s
            ≡ accepted (walk_context a self.now) (setting_view setting.now) done.entry) }
    {
        let mut done = done;
        self.end_bare(setting, &mut done)?;
        done.stand()?;
        Ok(done)
    }
}

/// Whether something was printed in the element that was begun last.
fn has_printed_in(state: &State<'_>) -> bool
    ensures { result ≡ prints 0 state.now.page.tokens }
{
    state.page.has_printed()
}

/// Notes whether the test `disambiguate` was evaluated in the other state.
fn note_met(done: &State<'_>, state: &mut State<'_>)
    ensures { state.new ≡ noted done.now.met_disambiguate state.old }
{
    state.note(done.met_disambiguate);
}
