//! What surveys find of nodes, so that no node is asked twice.

ghost use Rattle.std.specs.Prelude.{◌≡◌, ◌∷◌, ◌++◌, ◌<◌, [], true, drop, length, take, List, IfSome, OnOk};
ghost use Rattle.rendering_context.specs.Contexts.{Context};
ghost use Rattle.rendering_leaves.specs.NodeSettings as settings;
ghost use Rattle.rendering_leaves.specs.Views.{form_view};
ghost use Rattle.rendering_nodes.specs.Admission.{asks_for_date, survey};
ghost use Rattle.rendering_nodes.specs.Content.{stage};
ghost use Rattle.rendering_nodes.specs.Findings.{AreFound, IsFound, IsKnown, IsSurveyed, nothing_found, stage_then, with_finding};
ghost use Rattle.rendering_nodes.specs.Turns.{asked, is_next};
ghost use Rattle.rendering_nodes.specs.Views.{survey_view};
ghost use Rattle.rendering_style.specs.Nodes.{Node, Nodes, node};

use crate::survey::Survey;
use rendering_leaves::{SpecialForm, State};
use rendering_taxonomy::Variable;
use std::alloc::AllocError;

/// What a survey found of a node.
#[derive(Clone, Copy)]
pub(crate) struct Finding {
    pub(crate) is_admitted: bool,
    /// Whether the test `disambiguate` was evaluated on the way.
    pub(crate) met: bool,
    /// How many findings after this one are of nodes inside the node.
    pub(crate) inside: usize,
}

/// What a survey found of nodes, each before those inside it, and how far the call had come; nothing is known where there are none.
#[derive(Clone, Copy)]
pub(crate) struct Findings<'t> {
    /// Whether the first date was printed.
    pub(crate) has_date: bool,
    /// The variables that were not to be printed again.
    pub(crate) suppressed: &'t [Variable],
    pub(crate) nodes: &'t [Finding],
}

/// What is known of a node, and of the nodes inside it.
#[derive(Clone, Copy)]
pub(crate) struct NodeFinding<'t> {
    pub(crate) is_admitted: bool,
    /// Whether the test `disambiguate` is evaluated on the way.
    pub(crate) met: bool,
    pub(crate) inside: Findings<'t>,
}

/// A node that was surveyed, and how far the call had come.
#[derive(Drop)]
pub(crate) struct Surveyed {
    pub(crate) is_admitted: bool,
    /// Whether the test `disambiguate` was evaluated on the way.
    pub(crate) met: bool,
    /// Whether the first date was printed.
    pub(crate) has_date: bool,
    /// The variables that were not to be printed again.
    pub(crate) suppressed: Vec<Variable>,
    /// What was found of the nodes inside it.
    pub(crate) inside: Vec<Finding>,
}

impl Surveyed {
    /// What is known of the node.
    pub(crate) fn finding(&self) -> NodeFinding<'_>
        ensures { (c : Context) (s : settings.NodeSetting) (st : settings.State) (x : Node)
            → IsSurveyed c s st self.now x → IsFound c s st result x }
    {
        NodeFinding {
            is_admitted: self.is_admitted,
            met: self.met,
            inside: Findings {
                has_date: self.has_date,
                suppressed: self.suppressed.as_slice(),
                nodes: self.inside.as_slice(),
            },
        }
    }
}

/// What is known of a node: that was known before, or a survey found it just now.
#[derive(Drop)]
pub(crate) enum Known<'t> {
    Before(NodeFinding<'t>),
    Now(Surveyed),
}

impl Known<'_> {
    /// What that is.
    pub(crate) fn finding(&self) -> NodeFinding<'_>
        ensures { (c : Context) (s : settings.NodeSetting) (st : settings.State) (x : Node)
            → IsKnown c s st self.now x → IsFound c s st result x }
    {
        match self {
            Known::Before(finding) => *finding,
            Known::Now(surveyed) => surveyed.finding(),
        }
    }
}

impl NodeFinding<'_> {
    /// Whether the node is admitted. Notes in the state whether the test `disambiguate` was evaluated on the way.
    pub(crate) fn admits(&self, state: &mut State<'_>) -> bool
        ensures admitted { (c : Context) (s : settings.NodeSetting) (x : Node)
            → IsFound c s state.old self.now x → result ≡ is_next c s x state.old }
        ensures state { (c : Context) (s : settings.NodeSetting) (x : Node)
            → IsFound c s state.old self.now x → state.new ≡ asked c s x state.old }
    {
        state.note(self.met);
        self.is_admitted
    }
}

impl<'t> Findings<'t> {
    /// Findings of no node.
    pub(crate) fn nothing() -> Findings<'t>
        ensures { result.nodes.now ≡ [] }
    {
        Findings {
            has_date: false,
            suppressed: &[],
            nodes: &[],
        }
    }

    /// Takes what is known of the first node, and returns it unless the call has come further. What is known of the nodes after it
    /// remains.
    #[inline(always)]
    pub(crate) fn take_first(
        &mut self,
        form: SpecialForm,
        state: &State<'_>,
    ) -> Option<NodeFinding<'t>>
        ensures first { (c : Context) (s : settings.NodeSetting) (x : Node) (xs : Nodes)
            → s.form ≡ form_view form → AreFound c s.form self.old (node x xs)
            → IfSome result (λ n. IsFound c s state.now n x) }
        ensures others { (c : Context) (s : settings.NodeSetting) (x : Node) (xs : Nodes)
            → AreFound c s.form self.old (node x xs) → AreFound c s.form self.new xs }
    {
        let Some((first, others)) = self.nodes.split_first() else {
            return None;
        };
        let (inside, after) = split(others, first.inside);
        self.nodes = after;
        if !self.hold(form, state) {
            return None;
        }
        Some(NodeFinding {
            is_admitted: first.is_admitted,
            met: first.met,
            inside: Findings {
                nodes: inside,
                ..*self
            },
        })
    }

    /// Whether the call has come no further, as far as nodes are asked for it in the form.
    #[tactic(auto, using(crate::proofs::DatesUnasked::holds_dated, crate::proofs::DatesUnasked::holds_unasked))]
    fn hold(&self, form: SpecialForm, state: &State<'_>) -> bool
        ensures { (c : Context) (s : settings.NodeSetting) (x : Node)
            → s.form ≡ form_view form → result ≡ true
            → survey (stage_then c s.form self.now) x ≡ survey (stage c s state.now) x }
    {
        if !are_same(self.suppressed, state.suppressed.as_slice()) {
            return false;
        }
        self.has_date == state.has_date || !asks_for_date(form)
    }
}

/// Whether it is asked in a form if the first date was printed.
fn asks_for_date(form: SpecialForm) -> bool
    ensures { result ≡ asks_for_date (form_view form) }
{
    match form {
        SpecialForm::Whole
        | SpecialForm::AuthorOnly(_)
        | SpecialForm::WithoutAuthor
        | SpecialForm::AuthorsAlone(_)
        | SpecialForm::WithoutNames(_) => false,
        SpecialForm::FirstDateOnly | SpecialForm::SuffixOnly => true,
    }
}

/// Whether variables are the same, in the same order. Most calls have none.
fn are_same(some: &[Variable], others: &[Variable]) -> bool
    ensures { result ≡ true → some.now ≡ others.now }
{
    match (some.is_empty(), others.is_empty()) {
        (true, true) => true,
        (false, false) => are_all_same(some, others),
        (true, false) | (false, true) => false,
    }
}

/// Whether variables are the same, in the same order. It is a function of its own, so that the code of most calls is small.
#[inline(never)]
fn are_all_same(some: &[Variable], others: &[Variable]) -> bool
    ensures { result ≡ true → some.now ≡ others.now }
{
    some == others
}

/// Adds a finding for a node of which a survey has not yet found anything. The first takes room for as many as most calls find.
///
/// # Errors
/// Out of memory.
pub(crate) fn push_nothing_found(findings: &mut Vec<Finding>) -> Result<(), AllocError>
    ensures { OnOk result (findings.new.items ≡ findings.old.items ++ nothing_found ∷ []) }
{
    let room = 16;
    if findings.capacity() < room {
        findings.reserve(room)?;
    }
    findings.push(Finding {
        is_admitted: false,
        met: false,
        inside: 0,
    })?;
    Ok(())
}

/// So many findings, and those after them.
fn split(findings: &[Finding], count: usize) -> (&[Finding], &[Finding])
    ensures first { result.0.now ≡ take count findings.now }
    ensures others { result.1.now ≡ drop count findings.now }
{
    findings.split_at(count.min(findings.len()))
}

/// Writes what a survey found of a node at its index, which is followed by what was found of those inside it.
pub(crate) fn put_finding(findings: &mut Vec<Finding>, index: usize, survey: Survey)
    requires { index < length findings.old.items }
    ensures { (before : List Finding) (f : Finding) (inside : List Finding)
        → index ≡ length before → findings.old.items ≡ before ++ f ∷ inside
        → findings.new.items ≡ before ++ with_finding (survey_view survey) inside }
{
    let inside = findings.len() - index - 1;
    findings[index] = Finding {
        is_admitted: survey.is_admitted,
        met: survey.met,
        inside,
    };
}
