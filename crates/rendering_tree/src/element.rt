//! Elements and what they contain.

ghost use Rattle.std.specs.Prelude.{◌≡◌, OnOk, OnErr};
ghost use Rattle.rendering_tree.specs.Trees.{nothing, before, followed_by, is_nothing};
ghost use Rattle.rendering_tree.specs.Views.{child_view, tree_view};

use literature_values::Person;
use rendering_taxonomy::{Display, Formatting, NameVariable};
use std::alloc::{AllocError, Global};

/// A text in one formatting.
#[derive(Debug, PartialEq, Eq, Drop)]
pub struct Formatted {
    pub text: String,
    pub formatting: Formatting,
}

/// What an element stands for.
#[derive(Debug, PartialEq, Eq)]
pub enum ElemMeta {
    /// A names node: its variables, each with all people that answer it.
    Names(Vec<(Vec<Person>, NameVariable)>),
    /// The people of one variable.
    NameVariable(NameVariable),
    /// A person, by the index among the people of the variable, from zero.
    Name(NameVariable, usize),
    /// A cite, by its index in its request, from zero.
    Entry(usize),
    /// A date.
    Date,
    /// A text or a macro.
    Text,
    /// A number.
    Number,
    /// A label.
    Label,
    /// The value of the variable citation-number.
    CitationNumber,
    /// The value of the variable citation-label.
    CitationLabel,
}

impl Drop for ElemMeta {
    fn drop(self) {
        match self {
            ElemMeta::Names(_) => {}
            ElemMeta::NameVariable(_) => {}
            ElemMeta::Name(_, _) => {}
            ElemMeta::Entry(_) => {}
            ElemMeta::Date => {}
            ElemMeta::Text => {}
            ElemMeta::Number => {}
            ElemMeta::Label => {}
            ElemMeta::CitationNumber => {}
            ElemMeta::CitationLabel => {}
        }
    }
}

/// An element with its display and what it stands for.
#[cycle(element)]
#[derive(Debug, PartialEq, Eq, Drop)]
pub struct Elem {
    pub children: ElemChildren,
    pub display: Option<Display>,
    pub meta: Option<ElemMeta>,
}

/// A list of children. Comparing, dropping, `Debug` and every call that goes through a tree recurse as deep as elements are
/// nested.
#[cycle(element)]
#[derive(Debug, PartialEq, Eq)]
pub struct ElemChildren(pub Vec<ElemChild>);

impl Drop for ElemChildren {
    #[cycle(dropping)]
    fn drop(self) {
        let ElemChildren(_) = self;
    }
}

/// A part of what was printed.
#[cycle(element)]
#[derive(Debug, PartialEq, Eq, Drop)]
pub enum ElemChild {
    /// A text.
    Text(Formatted),
    /// An element.
    Elem(Elem),
    /// A formula, as it was written in the bibliography.
    Markup(String),
    /// A link from a text to an address.
    Link { text: Formatted, url: String },
    /// A locator of the caller's own, by the index of its cite in its request, from zero.
    Transparent { cite_idx: usize, format: Formatting },
}

impl ElemChildren {
    /// A list without children.
    pub fn new(alloc: Global) -> ElemChildren
        ensures { tree_view result ≡ nothing }
    {
        ElemChildren(Vec::new(alloc))
    }

    /// Whether there are no children.
    pub fn is_empty(&self) -> bool
        ensures { result ≡ is_nothing (tree_view self.now) }
    {
        self.0.is_empty()
    }

    /// The children.
    pub fn into_vec(self) -> Vec<ElemChild>
        ensures { result ≡ self.0 }
    {
        let ElemChildren(children) = self;
        children
    }

    /// Appends a child. The list is as it was where there is no memory for it.
    ///
    /// # Errors
    /// Out of memory.
    pub fn push(&mut self, part: ElemChild) -> Result<(), AllocError>
        ensures ok { OnOk result (tree_view self.new
            ≡ followed_by (tree_view self.old) (before (child_view part) nothing)) }
        ensures err { OnErr result (tree_view self.new ≡ tree_view self.old) }
    {
        self.0.push(part)?;
        Ok(())
    }
}

impl From<Elem> for ElemChild {
    ghost use Rattle.rendering_tree.specs.declared.element.ElemChild.TheVariants as children;

    ghost from_gives = { λ e c. c ≡ children.Elem e };

    fn from(elem: Elem) -> ElemChild {
        ElemChild::Elem(elem)
    }
}

impl From<Formatted> for ElemChild {
    ghost use Rattle.rendering_tree.specs.declared.element.ElemChild.TheVariants as children;

    ghost from_gives = { λ t c. c ≡ children.Text t };

    fn from(text: Formatted) -> ElemChild {
        ElemChild::Text(text)
    }
}
