//! Building a tree from tokens, with a stack of the elements that are open.

ghost use Rattle.std.specs.Prelude.{◌≡◌, ◌++◌, ◌∷◌, [], nat_lt, length, OnOk, MatchOption, Ok};
ghost use Rattle.std.specs.Option.{option_map};
ghost use Rattle.std.specs.Str.{chars};
ghost use Rattle.laws.specs.Results.{Gives, Leaves};
ghost use Rattle.laws.specs.Text.{spelled};
ghost use Rattle.xml_text.specs.Reading.{after_space};
ghost use Rattle.xml_text.specs.Values.{character_of};
ghost use Rattle.xml_text.specs.Views.{placed_view, name_view, reference_view, tag_view, token_view};
ghost use Rattle.xml_tree.specs.Building as specs;
ghost use Rattle.xml_tree.specs.Building.{scope_of, state, first_state, element_of, opened, with_child, ended, most_open, started, start_below, start, closed_by, end, with_data, with_read, white_space, characters, referred, section, step, rooted, finished};
ghost use Rattle.xml_tree.specs.Names.{said};
ghost use Rattle.xml_tree.specs.Values.{lines_of, placed_character};
ghost use Rattle.xml_tree.specs.Views.{refusal_of, space_view, element_view, said_view, open_view, opens_of, state_view};

use crate::error::TreeError;
use crate::names::{Said, tag_said};
use crate::scope::same_name;
use crate::tree::Element;
use crate::value::{placed_character, push_data};
use std::alloc::{AllocError, Global};
use std::rc::RcStr;
use texts::{Reader, empty_text, has_text, push_character, take_text};
use xml_text::{Fault, Name, Placed, Reference, Tag, Token, byte_len, skip_space};

/// At most so many elements are open.
const MOST_OPEN: usize = 256;

/// An element has room for so many others at first: few have more.
const FEW_CHILDREN: usize = 2;

/// An element that is open: its start-tag, and what its content has so far.
#[derive(Drop)]
pub(crate) struct Open<'s> {
    /// How many bytes of the text are left where its start-tag begins.
    pub(crate) left: usize,
    /// Its name, as it is written.
    pub(crate) written: Name<'s>,
    pub(crate) said: Said<'s>,
    /// The elements in it that have ended, each with the text before it.
    pub(crate) before: Vec<(String, Element<'s>)>,
    /// The text after them.
    pub(crate) text: String,
}

/// A tree that is being built.
#[derive(Drop)]
pub(crate) struct Builder<'s> {
    /// The elements that are open, the innermost last.
    open_ones: Vec<Open<'s>>,
    /// The root, where it has ended.
    root: Option<Element<'s>>,
}

/// What the prefix, or none, is bound to in the innermost of these open elements.
pub(crate) fn found_around<'b, 's>(
    opens: &'b [Open<'s>],
    prefix: Option<&'s str>,
) -> Option<&'b Option<RcStr>>
    ensures { option_map (λ s. space_view s.now) result
        ≡ scope_of (opens_of opens.now) (option_map spelled prefix.entry) }
{
    let mut count = opens.len();
    while count > 0 {
        count -= 1;
        match opens[count].said.own.get(prefix) {
            Some(space) => return Some(space),
            None => {}
        }
    }
    None
}

/// An element whose start-tag was read.
fn opened<'s>(alloc: Global, left: usize, written: Name<'s>, said: Said<'s>) -> Open<'s>
    ensures { open_view result ≡ opened left (name_view written.entry) (said_view said.entry) }
{
    let before = Vec::new(alloc);
    let text = empty_text(alloc);
    Open {
        left,
        written,
        said,
        before,
        text,
    }
}

/// The element that was open.
fn element_of<'s>(inner: Open<'s>) -> Element<'s>
    ensures { element_view result ≡ element_of (open_view inner.entry) }
{
    let Open {
        left,
        said,
        before,
        text,
        ..
    } = inner;
    let Said {
        name,
        attributes,
        ..
    } = said;
    Element {
        left,
        name,
        attributes,
        children: before,
        text,
    }
}

/// The text without the white space that it begins with.
fn without_space<'s>(text: &'s str) -> &'s str
    ensures { spelled result ≡ after_space (chars text.now) }
{
    let mut reader = Reader::new(text);
    skip_space(&mut reader);
    reader.rest
}

/// Refuses a text outside all elements that is more than white space. The text from it on is given.
fn check_outside(start: &str, text: &str) -> Result<(), TreeError>
    ensures { (s : specs.State) → Leaves refusal_of result s
        (white_space s (chars start.now) (chars text.now)) }
{
    if has_text(without_space(text)) {
        let left = byte_len(without_space(start));
        return Err(TreeError::Fault {
            fault: Fault::Outside,
            left,
        });
    }
    Ok(())
}

/// The root at the end of the text.
fn rooted<'s>(root: Option<Element<'s>>) -> Result<Element<'s>, TreeError>
    ensures { Gives refusal_of element_view result (rooted (option_map element_view root.entry)) }
{
    match root {
        Some(root) => Ok(root),
        None => Err(TreeError::Fault {
            fault: Fault::NoRoot,
            left: 0,
        }),
    }
}

/// Appends an element that has ended, with the text before it.
fn push_ended<'s>(
    children: &mut Vec<(String, Element<'s>)>,
    before: String,
    element: Element<'s>,
) -> Result<(), AllocError>
    ensures { OnOk result (children.new.items
        ≡ children.old.items ++ (before, element.entry) ∷ []) }
{
    if children.is_empty() {
        children.reserve_exact(FEW_CHILDREN)?;
    }
    Ok(children.push((before, element))?)
}

impl<'s> Builder<'s> {
    /// Before the first token.
    pub(crate) fn new(alloc: Global) -> Builder<'s>
        ensures { state_view result ≡ first_state }
    {
        let open_ones = Vec::new(alloc);
        Builder {
            open_ones,
            root: None,
        }
    }

    /// Takes the innermost open element, if there is one.
    fn take_open(&mut self) -> Option<Open<'s>>
        ensures { MatchOption result (((state_view self.old).open_ones ≡ [])
            × (state_view self.new ≡ state_view self.old)) (λ o. state_view self.old
            ≡ state (open_view o ∷ (state_view self.new).open_ones) (state_view self.new).root) }
    {
        self.open_ones.pop()
    }

    /// Adds an open element within the others.
    fn put_open(&mut self, inner: Open<'s>) -> Result<(), AllocError>
        ensures { OnOk result (state_view self.new
            ≡ state (open_view inner.entry ∷ (state_view self.old).open_ones)
            (state_view self.old).root) }
    {
        self.open_ones.push(inner)?;
        Ok(())
    }

    /// Whether one more element may be open.
    fn has_room(&self) -> bool
        ensures { result ≡ nat_lt (length (state_view self.now).open_ones) most_open }
    {
        self.open_ones.len() < MOST_OPEN
    }

    /// What a tag says that stands there.
    fn said(&self, alloc: Global, left: usize, tag: &Tag<'s>) -> Result<Said<'s>, TreeError>
        ensures { Gives refusal_of said_view result
            (said (scope_of (state_view self.now).open_ones) left (tag_view tag.now)) }
    {
        tag_said(alloc, self.open_ones.as_slice(), left, tag)
    }

    /// Puts an element that has ended into this open one.
    fn put_child(
        &mut self,
        alloc: Global,
        mut outer: Open<'s>,
        element: Element<'s>,
    ) -> Result<(), AllocError>
        ensures { OnOk result (state_view self.new
            ≡ state (with_child (element_view element.entry) (open_view outer.entry)
            ∷ (state_view self.old).open_ones) (state_view self.old).root) }
    {
        let before = take_text(alloc, &mut outer.text);
        push_ended(&mut outer.before, before, element)?;
        self.put_open(outer)
    }

    /// Puts an element that has ended into the one around it, or makes it the root.
    fn put_element(&mut self, alloc: Global, element: Element<'s>) -> Result<(), AllocError>
        ensures { OnOk result (state_view self.new ≡ ended (state_view self.old).root
            (element_view element.entry) (state_view self.old).open_ones) }
    {
        match self.take_open() {
            Some(outer) => self.put_child(alloc, outer, element),
            None => {
                self.root = Some(element);
                Ok(())
            }
        }
    }

    /// Puts an element whose start-tag was read, and which has ended if it is empty.
    fn put_started(&mut self, alloc: Global, empty: bool, inner: Open<'s>) -> Result<(), AllocError>
        ensures { OnOk result (state_view self.new ≡ started (state_view self.old).root
            (state_view self.old).open_ones empty (open_view inner.entry)) }
    {
        if empty {
            self.put_element(alloc, element_of(inner))
        } else {
            self.put_open(inner)
        }
    }

    /// A start-tag before which no root has ended.
    fn start_below(&mut self, alloc: Global, left: usize, tag: Tag<'s>) -> Result<(), TreeError>
        ensures { Leaves refusal_of result (state_view self.new) (start_below
            (state_view self.old).root (state_view self.old).open_ones left (tag_view tag.entry)) }
    {
        if !self.has_room() {
            return Err(TreeError::Fault {
                fault: Fault::TooDeep,
                left,
            });
        }
        let said = self.said(alloc, left, &tag)?;
        let inner = opened(alloc, left, tag.name, said);
        self.put_started(alloc, tag.empty, inner)?;
        Ok(())
    }

    /// A start-tag.
    fn start(&mut self, alloc: Global, left: usize, tag: Tag<'s>) -> Result<(), TreeError>
        ensures { Leaves refusal_of result (state_view self.new) (start
            (state_view self.old).open_ones (state_view self.old).root left (tag_view tag.entry)) }
    {
        match self.root {
            Some(_) => Err(TreeError::Fault {
                fault: Fault::SecondRoot,
                left,
            }),
            None => self.start_below(alloc, left, tag),
        }
    }

    /// Ends this open element, whose name the end-tag must have.
    fn close(
        &mut self,
        alloc: Global,
        inner: Open<'s>,
        name: Placed<Name<'s>>,
    ) -> Result<(), TreeError>
        ensures { Leaves refusal_of result (state_view self.new) (closed_by (open_view inner.entry)
            (state_view self.old).open_ones (state_view self.old).root
            (placed_view name_view name.entry)) }
    {
        if !same_name(&name.v, &inner.written) {
            return Err(TreeError::Fault {
                fault: Fault::Mismatched,
                left: name.left,
            });
        }
        self.put_element(alloc, element_of(inner))?;
        Ok(())
    }

    /// An end-tag.
    fn end(&mut self, alloc: Global, left: usize, name: Placed<Name<'s>>) -> Result<(), TreeError>
        ensures { Leaves refusal_of result (state_view self.new) (end
            (state_view self.old).open_ones (state_view self.old).root left
            (placed_view name_view name.entry)) }
    {
        match self.take_open() {
            Some(inner) => self.close(alloc, inner, name),
            None => Err(TreeError::Fault {
                fault: Fault::Unopened,
                left,
            }),
        }
    }

    /// Adds character data to this open element.
    fn put_data(&mut self, mut inner: Open<'s>, text: &str) -> Result<(), TreeError>
        ensures { Leaves refusal_of result (state_view self.new)
            (Ok (with_data (lines_of (chars text.now)) (open_view inner.entry)
            (state_view self.old).open_ones (state_view self.old).root)) }
    {
        push_data(&mut inner.text, text)?;
        self.put_open(inner)?;
        Ok(())
    }

    /// Character data. The text from it on is given.
    fn characters(&mut self, start: &str, text: &str) -> Result<(), TreeError>
        ensures { Leaves refusal_of result (state_view self.new) (characters
            (state_view self.old).open_ones (state_view self.old).root (chars start.now)
            (chars text.now)) }
    {
        match self.take_open() {
            Some(inner) => self.put_data(inner, text),
            None => check_outside(start, text),
        }
    }

    /// Adds the character of a reference that stands there to this open element.
    fn put_character(
        &mut self,
        mut inner: Open<'s>,
        left: usize,
        reference: Reference<'s>,
    ) -> Result<(), TreeError>
        ensures { Leaves refusal_of result (state_view self.new)
            (with_read (placed_character left (character_of (reference_view reference.entry)))
            (open_view inner.entry) (state_view self.old).open_ones (state_view self.old).root) }
    {
        let c = placed_character(left, reference)?;
        push_character(&mut inner.text, c)?;
        self.put_open(inner)?;
        Ok(())
    }

    /// A reference.
    fn referred(&mut self, left: usize, reference: Reference<'s>) -> Result<(), TreeError>
        ensures { Leaves refusal_of result (state_view self.new) (referred
            (state_view self.old).open_ones (state_view self.old).root left
            (reference_view reference.entry)) }
    {
        match self.take_open() {
            Some(inner) => self.put_character(inner, left, reference),
            None => Err(TreeError::Fault {
                fault: Fault::Outside,
                left,
            }),
        }
    }

    /// A CDATA section.
    fn section(&mut self, left: usize, text: &str) -> Result<(), TreeError>
        ensures { Leaves refusal_of result (state_view self.new) (section
            (state_view self.old).open_ones (state_view self.old).root left (chars text.now)) }
    {
        match self.take_open() {
            Some(inner) => self.put_data(inner, text),
            None => Err(TreeError::Fault {
                fault: Fault::Outside,
                left,
            }),
        }
    }

    /// The next token. The text from it on is given.
    pub(crate) fn step(
        &mut self,
        alloc: Global,
        start: &'s str,
        token: Token<'s>,
    ) -> Result<(), TreeError>
        ensures { Leaves refusal_of result (state_view self.new)
            (step (state_view self.old) (spelled start.entry) (token_view token.entry)) }
    {
        let left = byte_len(start);
        match token {
            Token::Start(tag) => self.start(alloc, left, tag),
            Token::End(name) => self.end(alloc, left, name),
            Token::Characters(text) => self.characters(start, text),
            Token::Reference(reference) => self.referred(left, reference),
            Token::Section(text) => self.section(left, text),
            Token::Nothing => Ok(()),
        }
    }

    /// The tree, at the end of the text.
    pub(crate) fn finish(self) -> Result<Element<'s>, TreeError>
        ensures { Gives refusal_of element_view result (finished (state_view self.entry).open_ones
            (state_view self.entry).root) }
    {
        let Builder { open_ones, root } = self;
        if open_ones.is_empty() {
            return rooted(root);
        }
        Err(TreeError::Fault {
            fault: Fault::Unfinished,
            left: 0,
        })
    }
}
