//! The tree of a page, which is read from the end on.

ghost use Rattle.std.specs.Prelude.{◌≡◌, ◌≤◌, ◌<◌, ◌∷◌, ◌++◌, [], true, List, ℕ, Option, Some, IfOk, OnOk, drop, fold, length, reverse, take};
ghost use Rattle.std.specs.Option.{option_map};
ghost use Rattle.std.specs.Str.{chars};
ghost use Rattle.laws.specs.Text.{characters, is_filled};
ghost use Rattle.rendering_taxonomy.specs.declared.formatting.Display.{Display};
ghost use Rattle.rendering_tree.specs.Tokens.{Token};
ghost use Rattle.rendering_tree.specs.Trees.{Children, Text as TextOf, Markup as MarkupOf, Link as LinkOf, Transparent as TransparentOf, Elem as ElemOf, element_read, nothing, before, take_token, tree_of};
ghost use Rattle.rendering_tree.specs.Views.{child_view, meta_view, tree_view};
ghost use Rattle.rendering_building.specs.Building.{IsJoined, IsWithin, backwards, joined, joins, joins_child, level, nest_of, next_start, text_before, text_on, text_read};
ghost use Rattle.rendering_page.specs.Views.{words_view, with_piece, pieces_view};

use rendering_page::{Link, Page, Piece, Words, looks_like, no_words};
use rendering_taxonomy::{Display, Formatting};
use rendering_tree::{Elem, ElemChild, ElemChildren, ElemMeta, Formatted};
use std::alloc::{AllocError, Global};
use std::mem;
use texts::{has_text, owned, push_text};

/// What was read of a page.
pub(crate) struct Builder<'a> {
    /// The children of the elements that are being read, those of the innermost one last; of each the last child first.
    pub(crate) children: Vec<ElemChild>,
    /// Where the children of the innermost element begin.
    pub(crate) start: usize,
    /// Where those of the elements around it begin, the innermost element last.
    pub(crate) around: Vec<usize>,
    /// The part of the text before these children that was read last; it may be empty.
    pub(crate) words: Words<'a>,
    /// The parts of that text after it, the last part first.
    pub(crate) after: Vec<Words<'a>>,
    /// How that text looks.
    pub(crate) formatting: Formatting,
}

impl Drop for Builder<'_> {
    fn drop(self) {
        let Builder {
            children: _,
            start: _,
            around: _,
            words: _,
            after: _,
            formatting: _,
        } = self;
    }
}

/// The tree of a page. Texts of one formatting that stand beside each other are joined.
///
/// # Errors
/// Out of memory.
pub fn into_tree(page: Page<'_>) -> Result<ElemChildren, AllocError>
    ensures { IfOk result (λ t. tree_view t ≡ tree_of page.entry.tokens) }
{
    build(page.into_pieces())
}

/// The tree of pieces.
fn build(mut pieces: Vec<Piece<'_>>) -> Result<ElemChildren, AllocError>
    ensures { IfOk result (λ t. tree_view t ≡ tree_of (pieces_view pieces.entry.items)) }
{
    let mut builder = Builder::new(*pieces.allocator())?;
    while let Some(piece) = pieces.pop() {
        builder.take(piece)?;
    }
    builder.finish()
}

impl<'a> Builder<'a> {
    /// A builder that has read nothing.
    fn new(alloc: Global) -> Result<Builder<'a>, AllocError>
        ensures nest { IfOk result (λ b. nest_of b ≡ (record { inside = nothing; around = [] })) }
        ensures within { IfOk result (λ b. IsWithin b) }
    {
        // Room for as many children as are read at a time of a short page.
        let children = Vec::with_capacity(alloc, 8)?;
        Ok(Builder {
            children,
            start: 0,
            around: Vec::new(alloc),
            words: no_words(),
            after: Vec::new(alloc),
            formatting: Formatting::plain(),
        })
    }

    /// Reads a piece. Pieces are read from the last to the first.
    fn take(&mut self, piece: Piece<'a>) -> Result<(), AllocError>
        requires { IsWithin self.old }
        ensures read { OnOk result ((ts : List Token)
            → fold take_token (nest_of self.old) (with_piece ts piece.entry)
            ≡ fold take_token (nest_of self.new) ts) }
        ensures within { OnOk result (IsWithin self.new) }
    {
        match piece {
            Piece::Text { formatting, words } => self.take_words(formatting, words),
            Piece::Markup(text) => self.take_markup(text),
            Piece::Link(link) => self.take_link(link),
            Piece::Transparent {
                formatting,
                cite_idx,
            } => self.take_transparent(formatting, cite_idx),
            Piece::Opening { display, meta } | Piece::Begin { display, meta } => {
                self.take_borrowed_opening(display, meta)
            }
            Piece::MadeOpening { display, meta } | Piece::MadeBegin { display, meta } => {
                self.take_made_opening(display, meta)
            }
            Piece::Closing | Piece::End => self.take_closing(),
            Piece::Mark | Piece::Unmark | Piece::BareBegin | Piece::BareEnd => Ok(()),
        }
    }

    /// Reads a formula.
    fn take_markup(&mut self, text: Words<'a>) -> Result<(), AllocError>
        requires { IsWithin self.old }
        ensures read { OnOk result (nest_of self.new ≡ (record (nest_of self.old)
            { inside = before (MarkupOf (words_view text.entry)) (nest_of self.old).inside })) }
        ensures within { OnOk result (IsWithin self.new) }
    {
        let text = owned_words(*self.children.allocator(), text)?;
        self.take_child(ElemChild::Markup(text))
    }

    /// Reads a link.
    fn take_link(&mut self, link: Box<Link<'a>>) -> Result<(), AllocError>
        requires { IsWithin self.old }
        ensures read { OnOk result (nest_of self.new ≡ (record (nest_of self.old) { inside = before (LinkOf link.entry.value.formatting (words_view link.entry.value.text) (words_view link.entry.value.url)) (nest_of self.old).inside })) }
        ensures within { OnOk result (IsWithin self.new) }
    {
        let link = owned_link(*self.children.allocator(), Box::into_inner(link))?;
        self.take_child(link)
    }

    /// Reads a locator of the caller's own.
    fn take_transparent(
        &mut self,
        formatting: Formatting,
        cite_idx: usize,
    ) -> Result<(), AllocError>
        requires { IsWithin self.old }
        ensures read { OnOk result (nest_of self.new ≡ (record (nest_of self.old)
            { inside = before (TransparentOf formatting cite_idx) (nest_of self.old).inside })) }
        ensures within { OnOk result (IsWithin self.new) }
    {
        self.take_child(ElemChild::Transparent {
            cite_idx,
            format: formatting,
        })
    }

    /// Reads a text; an empty one is none.
    fn take_words(&mut self, formatting: Formatting, words: Words<'a>) -> Result<(), AllocError>
        requires { IsWithin self.old }
        ensures read { OnOk result (nest_of self.new ≡ (record (nest_of self.old) { inside = text_before formatting (words_view words.entry) (nest_of self.old).inside })) }
        ensures within { OnOk result (IsWithin self.new) }
    {
        if !has_text(words.as_str()) {
            return Ok(());
        }
        self.go_on_in(formatting)?;
        let after = mem::replace(&mut self.words, words);
        if has_text(after.as_str()) {
            self.after.push(after)?;
        }
        Ok(())
    }

    /// Ends the text that is being read, unless it looks so; what is read next looks so.
    fn go_on_in(&mut self, formatting: Formatting) -> Result<(), AllocError>
        requires { IsWithin self.old }
        ensures read { OnOk result (nest_of self.new ≡ nest_of self.old) }
        ensures look { OnOk result (self.new.formatting ≡ formatting) }
        ensures within { OnOk result (IsWithin self.new) }
    {
        if looks_like(formatting, self.formatting) {
            return Ok(());
        }
        self.end_text()?;
        self.formatting = formatting;
        Ok(())
    }

    /// Reads a child that is no text.
    fn take_child(&mut self, part: ElemChild) -> Result<(), AllocError>
        requires { IsWithin self.old }
        ensures read { OnOk result (nest_of self.new ≡ (record (nest_of self.old)
            { inside = before (child_view part) (nest_of self.old).inside })) }
        ensures within { OnOk result (IsWithin self.new) }
    {
        self.end_text()?;
        self.children.push(part)?;
        Ok(())
    }

    /// Reads where an element ends.
    fn take_closing(&mut self) -> Result<(), AllocError>
        requires { IsWithin self.old }
        ensures read { OnOk result (nest_of self.new ≡ (record
            { inside = nothing; around = (nest_of self.old).inside ∷ (nest_of self.old).around })) }
        ensures within { OnOk result (IsWithin self.new) }
    {
        self.end_text()?;
        let start = self.start;
        self.around.push(start)?;
        self.start = self.children.len();
        Ok(())
    }

    /// Reads where an element begins that may stand for something of the caller's.
    fn take_borrowed_opening(
        &mut self,
        display: Option<Display>,
        meta: Option<&ElemMeta>,
    ) -> Result<(), AllocError>
        requires { IsWithin self.old }
        ensures read { OnOk result (nest_of self.new
            ≡ element_read display (option_map (λ e. meta_view e.now) meta.entry)
            (nest_of self.old).inside (nest_of self.old).around) }
        ensures within { OnOk result (IsWithin self.new) }
    {
        self.take_opening(display, owned_meaning(meta)?)
    }

    /// Reads where an element begins that stands for what was made on the way.
    fn take_made_opening(
        &mut self,
        display: Option<Display>,
        meta: ElemMeta,
    ) -> Result<(), AllocError>
        requires { IsWithin self.old }
        ensures read { OnOk result (nest_of self.new ≡ element_read display
            (Some (meta_view meta)) (nest_of self.old).inside (nest_of self.old).around) }
        ensures within { OnOk result (IsWithin self.new) }
    {
        self.take_opening(display, Some(meta))
    }

    /// Reads where an element begins.
    fn take_opening(
        &mut self,
        display: Option<Display>,
        meta: Option<ElemMeta>,
    ) -> Result<(), AllocError>
        requires { IsWithin self.old }
        ensures read { OnOk result (nest_of self.new ≡ element_read display
            (option_map meta_view meta) (nest_of self.old).inside (nest_of self.old).around) }
        ensures within { OnOk result (IsWithin self.new) }
    {
        self.end_text()?;
        let start = self.start;
        let inside = self.children.split_off(start)?;
        let end = self.children.len();
        self.start = pop_start(&mut self.around, end);
        self.children.push(element(display, meta, inside))?;
        Ok(())
    }

    /// Lets the text that is being read stand among the children.
    fn end_text(&mut self) -> Result<(), AllocError>
        requires { IsWithin self.old }
        ensures read { OnOk result (nest_of self.new ≡ nest_of self.old) }
        ensures none { OnOk result (text_read self.new ≡ []) }
        ensures within { OnOk result (IsWithin self.new) }
    {
        if !has_text(self.words.as_str()) && self.after.is_empty() {
            return Ok(());
        }
        self.put_read()
    }

    /// Lets the text that is being read stand among the children.
    fn put_read(&mut self) -> Result<(), AllocError>
        requires { IsWithin self.old }
        ensures read { OnOk result (nest_of self.new ≡ nest_of self.old) }
        ensures none { OnOk result (text_read self.new ≡ []) }
        ensures within { OnOk result (IsWithin self.new) }
    {
        let first = mem::replace(&mut self.words, no_words());
        let text = join(*self.children.allocator(), first, &mut self.after)?;
        if has_text(text.as_str()) {
            let formatting = self.formatting;
            let start = self.start;
            put_text(&mut self.children, start, Formatted { text, formatting })?;
        }
        Ok(())
    }

    /// The tree, once all is read.
    fn finish(mut self) -> Result<ElemChildren, AllocError>
        requires { IsWithin self }
        ensures { IfOk result (λ t. tree_view t ≡ (nest_of self.entry).inside) }
    {
        self.put_read()?;
        let start = self.start;
        let children = self.children.split_off(start)?;
        Ok(ElemChildren(in_order(children)))
    }
}

/// A link from a text to an address.
fn owned_link(alloc: Global, link: Link<'_>) -> Result<ElemChild, AllocError>
    ensures { IfOk result (λ c. child_view c
        ≡ LinkOf link.entry.formatting (words_view link.entry.text) (words_view link.entry.url)) }
{
    let Link {
        formatting,
        text,
        url,
    } = link;
    Ok(ElemChild::Link {
        text: Formatted {
            text: owned_words(alloc, text)?,
            formatting,
        },
        url: owned_words(alloc, url)?,
    })
}

/// A text in memory of its own, copied where it is borrowed.
fn owned_words(alloc: Global, words: Words<'_>) -> Result<String, AllocError>
    ensures { IfOk result (λ s. characters s ≡ words_view words.entry) }
{
    match words {
        Words::Borrowed(text) => owned(alloc, text),
        Words::Made(text) => Ok(text),
    }
}

/// A text in memory of its own that others are appended to.
fn owned_with_room(alloc: Global, words: Words<'_>) -> Result<String, AllocError>
    ensures { IfOk result (λ s. characters s ≡ words_view words.entry) }
{
    match words {
        Words::Borrowed(text) => copied_with_room(alloc, text),
        Words::Made(made) => Ok(made),
    }
}

/// A copy of a text that others are appended to.
fn copied_with_room(alloc: Global, text: &str) -> Result<String, AllocError>
    ensures { IfOk result (λ s. characters s ≡ chars text.now) }
{
    let mut copy = String::with_capacity(alloc, text.len().max(32))?;
    copy.push_str(text)?;
    Ok(copy)
}

/// Where the children of the element around begin, before the end; at the end where nothing is around.
fn pop_start(around: &mut Vec<usize>, end: usize) -> usize
    ensures start { result ≡ next_start (reverse around.old.items) end }
    ensures others { reverse around.new.items ≡ drop 1 (reverse around.old.items) }
{
    match around.pop() {
        Some(start) => start.min(end),
        None => end,
    }
}

/// An element with children of which the last stands first.
fn element(display: Option<Display>, meta: Option<ElemMeta>, children: Vec<ElemChild>) -> ElemChild
    ensures { child_view result
        ≡ ElemOf display (option_map meta_view meta) (backwards children.items) }
{
    ElemChild::Elem(Elem {
        children: ElemChildren(in_order(children)),
        display,
        meta,
    })
}

/// Children of which the last stands first, in order.
#[tactic(auto, using(crate::proofs::BuildingReading::short_reversed))]
fn in_order(children: Vec<ElemChild>) -> Vec<ElemChild>
    ensures { result.items ≡ reverse children.items }
{
    if children.len() < 2 {
        return children;
    }
    let mut in_order = children;
    in_order.reverse();
    in_order
}

/// A copy of what an element stands for.
fn owned_meaning(meta: Option<&ElemMeta>) -> Result<Option<ElemMeta>, AllocError>
    ensures { IfOk result (λ m. option_map meta_view m
        ≡ option_map (λ e. meta_view e.now) meta.entry) }
{
    match meta {
        Some(meta) => Ok(Some(meta.clone()?)),
        None => Ok(None),
    }
}

/// Joins a part of a text with those after it, which are taken out. A first part that was made is not copied.
fn join(alloc: Global, first: Words<'_>, after: &mut Vec<Words<'_>>) -> Result<String, AllocError>
    ensures text { IfOk result (λ s. characters s
        ≡ words_view first.entry ++ joined after.old.items) }
    ensures none { OnOk result (after.new.items ≡ []) }
{
    if after.is_empty() {
        return owned_words(alloc, first);
    }
    let mut text = owned_with_room(alloc, first)?;
    while let Some(words) = after.pop() {
        push_text(&mut text, words.as_str())?;
    }
    Ok(text)
}

/// Lets a text stand before the children from an index on, of which the last stands first; it is joined with one that looks like it.
fn put_text(children: &mut Vec<ElemChild>, start: usize, text: Formatted) -> Result<(), AllocError>
    requires filled { is_filled (characters text.text) ≡ true }
    requires within { start ≤ length children.old.items }
    ensures { OnOk result (IsJoined text.formatting
        (characters text.text) start children.old.items children.new.items) }
{
    if joins_last(children, start, text.formatting) {
        return join_last(children, text);
    }
    children.push(ElemChild::Text(text))?;
    Ok(())
}

/// Whether a text that looks so joins the child from an index on that was read last.
fn joins_last(children: &Vec<ElemChild>, start: usize, formatting: Formatting) -> bool
    requires { start ≤ length children.now.items }
    ensures joins { result ≡ joins formatting (level start children.now.items) }
    ensures some { result ≡ true → start < length children.now.items }
{
    if children.len() <= start {
        return false;
    }
    joins_child(&children[children.len() - 1], formatting)
}

/// Whether a text that looks so joins a child: that is a text that looks like it.
fn joins_child(part: &ElemChild, formatting: Formatting) -> bool
    ensures { result ≡ joins_child formatting (child_view part.now) }
{
    match part {
        ElemChild::Text(text) => looks_like(formatting, text.formatting),
        _ => false,
    }
}

/// Joins a text with the child that was read last, which looks like it.
fn join_last(children: &mut Vec<ElemChild>, text: Formatted) -> Result<(), AllocError>
    ensures { (start : ℕ) → is_filled (characters text.text) ≡ true
        → start < length children.old.items
        → joins text.formatting (level start children.old.items) ≡ true
        → OnOk result (IsJoined text.formatting
        (characters text.text) start children.old.items children.new.items) }
{
    match children.pop() {
        Some(next) => {
            children.push(joined_child(text, next)?)?;
            Ok(())
        }
        None => Ok(()),
    }
}

/// A text joined with a child that looks like it.
fn joined_child(text: Formatted, next: ElemChild) -> Result<ElemChild, AllocError>
    ensures { joins_child text.formatting (child_view next) ≡ true
        → IfOk result (λ x. (xs : Children) → before (child_view x) xs
        ≡ text_on text.formatting (characters text.text) (child_view next) xs) }
{
    match next {
        ElemChild::Text(next) => joined_text(text, next),
        other => Ok(other),
    }
}

/// A text joined with one after it that looks like it.
fn joined_text(text: Formatted, next: Formatted) -> Result<ElemChild, AllocError>
    ensures { IfOk result (λ x. child_view x
        ≡ TextOf next.formatting (characters text.text ++ characters next.text)) }
{
    let Formatted {
        text,
        formatting: _,
    } = text;
    let Formatted {
        text: more,
        formatting,
    } = next;
    let mut text = text;
    push_text(&mut text, more.as_str())?;
    Ok(ElemChild::Text(Formatted { text, formatting }))
}
