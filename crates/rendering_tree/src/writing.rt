//! Trees in plain text and in HTML.

ghost use Rattle.std.specs.Prelude.{OnOk, Some};
ghost use Rattle.laws.specs.Text.{text};
ghost use Rattle.rendering_output.specs.Writing.{WritesTags, divided};
ghost use Rattle.rendering_tree.specs.Views.{child_view, element_view, tree_view};
ghost use Rattle.rendering_tree.specs.Writing.{tags, tags_in, plain_text, plain_child_text, plain_element_text};

use crate::{Elem, ElemChild, ElemChildren};
use rendering_output::{BufWriteFormat, TextTarget, WriterTarget};
use std::fmt;

impl ElemChildren {
    /// Hands the children in that format to the target, one after the other.
    #[cycle(writing)]
    pub fn push_to<T: TextTarget>(&self, target: &mut T, format: BufWriteFormat)
        ensures { WritesTags T.takes format target.old (tags (tree_view self.now)) target.new }
    {
        for part in &self.0 {
            part.push_to(target, format);
        }
    }

    /// Writes the children in that format, one after the other.
    ///
    /// # Errors
    /// An error of the writer, after which some of it may have been written.
    pub fn write_buf<W: fmt::Write>(&self, w: &mut W, format: BufWriteFormat) -> fmt::Result
        ensures { OnOk result
            (WritesTags W.write_str_gives format w.old (tags (tree_view self.now)) w.new) }
    {
        let mut target = WriterTarget::new(w);
        self.push_to(&mut target, format);
        target.result()
    }
}

impl ElemChild {
    /// Hands the child in that format to the target.
    #[cycle(writing)]
    pub fn push_to<T: TextTarget>(&self, target: &mut T, format: BufWriteFormat)
        ensures { WritesTags T.takes format target.old (tags_in (child_view self.now)) target.new }
    {
        match self {
            ElemChild::Text(text) => {
                format.push_text(target, text.formatting, text.text.as_str());
            }
            ElemChild::Elem(elem) => elem.push_to(target, format),
            ElemChild::Markup(text) => format.push_markup(target, text.as_str()),
            ElemChild::Link { text, url } => {
                format.push_link(target, text.formatting, text.text.as_str(), url.as_str());
            }
            ElemChild::Transparent { .. } => {}
        }
    }

    /// Writes the child in that format.
    ///
    /// # Errors
    /// An error of the writer, after which some of it may have been written.
    pub fn write_buf<W: fmt::Write>(&self, w: &mut W, format: BufWriteFormat) -> fmt::Result
        ensures { OnOk result
            (WritesTags W.write_str_gives format w.old (tags_in (child_view self.now)) w.new) }
    {
        let mut target = WriterTarget::new(w);
        self.push_to(&mut target, format);
        target.result()
    }
}

impl Elem {
    /// Hands the element in that format to the target.
    #[cycle(writing)]
    pub fn push_to<T: TextTarget>(&self, target: &mut T, format: BufWriteFormat)
        ensures { WritesTags T.takes format target.old
            (divided self.now.display (tags (tree_view self.now.children))) target.new }
    {
        format.push_start(target, self.display);
        self.children.push_to(target, format);
        format.push_end(target, self.display);
    }

    /// Writes the element in that format.
    ///
    /// # Errors
    /// An error of the writer, after which some of it may have been written.
    pub fn write_buf<W: fmt::Write>(&self, w: &mut W, format: BufWriteFormat) -> fmt::Result
        ensures { OnOk result (WritesTags W.write_str_gives format w.old
            (divided self.now.display (tags (tree_view self.now.children))) w.new) }
    {
        let mut target = WriterTarget::new(w);
        self.push_to(&mut target, format);
        target.result()
    }
}

impl fmt::Display for ElemChildren {
    ghost output = { λ cs. Some (text (plain_text (tree_view cs))) };

    /// Writes the children in plain text, one after the other.
    fn fmt<W: fmt::Write>(&self, f: &mut fmt::Formatter<W>) -> fmt::Result {
        ElemChildren::write_buf(self, f, BufWriteFormat::Plain)
    }
}

impl fmt::Display for ElemChild {
    ghost output = { λ c. Some (text (plain_child_text (child_view c))) };

    /// Writes the child in plain text.
    fn fmt<W: fmt::Write>(&self, f: &mut fmt::Formatter<W>) -> fmt::Result {
        ElemChild::write_buf(self, f, BufWriteFormat::Plain)
    }
}

impl fmt::Display for Elem {
    ghost output = { λ e. Some (text (plain_element_text (element_view e))) };

    /// Writes the element in plain text.
    fn fmt<W: fmt::Write>(&self, f: &mut fmt::Formatter<W>) -> fmt::Result {
        Elem::write_buf(self, f, BufWriteFormat::Plain)
    }
}
