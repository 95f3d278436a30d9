//! Texts, links, formulas and elements, written to any writer.

ghost use Rattle.std.specs.Prelude.{◌∷◌, [], OnOk};
ghost use Rattle.std.specs.Str.{chars};
ghost use Rattle.rendering_output.specs.Writing.{words, spanned, linked, begun, ended, WritesTags};

use crate::{BufWriteFormat, WriterTarget};
use rendering_taxonomy::{Display, Formatting};
use std::fmt;

impl BufWriteFormat {
    /// Writes a text that looks so.
    ///
    /// # Errors
    /// An error of the writer, after which some of the text may have been written.
    pub fn write_text<W: fmt::Write>(
        self,
        w: &mut W,
        formatting: Formatting,
        text: &str,
    ) -> fmt::Result
        ensures { OnOk result
            (WritesTags W.write_str_gives self w.old (spanned formatting (chars text.now)) w.new) }
    {
        let mut target = WriterTarget::new(w);
        self.push_text(&mut target, formatting, text);
        target.result()
    }

    /// Writes a text or a formula without looks.
    ///
    /// # Errors
    /// An error of the writer, after which some of the text may have been written.
    pub fn write_markup<W: fmt::Write>(self, w: &mut W, text: &str) -> fmt::Result
        ensures { OnOk result
            (WritesTags W.write_str_gives self w.old (words (chars text.now) ∷ []) w.new) }
    {
        let mut target = WriterTarget::new(w);
        self.push_markup(&mut target, text);
        target.result()
    }

    /// Writes a text that looks so and leads to an address.
    ///
    /// # Errors
    /// An error of the writer, after which some of the text may have been written.
    pub fn write_link<W: fmt::Write>(
        self,
        w: &mut W,
        formatting: Formatting,
        text: &str,
        url: &str,
    ) -> fmt::Result
        ensures { OnOk result (WritesTags W.write_str_gives self w.old
            (linked formatting (chars text.now) (chars url.now)) w.new) }
    {
        let mut target = WriterTarget::new(w);
        self.push_link(&mut target, formatting, text, url);
        target.result()
    }

    /// Writes where an element begins.
    ///
    /// # Errors
    /// An error of the writer.
    pub fn start<W: fmt::Write>(self, w: &mut W, display: Option<Display>) -> fmt::Result
        ensures { OnOk result (WritesTags W.write_str_gives self w.old (begun display) w.new) }
    {
        let mut target = WriterTarget::new(w);
        self.push_start(&mut target, display);
        target.result()
    }

    /// Writes where an element ends.
    ///
    /// # Errors
    /// An error of the writer.
    pub fn end<W: fmt::Write>(self, w: &mut W, display: Option<Display>) -> fmt::Result
        ensures { OnOk result (WritesTags W.write_str_gives self w.old (ended display) w.new) }
    {
        let mut target = WriterTarget::new(w);
        self.push_end(&mut target, display);
        target.result()
    }
}
