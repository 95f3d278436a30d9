//! The output of a document: its texts with citations instead of markers, and the bibliography.

ghost use Rattle.std.specs.Prelude.{◌≡◌, ◌∷◌, [], map, IfErr, IfOk, OnErr, OnOk, Some, string_bytes};
ghost use Rattle.std.specs.Io.KnownBytes.{Appends};
ghost use Rattle.std.specs.List.{flat_map};
ghost use Rattle.std.specs.Option.{option_and_then, option_map, option_map_or};
ghost use Rattle.std.specs.Str.{chars};
ghost use Rattle.laws.specs.Characters.{line_feed};
ghost use Rattle.laws.specs.Text.{text as text_of};
ghost use Rattle.laws.specs.Counts.{next_count};
ghost use Rattle.sinks.specs.Sinks.{HasFailed, AppendsPrefix};
ghost use Rattle.rendering_output.specs.Writing.{WritesCharacters};
ghost use Rattle.rendering_tree.specs.Views.{child_view};
ghost use Rattle.cite_markers.specs.Views.{piece_view, document_view};
ghost use Rattle.driver.specs.RenderedViews.{rendered_bibliography_view, rendered_citation_view, element_if, item_fields_view, rendered_view};
ghost use Rattle.cite_output.specs.Output.{bibliography_text, document_text, field_text, item_text, item_opening, item_end, output_text};
ghost use Rattle.cite_output.specs.Pieces.{citations_after, output_of, piece_text};

use crate::printed::Printed;
use cite_markers::{Document, Piece};
use driver::{BibliographyItem, Rendered, RenderedBibliography, RenderedCitation};
use rendering_output::{BufWriteFormat, TextTarget, WriterTarget};
use rendering_tree::ElemChild;
use sinks::{Sink, SinkFault, SinkTarget};
use std::alloc::{AllocError, Global};
use std::{fmt, mem};

/// An output of which all is known: a document, what it is rendered to, and the format. It is written piece by piece: nothing that takes
/// memory is done then.
#[derive(Drop)]
pub struct Output<'d> {
    pub document: Document<'d>,
    pub rendered: Rendered,
    pub format: BufWriteFormat,
}

impl Output<'_> {
    /// The output as one text, in UTF-8.
    ///
    /// # Errors
    /// Where there is no memory for the text.
    pub fn to_text(&self, alloc: Global) -> Result<String, AllocError>
        ensures { IfOk result (λ s. string_bytes s ≡ output_of self.now) }
    {
        let mut text = String::new(alloc);
        match self.write_text(&mut text) {
            Ok(()) => Ok(text),
            Err(_) => Err(AllocError),
        }
    }

    /// Writes the pieces in order. A call of `write` that fails or takes nothing ends it and is not tried again: the sink has then taken a
    /// prefix of the output.
    ///
    /// # Errors
    /// What that call did.
    pub fn write_to<W: Sink>(&self, sink: &mut W) -> Result<(), SinkFault>
        ensures ok { OnOk result
            (Appends (W.contents sink.old) (W.contents sink.new) (output_of self.now)) }
        ensures err { OnErr result
            (AppendsPrefix (W.contents sink.old) (W.contents sink.new) (output_of self.now)) }
        ensures cause { OnErr result (HasFailed (W.failures sink.old) (W.failures sink.new)) }
        ensures quiet { OnOk result (W.failures sink.new ≡ W.failures sink.old) }
        ensures once { OnErr result (W.failures sink.new ≡ next_count (W.failures sink.old)) }
        ensures fault { IfErr result (λ e. W.last_fault sink.new ≡ Some e) }
    {
        let mut printed = Printed {
            target: SinkTarget::new(sink),
        };
        self.push_to(&mut printed);
        printed.target.result()
    }

    /// Writes the pieces as `write_to` does, as the last thing before the process ends: the memory of the output is not given back.
    ///
    /// # Errors
    /// What that call did.
    pub fn write_last<W: Sink>(self, sink: &mut W) -> Result<(), SinkFault>
        ensures ok { OnOk result
            (Appends (W.contents sink.old) (W.contents sink.new) (output_of self.entry)) }
        ensures err { OnErr result
            (AppendsPrefix (W.contents sink.old) (W.contents sink.new) (output_of self.entry)) }
        ensures cause { OnErr result (HasFailed (W.failures sink.old) (W.failures sink.new)) }
        ensures quiet { OnOk result (W.failures sink.new ≡ W.failures sink.old) }
        ensures once { OnErr result (W.failures sink.new ≡ next_count (W.failures sink.old)) }
        ensures fault { IfErr result (λ e. W.last_fault sink.new ≡ Some e) }
    {
        let written = self.write_to(sink);
        mem::forget(self);
        written
    }

    /// Writes the pieces in order to any writer.
    fn write_text<W: fmt::Write>(&self, w: &mut W) -> fmt::Result
        ensures { OnOk result (WritesCharacters W.write_str_gives w.old (output_text self.now.format
            (document_view self.now.document) (rendered_view self.now.rendered)) w.new) }
    {
        let mut target = WriterTarget::new(w);
        self.push_to(&mut target);
        target.result()
    }

    /// Hands the pieces to the target, in order.
    fn push_to<T: TextTarget>(&self, target: &mut T)
        ensures { WritesCharacters T.takes target.old (output_text self.now.format
            (document_view self.now.document) (rendered_view self.now.rendered)) target.new }
    {
        push_document(
            target,
            &self.document.pieces,
            &self.rendered.citations,
            self.format,
        );
        push_bibliography(target, &self.rendered.bibliography, self.format);
    }
}

/// Hands over the texts of a document, and a citation instead of each marker.
fn push_document<T: TextTarget>(
    target: &mut T,
    pieces: &[Piece<'_>],
    citations: &[RenderedCitation],
    format: BufWriteFormat,
)
    ensures { WritesCharacters T.takes target.old (document_text format
        (map piece_view pieces.now) (map rendered_citation_view citations.now)) target.new }
{
    let mut left = citations;
    for piece in pieces {
        push_piece(target, piece, left, format);
        left = citations_after(piece, left);
    }
}

/// The citations that are left after a piece, of those that were left before it.
fn citations_after<'c>(piece: &Piece<'_>, left: &'c [RenderedCitation]) -> &'c [RenderedCitation]
    ensures { map rendered_citation_view result.now
        ≡ citations_after (piece_view piece.now) (map rendered_citation_view left.now) }
{
    match (piece, left) {
        (Piece::Marker(_), [_citation, others @ ..]) => others,
        _ => left,
    }
}

/// Hands over a text of the document, or the first of the citations that are left.
fn push_piece<T: TextTarget>(
    target: &mut T,
    piece: &Piece<'_>,
    left: &[RenderedCitation],
    format: BufWriteFormat,
)
    ensures { WritesCharacters T.takes target.old
        (piece_text format (piece_view piece.now) (map rendered_citation_view left.now))
        target.new }
{
    match (piece, left) {
        (Piece::Text(text), _) => push_text(target, text),
        (Piece::Marker(_), [citation, ..]) => citation.citation.push_to(target, format),
        (Piece::Marker(_), []) => {}
    }
}

/// Hands over a text.
fn push_text<T: TextTarget>(target: &mut T, text: &str)
    ensures { WritesCharacters T.takes target.old (chars text.now) target.new }
{
    target.push_str(text);
}

/// Hands over the bibliography, where there is one.
fn push_bibliography<T: TextTarget>(
    target: &mut T,
    bibliography: &Option<RenderedBibliography>,
    format: BufWriteFormat,
)
    ensures { WritesCharacters T.takes target.old (option_map_or (bibliography_text format)
        (option_map rendered_bibliography_view bibliography.now) []) target.new }
{
    match bibliography {
        Some(bibliography) => push_items(target, &bibliography.items, format),
        None => {}
    }
}

/// Hands over a line feed and items.
fn push_items<T: TextTarget>(target: &mut T, items: &[BibliographyItem], format: BufWriteFormat)
    ensures { WritesCharacters T.takes target.old
        (line_feed ∷ flat_map (item_text format) (map item_fields_view items.now)) target.new }
{
    target.push_str("\n");
    for item in items {
        push_item(target, item, format);
    }
}

/// Hands over an item, in a line.
fn push_item<T: TextTarget>(target: &mut T, item: &BibliographyItem, format: BufWriteFormat)
    ensures { WritesCharacters T.takes target.old
        (item_text format (item_fields_view item.now)) target.new }
{
    target.push_str(item_opening(format));
    push_field(target, &item.first_field, format);
    item.content.push_to(target, format);
    target.push_str(item_end(format));
}

/// Hands over a first field, where there is one, as the format writes it. It is an element.
fn push_field<T: TextTarget>(target: &mut T, field: &Option<ElemChild>, format: BufWriteFormat)
    ensures { WritesCharacters T.takes target.old
        (field_text format (option_and_then (λ x. element_if (child_view x)) field.now))
        target.new }
{
    match field {
        Some(ElemChild::Elem(element)) => element.push_to(target, format),
        _ => {}
    }
}

/// What stands before an item.
fn item_opening(format: BufWriteFormat) -> &'static str
    ensures { result.now ≡ text_of (item_opening format) }
{
    match format {
        BufWriteFormat::Plain => "",
        BufWriteFormat::Html => "<p>",
    }
}

/// What stands after it, with the end of its line.
fn item_end(format: BufWriteFormat) -> &'static str
    ensures { result.now ≡ text_of (item_end format) }
{
    match format {
        BufWriteFormat::Plain => "\n",
        BufWriteFormat::Html => "</p>\n",
    }
}
