//! The filter: all is known before anything is written.

ghost use Rattle.std.specs.Prelude.{◌≡◌, map, IfErr, IfOk, OnOk, string_bytes};
ghost use Rattle.laws.specs.Text.{spelled};
ghost use Rattle.rendering_locale.specs.Views.{locale_view};
ghost use Rattle.rendering_style.specs.StyleViews.{style_view};
ghost use Rattle.cite.specs.Finished.{finished};
ghost use Rattle.cite_requests.specs.Requests.{context_of};
ghost use Rattle.std.specs.Io.KnownBytes.{Appends};
ghost use Rattle.laws.specs.Counts.{next_count};
ghost use Rattle.laws.specs.Borrowed.{borrowed};
ghost use Rattle.sinks.specs.Sinks.{HasFailed, AppendsPrefix};
ghost use Rattle.cite_markers.specs.Views.{document_view};
ghost use Rattle.driver.specs.RenderedViews.{rendered_view};
ghost use Rattle.cite.specs.Verdict.{IsVerdict, rendered_stage};
ghost use Rattle.cite.specs.Alike.{ForAlike};
ghost use Rattle.cite.specs.Cited.{IsCited, IsRefusedAlike};
ghost use Rattle.cite.specs.Roads.{ForRewriting};
ghost use Rattle.cite_output.specs.Pieces.{output_of};
ghost use Rattle.cite_requests.specs.Views.{file_works};
ghost use Rattle.cite.specs.Views.{task_of};
ghost use Rattle.cite_requests.specs.Answers.{Answers, Gives, Writes, UnlessWrite, OnWrite, IsLastFault};

use crate::memory::{Ending, Memory};
use cite_markers::Document;
use cite_output::Output;
use cite_requests::{
    BibFile, CiteError, CitingSetting, MarkerRequest, chosen, language, marker_requests,
    read_document, selectors,
};
use driver::{BibliographyDriver, Rendered};
use driver_requests::{BibliographyRequest, DriverError};
use literature_entries::Entry;
use rendering_locale::Locale;
use rendering_output::BufWriteFormat;
use rendering_style::Style;
use sinks::Sink;
use std::alloc::Global;
use std::slice;

/// Citations and bibliography of a document. The file is dropped before the driver begins, which prints entries of the library alone.
fn render(
    memory: Memory,
    bib_file: BibFile,
    style: &Style,
    locale: &Locale,
    document: &Document<'_>,
    sections: &[&str],
) -> Result<Rendered, CiteError>
    ensures { Gives rendered_view result (rendered_stage (file_works bib_file)
        (context_of (style_view style.now) (locale_view locale.now))
        (map spelled sections.now) (document_view document.now)) }
{
    let alloc = memory.alloc;
    let library = bib_file.library(alloc, document, sections)?;
    let setting = CitingSetting {
        library: &library,
        style,
        locale,
    };
    let requests = marker_requests(alloc, &bib_file, setting, document)?;
    drop(bib_file);
    let selectors = selectors(alloc, sections)?;
    let chosen = chosen(alloc, &selectors, &library)?;
    let rendered = finish(alloc, requests, style, locale, &chosen);
    memory.free_or_leave(chosen);
    memory.free_or_leave(library);
    rendered
}

/// Citations and bibliography of requests, in the order in which entries are chosen.
fn finish<'x>(
    alloc: Global,
    requests: Vec<MarkerRequest<'x>>,
    style: &'x Style,
    locale: &'x Locale,
    chosen: &'x [&'x Entry],
) -> Result<Rendered, CiteError>
    ensures { Gives rendered_view result (finished ⟦<Entry as PartialEq>⟧.eq
        (context_of (style_view style.now) (locale_view locale.now)) requests.entry.items
        (borrowed chosen.now)) }
{
    let driver = BibliographyDriver::from_citations(alloc, requests);
    let request = BibliographyRequest::new(style, language(locale)?, slice::from_ref(locale));
    match driver.finish(request.with_order(chosen)) {
        Ok(rendered) => Ok(rendered),
        Err(DriverError::Memory) => Err(CiteError::Memory),
        Err(DriverError::Overflow) => Err(CiteError::Overflow),
    }
}

/// The output of a call, before any of it is written.
fn compose<'d>(
    memory: Memory,
    bib: &[u8],
    document: &'d [u8],
    style: &Style,
    locale: &Locale,
    sections: &[&str],
    format: BufWriteFormat,
) -> Result<Output<'d>, CiteError>
    ensures { Answers output_of result
        (IsVerdict bib.now (task_of document.now style.now locale.now sections.now format)) }
{
    let alloc = memory.alloc;
    let bib_file = BibFile::read(alloc, bib)?;
    let document = read_document(alloc, document)?;
    let rendered = render(memory, bib_file, style, locale, &document, sections)?;
    Ok(Output {
        document,
        rendered,
        format,
    })
}

/// The output of `cite` as a text: the document with its markers replaced, and the bibliography of the cited entries after it.
///
/// `bib` is a BibLaTeX file, `document` a text with markers such as `[@name]` and `[-@one; prose @two page 3]`; both are UTF-8. A name is
/// the key of an entry or an alias in its `ids`. Each section is a selector: the entries that it chooses come first in the bibliography, so
/// far as they are cited, section by section and in the order of the file.
///
/// # Errors
/// The first refusal in this order: `BibText`; `Fields`; `Document`; `Name`; `Selector`; `Overflow`. `Memory` may stand instead of any
/// answer.
pub fn cite_to_string(
    alloc: Global,
    bib: &[u8],
    document: &[u8],
    style: &Style,
    locale: &Locale,
    sections: &[&str],
    format: BufWriteFormat,
) -> Result<String, CiteError>
    // The text is exactly the output; an error is the first refusal, with its fault.
    ensures text { Answers (λ s. string_bytes s) result
        (IsVerdict bib.now (task_of document.now style.now locale.now sections.now format)) }
    // So it is for each bib text that is alike to this one.
    ensures alike { ForAlike bib.now (task_of document.now style.now locale.now sections.now format)
        (λ other. Answers (λ s. string_bytes s) result
        (IsVerdict other (task_of document.now style.now locale.now sections.now format))) }
    // And so it is for what is written of its entries without `crossref`, if these are settled and none has two
    // fields that are written under one name.
    ensures rewriting { ForRewriting bib.now (λ other. Answers (λ s. string_bytes s) result
        (IsVerdict other (task_of document.now style.now locale.now sections.now format))) }
{
    let memory = Memory {
        alloc,
        ending: Ending::GivenBack,
    };
    let output = compose(memory, bib, document, style, locale, sections, format)?;
    Ok(output.to_text(alloc)?)
}

/// Replaces each marker of the document by its citation and writes the bibliography of the cited entries after it: writes what
/// `cite_to_string` returns, piece by piece, once all of it is known. Nothing that takes memory is done after the first piece.
///
/// # Errors
/// Those of `cite_to_string`, after which nothing was written. `Write` where a call of the sink's `write` failed or took nothing: the sink then
/// holds a prefix of the output.
pub fn cite<W: Sink>(
    alloc: Global,
    bib: &[u8],
    document: &[u8],
    style: &Style,
    locale: &Locale,
    sections: &[&str],
    format: BufWriteFormat,
    sink: &mut W,
) -> Result<(), CiteError>
    // The sink has taken exactly the output. It is the output of each bib text that is alike to this one too, and of what is written of the
    // entries without `crossref`, if these are settled and none has two fields that are written under one name.
    ensures written { OnOk result (IsCited bib.now
        (task_of document.now style.now locale.now sections.now format)
        (λ output. Appends (W.contents sink.old) (W.contents sink.new) output)) }
    // A refusal is the first one, with its fault; and what is written of those entries is refused at the same stage, with the same fault.
    ensures refused { IfErr result (IsRefusedAlike bib.now
        (task_of document.now style.now locale.now sections.now format)) }
    // Nothing is written after any refusal but a failed write.
    ensures untouched { IfErr result (λ e. UnlessWrite e (sink.new ≡ sink.old)) }
    // After a failed write a prefix of the output stands, and some call of `write` failed or took nothing.
    ensures cut_short { IfErr result (λ e. OnWrite e
        (Writes (IsVerdict bib.now (task_of document.now style.now locale.now sections.now format))
        (λ output. AppendsPrefix (W.contents sink.old) (W.contents sink.new) output))) }
    ensures cause { IfErr result (λ e.
        OnWrite e (HasFailed (W.failures sink.old) (W.failures sink.new))) }
    // No call of `write` failed before Ok, and none was tried after one that did.
    ensures quiet { OnOk result (W.failures sink.new ≡ W.failures sink.old) }
    ensures once { IfErr result (λ e. OnWrite e (W.failures sink.new
        ≡ next_count (W.failures sink.old))) }
    // The fault of a failed write is what that call did.
    ensures fault { IfErr result (λ e. IsLastFault e (W.last_fault sink.new)) }
{
    let memory = Memory {
        alloc,
        ending: Ending::GivenBack,
    };
    let output = compose(memory, bib, document, style, locale, sections, format)?;
    match output.write_to(sink) {
        Ok(()) => Ok(()),
        Err(fault) => Err(CiteError::Write(fault)),
    }
}

/// Does what `cite` does, as the last thing before the process ends: most of what it took of memory is not given back.
///
/// # Errors
/// Those of `cite`.
pub fn cite_at_exit<W: Sink>(
    alloc: Global,
    bib: &[u8],
    document: &[u8],
    style: &Style,
    locale: &Locale,
    sections: &[&str],
    format: BufWriteFormat,
    sink: &mut W,
) -> Result<(), CiteError>
    // The sink has taken exactly the output. It is the output of each bib text that is alike to this one too, and of what is written of the
    // entries without `crossref`, if these are settled and none has two fields that are written under one name.
    ensures written { OnOk result (IsCited bib.now
        (task_of document.now style.now locale.now sections.now format)
        (λ output. Appends (W.contents sink.old) (W.contents sink.new) output)) }
    // A refusal is the first one, with its fault; and what is written of those entries is refused at the same stage, with the same fault.
    ensures refused { IfErr result (IsRefusedAlike bib.now
        (task_of document.now style.now locale.now sections.now format)) }
    // Nothing is written after any refusal but a failed write.
    ensures untouched { IfErr result (λ e. UnlessWrite e (sink.new ≡ sink.old)) }
    // After a failed write a prefix of the output stands, and some call of `write` failed or took nothing.
    ensures cut_short { IfErr result (λ e. OnWrite e
        (Writes (IsVerdict bib.now (task_of document.now style.now locale.now sections.now format))
        (λ output. AppendsPrefix (W.contents sink.old) (W.contents sink.new) output))) }
    ensures cause { IfErr result (λ e.
        OnWrite e (HasFailed (W.failures sink.old) (W.failures sink.new))) }
    // No call of `write` failed before Ok, and none was tried after one that did.
    ensures quiet { OnOk result (W.failures sink.new ≡ W.failures sink.old) }
    ensures once { IfErr result (λ e. OnWrite e (W.failures sink.new
        ≡ next_count (W.failures sink.old))) }
    // The fault of a failed write is what that call did.
    ensures fault { IfErr result (λ e. IsLastFault e (W.last_fault sink.new)) }
{
    let memory = Memory {
        alloc,
        ending: Ending::Left,
    };
    let output = compose(memory, bib, document, style, locale, sections, format)?;
    match output.write_last(sink) {
        Ok(written) => Ok(written),
        Err(failed) => Err(CiteError::Write(failed)),
    }
}
