//! A BibLaTeX file and a document to a text.

ghost use Rattle.std.specs.Prelude.{string_bytes};
ghost use Rattle.cite_requests.specs.Answers.{Answers};
ghost use Rattle.cite.specs.Verdict.{IsVerdict};
ghost use Rattle.cite_uses.specs.Tasks.{by_numbers};

use cite::{BufWriteFormat, CiteError, cite_to_string, english, numeric};
use std::alloc::Global;

/// A document with its citations as numbers in square brackets, and the numbered bibliography after it, in plain text.
///
/// # Errors
/// Why the file or the document is refused; `Memory` where a request for memory was refused.
pub fn cited_by_numbers(alloc: Global, bib: &[u8], document: &[u8]) -> Result<String, CiteError>
    // The text is exactly the output that is defined for this task, or the error is the first refusal, with its fault.
    ensures { Answers (λ s. string_bytes s) result (IsVerdict bib.now (by_numbers document.now)) }
{
    let style = numeric(alloc)?;
    let locale = english(alloc)?;
    cite_to_string(
        alloc,
        bib,
        document,
        &style,
        &locale,
        &[],
        BufWriteFormat::Plain,
    )
}
