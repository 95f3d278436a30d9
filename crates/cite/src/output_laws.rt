//! What holds of the outputs of all documents.

ghost use Rattle.cite.specs.Alike.{AlikeTextsHaveOneVerdict};
ghost use Rattle.cite.specs.Roads.{RewritingHasTheSameVerdicts};
ghost use Rattle.cite.specs.Replaced.{CitationsDependOnMarkersAlone, TextsComeOutUnchanged};

/// An output is the document with a citation instead of each marker, and a bibliography after it: each text of the document comes out
/// as it stands there, in order, but for one backslash directly before an opening.
pub fn texts_come_out_unchanged()
    ensures { TextsComeOutUnchanged }
{}

/// Citations and bibliography depend on the markers of the document alone, not on the texts around them.
pub fn citations_depend_on_markers_alone()
    ensures { CitationsDependOnMarkersAlone }
{}

/// Bib texts that are alike for a document, style, locale, sections and format have one output.
pub fn alike_texts_have_one_verdict()
    ensures { AlikeTextsHaveOneVerdict }
{}

/// A bib text whose entries are settled without `crossref`, and the text that is written of these, have the same output for every document,
/// style, locale, sections and format, or are refused at the same stage with the same fault; if no entry has two fields that are written under
/// one name.
pub fn rewriting_has_the_same_verdicts()
    ensures { RewritingHasTheSameVerdicts }
{}
