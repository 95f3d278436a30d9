//! Each call of `cite` has a verdict, and each run of the program an end, so that their contracts always allow another answer than out of
//! memory.

ghost use Rattle.cite_laws.specs.Ends.{EachRunHasOneEnd};
ghost use Rattle.cite_laws.specs.Verdicts.{EachCallHasOneVerdict};

/// Bytes of a bib text have a verdict with each document, style, locale, sections and format, and only one.
pub fn each_call_has_one_verdict()
    ensures { EachCallHasOneVerdict }
{}

/// Words have an end over files for which memory did not run out, and only one: an output is served, or a fault is reported.
pub fn each_run_has_one_end()
    ensures { EachRunHasOneEnd }
{}
