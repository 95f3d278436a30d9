//! Lines for faults of files that are read as one.

ghost use Rattle.std.specs.Prelude.{◌≡◌, ◌++◌, [], ℕ, List, IfNone, IfSome, OnOk, slice_get, Some, string_bytes};
ghost use Rattle.fault_lines.specs.Views.{IsIn};
ghost use Rattle.cite_csl_styles.specs.JoinedFaults.{IsAmong, IsWithin, lines_view};
ghost use Rattle.cite_csl_styles.specs.Sources as sources;
ghost use Rattle.cite_csl_styles.specs.Views.{source_view, sources_view};

use crate::sources::{SourceFile, line};
use fault_lines::FaultLines;
use std::alloc::{AllocError, Global};

/// The lines for faults of files that are read as one, and how many files come before that of the last one.
#[derive(Drop)]
pub struct JoinedFaults {
    pub(crate) faults: FaultLines,
    pub(crate) before: usize,
}

impl JoinedFaults {
    /// No lines.
    pub fn new(alloc: Global) -> JoinedFaults
        ensures lines { lines_view result ≡ [] }
        ensures place { (files : List sources.SourceFile) → IsAmong files result }
    {
        JoinedFaults {
            faults: FaultLines::new(alloc),
            before: 0,
        }
    }

    /// The lines.
    pub fn into_string(self) -> String
        ensures { string_bytes result ≡ lines_view self }
    {
        let JoinedFaults { faults, before: _ } = self;
        faults.into_string()
    }

    /// Appends a line that is of no place.
    ///
    /// # Errors
    /// Where a request for memory was refused.
    pub fn push_line(&mut self, alloc: Global, message: &str) -> Result<(), AllocError>
        ensures lines { OnOk result (lines_view self.new
            ≡ lines_view self.old ++ sources.line message.now) }
        ensures place { OnOk result ((files : List sources.SourceFile)
            → IsAmong files self.old → IsAmong files self.new) }
    {
        let said = line(alloc, message, "")?;
        self.faults.push_text(said.as_str())
    }

    /// Goes on in a file, after so many others.
    fn go_to(&mut self, before: usize)
        ensures lines { lines_view self.new ≡ lines_view self.old }
        ensures before { self.new.before ≡ before }
        ensures place { (files : List sources.SourceFile)
            → IsAmong files self.old → IsAmong files self.new }
    {
        if before != self.before {
            self.faults.restart();
            self.before = before;
        }
    }

    /// Appends the lines that say why files, which are read as one, are refused at a byte.
    ///
    /// # Errors
    /// Where a request for memory was refused.
    pub fn push(
        &mut self,
        alloc: Global,
        files: &[SourceFile<'_>],
        at: usize,
        why: &str,
    ) -> Result<(), AllocError>
        requires { IsAmong (sources_view files.now) self.old }
        ensures lines { OnOk result (lines_view self.new
            ≡ lines_view self.old ++ sources.lines_at (sources_view files.now) at why.now) }
        ensures place { OnOk result (IsAmong (sources_view files.now) self.new) }
    {
        let Some((before, file, left)) = file_with(files, at) else {
            return self.push_line(alloc, why);
        };
        self.go_to(before);
        self.faults.push(alloc, file.path, file.bytes, left, why)
    }
}

/// The file that has a byte of files that are read as one, or that ends there: how many come before it, and after how many of its bytes.
fn file_with<'f>(files: &[SourceFile<'f>], at: usize) -> Option<(usize, SourceFile<'f>, usize)>
    ensures some { IfSome result (λ x.
        IsWithin (sources_view files.now) at x.0 (source_view x.1) x.2) }
    ensures none { IfNone result (sources_view files.now ≡ []) }
{
    let mut left = at;
    for (before, file) in files.iter().enumerate() {
        if before + 1 == files.len() || left <= file.bytes.len() {
            return Some((before, *file, left));
        }
        left = left - file.bytes.len() - 1;
    }
    None
}
