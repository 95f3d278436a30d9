//! The lines for faults.

ghost use Rattle.std.specs.Prelude.{◌≡◌, ◌++◌, ◌∷◌, [], ℕ, List, IfOk, OnOk, string_bytes};
ghost use Rattle.laws.specs.Characters.{line_feed};
ghost use Rattle.fault_lines.specs.Messages as messages;
ghost use Rattle.fault_lines.specs.Messages.{fault_line};
ghost use Rattle.fault_lines.specs.Places.{IsPlace};
ghost use Rattle.fault_lines.specs.Views.{IsIn, lines_view, place_view};
ghost use Rattle.fault_lines.specs.Windows.{mark_at, window_at};

use crate::place::Place;
use crate::window::window_of;
use source_positions::{push_head, push_line};
use std::alloc::{AllocError, Global};

/// The lines for faults of a source, one after the other, and the place of the last one.
#[derive(Drop)]
pub struct FaultLines {
    pub(crate) lines: String,
    pub(crate) place: Place,
}

impl FaultLines {
    /// No lines, at the beginning of any source.
    pub fn new(alloc: Global) -> FaultLines
        ensures lines { lines_view result ≡ [] }
        ensures place { (source : List ℕ) → IsIn source result }
    {
        FaultLines {
            lines: String::new(alloc),
            place: Place::beginning(),
        }
    }

    /// The lines.
    pub fn into_string(self) -> String
        ensures { string_bytes result ≡ lines_view self }
    {
        self.lines
    }

    /// Goes on at the beginning of any source.
    pub fn restart(&mut self)
        ensures lines { lines_view self.new ≡ lines_view self.old }
        ensures place { (source : List ℕ) → IsIn source self.new }
    {
        self.place = Place::beginning();
    }

    /// Appends lines that are of no place.
    ///
    /// # Errors
    /// Where a request for memory was refused.
    pub fn push_text(&mut self, lines: &str) -> Result<(), AllocError>
        ensures lines { OnOk result (lines_view self.new ≡ lines_view self.old ++ lines.now) }
        ensures place { (source : List ℕ) → IsIn source self.old → IsIn source self.new }
    {
        self.lines.push_str(lines)
    }

    /// Appends a line for a fault after so many bytes of the source: `PATH:LINE:COLUMN:` and why.
    ///
    /// # Errors
    /// Where a request for memory was refused.
    pub fn push_line(
        &mut self,
        path: &str,
        source: &[u8],
        at: usize,
        why: &str,
    ) -> Result<(), AllocError>
        requires { IsIn source.now self.old }
        ensures lines { OnOk result (lines_view self.new
            ≡ lines_view self.old ++ fault_line path.now source.now at why.now) }
        ensures place { OnOk result (IsIn source.now self.new) }
    {
        let place = self.place.moved_to(source, at);
        self.place = place;
        push_at(&mut self.lines, path, source, place, why)
    }

    /// Appends the lines for a fault after so many bytes of the source: that line, what is shown of the line of the source, and a caret below
    /// the place.
    ///
    /// # Errors
    /// Where a request for memory was refused.
    pub fn push(
        &mut self,
        alloc: Global,
        path: &str,
        source: &[u8],
        at: usize,
        why: &str,
    ) -> Result<(), AllocError>
        requires { IsIn source.now self.old }
        ensures lines { OnOk result (lines_view self.new
            ≡ lines_view self.old ++ messages.fault_lines path.now source.now at why.now) }
        ensures place { OnOk result (IsIn source.now self.new) }
    {
        let place = self.place.moved_to(source, at);
        self.place = place;
        push_at(&mut self.lines, path, source, place, why)?;
        push_window(alloc, &mut self.lines, source, place)
    }
}

/// The lines for a fault of a source after so many bytes of it: `PATH:LINE:COLUMN:` and why, what is shown of the line, and a caret below the
/// place.
///
/// # Errors
/// Where a request for memory was refused.
pub fn fault_lines(
    alloc: Global,
    path: &str,
    source: &[u8],
    at: usize,
    why: &str,
) -> Result<String, AllocError>
    ensures { IfOk result (λ lines. string_bytes lines
        ≡ messages.fault_lines path.now source.now at why.now) }
{
    let mut faults = FaultLines::new(alloc);
    faults.push(alloc, path, source, at, why)?;
    Ok(faults.into_string())
}

/// Appends `PATH:LINE:COLUMN:` and why, for a place of the source.
fn push_at(
    lines: &mut String,
    path: &str,
    source: &[u8],
    place: Place,
    why: &str,
) -> Result<(), AllocError>
    requires { IsPlace source.now (place_view place) }
    ensures { OnOk result (string_bytes lines.new
        ≡ string_bytes lines.old ++ fault_line path.now source.now place.at why.now) }
{
    // A slice has fewer than 2^63 bytes, and so fewer than 2^63 characters.
    let _size = source.len();
    push_head(lines, path, place.number, place.begun + 1, why)
}

/// Appends what is shown of the line with a place of the source, and the mark below it.
fn push_window(
    alloc: Global,
    lines: &mut String,
    source: &[u8],
    place: Place,
) -> Result<(), AllocError>
    requires { IsPlace source.now (place_view place) }
    ensures { OnOk result (string_bytes lines.new ≡ string_bytes lines.old
        ++ (window_at source.now place.at
        ++ (line_feed ∷ (mark_at source.now place.at ++ line_feed ∷ [])))) }
{
    let shown = window_of(alloc, source, place)?;
    push_line(lines, shown.line.as_str())?;
    push_line(lines, shown.mark.as_str())
}
