//! The message for a source that is refused.

ghost use Rattle.std.specs.Prelude.{◌≡◌, ◌++◌, ◌∷◌, [], IfOk, OnOk, string_bytes, codes};
ghost use Rattle.std.specs.Fmt.{decimal};
ghost use Rattle.laws.specs.Characters.{line_feed, colon};
ghost use Rattle.source_positions.specs.Messages.{refusal_lines};

use crate::position::ShownPosition;
use std::alloc::{AllocError, Global};
use std::fmt::Write;

/// The message for a source that is refused after so many bytes of it: `FILE:LINE:COLUMN:` and why, the line, and a caret below the
/// position.
///
/// # Errors
/// Where a request for memory was refused.
pub fn refusal_lines(
    alloc: Global,
    path: &str,
    source: &[u8],
    at: usize,
    why: &str,
) -> Result<String, AllocError>
    ensures { IfOk result (λ lines. string_bytes lines
        ≡ refusal_lines path.now source.now at why.now) }
{
    let position = ShownPosition::new(alloc, source, at)?;
    let mut lines = String::new(alloc);
    push_head(&mut lines, path, position.number, position.column, why)?;
    push_line(&mut lines, position.line.as_str())?;
    push_line(&mut lines, position.mark.as_str())?;
    Ok(lines)
}

/// Appends `FILE:LINE:COLUMN:` and why, and a line feed.
///
/// # Errors
/// Where a request for memory was refused.
pub fn push_head(
    lines: &mut String,
    path: &str,
    number: usize,
    column: usize,
    why: &str,
) -> Result<(), AllocError>
    ensures { OnOk result (string_bytes lines.new ≡ string_bytes lines.old
        ++ (path.now ++ (colon ∷ (decimal number ++ (colon ∷ (decimal column
        ++ (codes ": " ++ (why.now ++ line_feed ∷ [])))))))) }
{
    write!(lines, "{path}:{number}:{column}: {why}\n")
}

/// Appends a line, and a line feed.
///
/// # Errors
/// Where a request for memory was refused.
pub fn push_line(lines: &mut String, line: &str) -> Result<(), AllocError>
    ensures { OnOk result (string_bytes lines.new
        ≡ string_bytes lines.old ++ (line.now ++ line_feed ∷ [])) }
{
    lines.push_str(line)?;
    lines.push('\n')
}
