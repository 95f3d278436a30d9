//! The messages for refusals, each of which is one line.

ghost use Rattle.cite_command.specs.OneLine.{RefusalsHaveLineMessages};

/// Every refusal of a call, and every field that cannot be read, is reported without a line feed.
pub fn refusals_have_line_messages()
    ensures { RefusalsHaveLineMessages }
{}
