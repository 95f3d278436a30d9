/// Why a line has no answer.
#[derive(Debug, Drop)]
pub enum Refusal {
    /// No memory was left for a request.
    Memory,
    /// The line is no JSON object, or it nests too deep.
    NoObject,
    /// No kind of cases has this name.
    UnknownKind(String),
    /// The kind has no member of this name.
    UnknownMember(String),
    /// What the member of the first name has to be is what the second text says.
    Wanted(&'static str, &'static str),
}
