//! What the people in an `editor` field did.

ghost use Rattle.std.specs.Prelude.{◌≡◌, false, IfOk, MatchOption};
ghost use Rattle.std.specs.Str.{chars};
ghost use Rattle.laws.specs.Text.{lowered};
ghost use Rattle.biblatex_values.specs.EditorType.{editor_of, editor_name};

use std::alloc::{AllocError, Global};

/// What the people in an `editor` field did, as its `editortype` says.
#[derive(Debug, PartialEq, Eq, Drop)]
pub enum EditorType {
    Editor,
    Compiler,
    Founder,
    Continuator,
    Redactor,
    Reviser,
    Collaborator,
    Organizer,
    Director,
    /// Something else, by its name in lower ASCII case.
    Unknown(String),
}

impl EditorType {
    /// The editor type of that name in any ASCII case.
    pub fn new(alloc: Global, name: &str) -> Result<EditorType, AllocError>
        ensures { IfOk result (λ t. editor_name t ≡ editor_of (lowered (chars name.now))) }
    {
        let name = name.to_ascii_lowercase(alloc)?;
        match known(name.as_str()) {
            Some(editor_type) => Ok(editor_type),
            None => Ok(EditorType::Unknown(name)),
        }
    }

    /// Its name in lower ASCII case; one that was made by hand has its name as it is.
    pub fn name(&self) -> &str
        ensures { result.now ≡ (editor_name self.now).name }
    {
        match self {
            EditorType::Editor => "editor",
            EditorType::Compiler => "compiler",
            EditorType::Founder => "founder",
            EditorType::Continuator => "continuator",
            EditorType::Redactor => "redactor",
            EditorType::Reviser => "reviser",
            EditorType::Collaborator => "collaborator",
            EditorType::Organizer => "organizer",
            EditorType::Director => "director",
            EditorType::Unknown(name) => name.as_str(),
        }
    }
}

/// The editor type of a known name in lower case.
fn known(name: &str) -> Option<EditorType>
    ensures { MatchOption result (editor_of name.now ≡ record { name = name.now; is_known = false })
        (λ t. editor_name t ≡ editor_of name.now) }
{
    match name {
        "editor" => Some(EditorType::Editor),
        "compiler" => Some(EditorType::Compiler),
        "founder" => Some(EditorType::Founder),
        "continuator" => Some(EditorType::Continuator),
        "redactor" => Some(EditorType::Redactor),
        "reviser" => Some(EditorType::Reviser),
        "collaborator" => Some(EditorType::Collaborator),
        "organizer" => Some(EditorType::Organizer),
        "director" => Some(EditorType::Director),
        _ => None,
    }
}
