//! Identifiers and keys, which are runs of one class of characters.

ghost use Rattle.biblatex_text.specs.States.{identifier, key};

use crate::character::{is_id_continue, is_key};
use crate::state::RunState;

/// A kind, the name of a field or a bare value.
#[derive(Clone, Copy)]
pub(crate) struct IdentifierRun;

/// A key of an item in braces.
#[derive(Clone, Copy)]
pub(crate) struct KeyRun;

impl RunState for IdentifierRun {
    ghost run = { identifier };

    fn next(self, c: char) -> Option<IdentifierRun> {
        match c {
            'a'..='z' => Some(self),
            _ if is_id_continue(c) => Some(self),
            _ => None,
        }
    }
}

impl RunState for KeyRun {
    ghost run = { key };

    fn next(self, c: char) -> Option<KeyRun> {
        if is_key(c) { Some(self) } else { None }
    }
}
