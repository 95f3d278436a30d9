//! A writer into memory, to which limits can be set.

ghost use Rattle.std.specs.Prelude.{◌≤◌, length};
ghost use Rattle.std.specs.Io.{WritesAtMost};

use std::alloc::Global;
use std::io;
use std::io::{ErrorKind, Write};

/// What limits a writer; without limits it takes all.
#[derive(Clone, Copy)]
pub(crate) struct Limits {
    /// How many bytes a call takes at most.
    pub(crate) bytes_a_call: Option<usize>,
    /// How many calls take bytes before all others return an error.
    pub(crate) calls_before_error: Option<u64>,
    /// How many calls take bytes before all others take nothing.
    pub(crate) calls_before_nothing: Option<u64>,
}

/// A writer into memory.
#[derive(Drop)]
pub struct Taker {
    /// What it has taken.
    pub taken: Vec<u8>,
    /// Whether there was no memory for what it was to take.
    pub lacks_memory: bool,
    limits: Limits,
}

impl Taker {
    /// A writer that has taken nothing.
    pub(crate) fn new(alloc: Global, limits: Limits) -> Taker {
        Taker {
            taken: Vec::new(alloc),
            lacks_memory: false,
            limits,
        }
    }

    /// Takes a prefix of the bytes.
    fn take(&mut self, bytes: &[u8]) -> io::Result<usize>
        ensures { WritesAtMost result bytes.now }
    {
        let prefix = prefix_of(bytes, self.limits.bytes_a_call);
        match self.taken.extend_from_slice(prefix) {
            Ok(()) => Ok(prefix.len()),
            Err(_) => {
                self.lacks_memory = true;
                Err(io::Error::from(ErrorKind::OutOfMemory))
            }
        }
    }
}

impl Write for Taker {
    fn write(&mut self, bytes: &[u8]) -> io::Result<usize> {
        if !count_down(&mut self.limits.calls_before_error) {
            return Err(io::Error::from(ErrorKind::StorageFull));
        }
        if !count_down(&mut self.limits.calls_before_nothing) {
            return Ok(0);
        }
        self.take(bytes)
    }

    fn flush(&mut self) -> io::Result<()> {
        Ok(())
    }
}

/// Takes one off a count; false where none is left. Without a count there is always one left.
fn count_down(count: &mut Option<u64>) -> bool {
    match count {
        None => true,
        Some(0) => false,
        Some(left) => {
            *left -= 1;
            true
        }
    }
}

/// The first bytes, so many at most.
fn prefix_of(bytes: &[u8], most: Option<usize>) -> &[u8]
    ensures { length result.now ≤ length bytes.now }
{
    match most {
        Some(most) if most < bytes.len() => &bytes[..most],
        _ => bytes,
    }
}
