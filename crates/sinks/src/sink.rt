//! Where output goes: sinks, and the loop that writes to them.

ghost use Rattle.std.specs.Prelude.{◌≡◌, List, Option, None, Some, ℕ, length, OnOk, OnErr, IfErr};
ghost use Rattle.std.specs.Io.{WritesAtMost};
ghost use Rattle.std.specs.Io.KnownBytes.{Appends, WriteAppends};
ghost use Rattle.laws.specs.Counts.{next_count};
ghost use Rattle.sinks.specs.declared.sink.SinkFault.{SinkFault};
ghost use Rattle.sinks.specs.Sinks.{fault_in, fault_after, CountsFailure, HasFailed, AppendsPrefix};

use std::io;
use std::io::Write;

/// What takes output. It counts the calls of `write` that failed, or took 0 bytes of some.
pub trait Sink {
    /// The bytes that it has taken, where they are known.
    ghost contents: { Self → Option (List ℕ) };
    /// How many calls failed or took 0 bytes of some; the last value of a `u64` stays.
    ghost failures: { Self → ℕ };
    /// What the last of these calls did, if there was one.
    ghost last_fault: { Self → Option SinkFault };

    /// Takes a prefix of the bytes, and says how many it took.
    fn write(&mut self, bytes: &[u8]) -> io::Result<usize>
        ensures bound { WritesAtMost result bytes.now }
        ensures bytes { WriteAppends (contents self.old) (contents self.new) result bytes.now }
        ensures count { CountsFailure (failures self.old) (failures self.new) result bytes.now }
        ensures fault { last_fault self.new ≡ fault_after (last_fault self.old) result bytes.now };

    /// How many calls failed or took 0 bytes of some; the last value stays.
    fn failures(&self) -> u64
        ensures { result ≡ failures self.now };

    /// What the last of these calls did, if there was one.
    fn last_fault(&self) -> Option<SinkFault>
        ensures { result ≡ last_fault self.now };
}

/// Why a sink did not take all of an output.
#[derive(Clone, Copy, Debug, PartialEq, Eq)]
pub enum SinkFault {
    /// A call of `write` answered an error.
    Failed,
    /// A call of `write` took 0 bytes of some.
    TookNothing,
}

/// A sink over any writer, with the count.
#[derive(Debug, Drop)]
pub struct Tap<W> {
    writer: W,
    failures: u64,
    last_fault: Option<SinkFault>,
}

impl<W: Write> Tap<W> {
    /// A sink over the writer that has not failed yet.
    pub fn new(writer: W) -> Tap<W>
        ensures contents { W.contents result.writer ≡ W.contents writer }
        ensures count { result.failures ≡ 0 }
        ensures fault { result.last_fault ≡ None }
    {
        Tap {
            writer,
            failures: 0,
            last_fault: None,
        }
    }

    /// The writer.
    pub fn into_inner(self) -> W
        ensures { result ≡ self.writer }
    {
        let Tap {
            writer,
            failures: _,
            last_fault: _,
        } = self;
        writer
    }
}

impl<W: Write> Sink for Tap<W> {
    ghost contents = { λ t. W.contents t.writer };

    ghost failures = { λ t. t.failures };

    ghost last_fault = { λ t. t.last_fault };

    fn write(&mut self, bytes: &[u8]) -> io::Result<usize> {
        let taken = self.writer.write(bytes);
        if let Some(fault) = fault_in(&taken, bytes) {
            self.failures = self.failures.saturating_add(1);
            self.last_fault = Some(fault);
        }
        taken
    }

    fn failures(&self) -> u64 {
        self.failures
    }

    fn last_fault(&self) -> Option<SinkFault> {
        self.last_fault
    }
}

/// What is wrong with the answer of a call of `write` with these bytes, if something is.
fn fault_in(taken: &io::Result<usize>, bytes: &[u8]) -> Option<SinkFault>
    ensures { result ≡ fault_in taken.now bytes.now }
{
    match taken {
        Err(_) => Some(SinkFault::Failed),
        Ok(0) if !bytes.is_empty() => Some(SinkFault::TookNothing),
        Ok(_) => None,
    }
}

/// Writes all of the bytes. A call of `write` that fails or takes nothing ends it and is not tried again: the sink has then
/// taken a prefix of them.
pub fn write_all<W: Sink>(sink: &mut W, bytes: &[u8]) -> Result<(), SinkFault>
    ensures ok { OnOk result (Appends (W.contents sink.old) (W.contents sink.new) bytes.now) }
    ensures err { OnErr result
        (AppendsPrefix (W.contents sink.old) (W.contents sink.new) bytes.now) }
    ensures cause { OnErr result (HasFailed (W.failures sink.old) (W.failures sink.new)) }
    // No call failed; or the last one did, and none was tried after it.
    ensures quiet { OnOk result (W.failures sink.new ≡ W.failures sink.old) }
    ensures once { OnErr result (W.failures sink.new ≡ next_count (W.failures sink.old)) }
    // The fault is what that call did.
    ensures fault { IfErr result (λ e. W.last_fault sink.new ≡ Some e) }
{
    let mut rest = bytes;
    while !rest.is_empty() {
        match sink.write(rest) {
            Err(_) => return Err(SinkFault::Failed),
            Ok(0) => return Err(SinkFault::TookNothing),
            Ok(taken) => rest = &rest[taken..],
        }
    }
    Ok(())
}
