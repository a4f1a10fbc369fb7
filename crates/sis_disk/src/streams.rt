//! Bytes that come from the outside, and bytes that go there.
ghost use Rattle.std.specs.Prelude.{◌≡◌, ◌<◌, ◌≤◌, ℕ, List, length, take, Option, IfOk, OnOk, OnErr};
ghost use Rattle.sis_disk.specs.Streams.{HasCause, Takes, TakesNothing, Appended, AppendedFront};

use thiserror::Error;

/// A read of a source failed.
#[derive(Clone, Copy, Debug, PartialEq, Eq, Error)]
#[error("the input failed")]
pub struct SourceFault;

/// A write to a sink failed.
#[derive(Clone, Copy, Debug, PartialEq, Eq, Error)]
#[error("the output failed")]
pub struct SinkFault;

/// Bytes to read, in pieces of any length.
pub trait Source {
    /// What is left, where it tells.
    ghost left: { Self → Option (List ℕ) };

    /// How often it has failed.
    ghost faults: { Self → ℕ };

    /// Takes the next bytes, and none only at the end of the input. After a fault nothing was
    /// taken.
    fn read(&mut self, into: &mut [u8]) -> Result<usize, SourceFault>
        requires { 0 < length into.old }
        ensures bound { IfOk result (λ n. n ≤ length into.old) }
        ensures bytes { IfOk result (λ n. Takes (left self.old) (left self.new) (take n into.new)) }
        ensures none { OnErr result (TakesNothing (left self.old) (left self.new)) }
        ensures cause { HasCause (faults self.old) (faults self.new) result };
}

/// A place for bytes.
pub trait Sink {
    /// What was written, where it tells.
    ghost written: { Self → Option (List ℕ) };

    /// How often it has failed.
    ghost faults: { Self → ℕ };

    /// Appends all the bytes, or a front of them at a fault.
    fn write(&mut self, bytes: &[u8]) -> Result<(), SinkFault>
        ensures ok { OnOk result (Appended (written self.old) (written self.new) bytes.now) }
        ensures err { OnErr result (AppendedFront (written self.old) (written self.new) bytes.now) }
        ensures cause { HasCause (faults self.old) (faults self.new) result };
}
