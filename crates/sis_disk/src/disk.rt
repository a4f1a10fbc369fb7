//! A disk: its calls, and what contracts see of them.
ghost use Rattle.std.specs.Prelude.{◌≡◌, ◌+◌, ◌≤◌, length, slice_range, IfSome, OnOk};
ghost use Rattle.sis_disk.specs.Record.{Seen, Reads, Writes, Syncs, Went, live_bytes};

use thiserror::Error;

/// A call of a disk failed, or was refused.
#[derive(Clone, Copy, Debug, PartialEq, Eq, Error)]
#[error("the disk failed")]
pub struct DiskFault;

/// Bytes at fixed positions, which are written, and made stable by a sync.
///
/// A call that was made has a number, the first one 0. A disk may also refuse a call: it then fails
/// and counts as a fault, but was not made, and changes nothing.
pub trait Disk: Drop {
    /// Its length, its counts, and its record where it tells that.
    ghost seen: { Self → Seen };

    /// The length in bytes, which never changes.
    fn len(&self) -> u64
        ensures { result ≡ (seen self.now).size };

    /// How many calls of `read`, `write` and `sync` were made so far.
    fn calls(&self) -> u64
        ensures { result ≡ (seen self.now).calls };

    /// How many calls failed or were refused so far. It stands still at its type's end.
    fn faults(&self) -> u64
        ensures { result ≡ (seen self.now).faults };

    /// Reads the live bytes from `at` on.
    fn read(&mut self, at: u64, into: &mut [u8]) -> Result<(), DiskFault>
        requires { at + length into.old ≤ (seen self.old).size }
        ensures call { Went (Reads at (length into.old)) result (seen self.old) (seen self.new) }
        ensures live { OnOk result (IfSome (seen self.old).told
            (λ r. into.new ≡ slice_range (live_bytes r) at (at + length into.old))) };

    /// Writes bytes at `at`. Until a sync succeeds a stop may leave anything in their place.
    fn write(&mut self, at: u64, bytes: &[u8]) -> Result<(), DiskFault>
        requires { at + length bytes.now ≤ (seen self.old).size }
        ensures call { Went (Writes at bytes.now) result (seen self.old) (seen self.new) };

    /// Makes all that was written stable.
    fn sync(&mut self) -> Result<(), DiskFault>
        ensures call { Went Syncs result (seen self.old) (seen self.new) };

    /// The record has each call that was made.
    ghost counted: { (disk : Self) → IfSome (seen disk).told
        (λ r. length r.calls ≡ (seen disk).calls) };

    /// The live bytes have the disk's length.
    ghost sized: { (disk : Self) → IfSome (seen disk).told
        (λ r. length (live_bytes r) ≡ (seen disk).size) };
}
