//! A disk in memory, which keeps each call, and fails at the calls that it was told.
ghost use Rattle.std.specs.Prelude.{◌≡◌, ◌+◌, ◌≤◌, ◌++◌, [], length, slice_range, Some, IfOk, OnOk, IfSome};
ghost use Rattle.sis_disk.specs.Record.{Reads, Writes, Syncs, IsImageAfter, Went, live_bytes, state_at};
ghost use Rattle.sis_disk.specs.Live.{sized_by, counted_by};
ghost use Rattle.sis_disk.specs.Memory.{Answers, seen_of};
ghost use Rattle.sis_disk.specs.Picks.{picked, synced_at};

use crate::log::{Kind, Log};
use crate::replay::lay;
use crate::{Disk, DiskFault, Pick};
use std::alloc::{AllocError, Global};
use std::marker::Model;

/// A disk in memory, for tests and proofs about calls that fail.
///
/// It tells its record. A call takes 32 bytes of the room for the record, and a write its bytes
/// besides.
#[derive(Drop)]
pub struct Memory {
    bytes: Vec<u8>,
    log: Log,
}

impl Model for Memory {
    ghost use Rattle.std.specs.Prelude.{◌≡◌};
    ghost use Rattle.sis_disk.specs.Record.{live_bytes};
    ghost use Rattle.sis_disk.specs.Memory.{MemoryView};
    ghost use Rattle.sis_disk.specs.Replay.{AllFit};

    ghost Value = { MemoryView };

    ghost view = { λ a. a.log };

    ghost invariant = { λ a. (a.bytes.items ≡ live_bytes a.log.told) × AllFit a.log.told };
}

impl Memory {
    /// A disk with these bytes and `room` bytes for its record, which fails at the calls with the
    /// numbers in `fails`.
    pub fn new(
        alloc: Global,
        bytes: Vec<u8>,
        fails: Vec<u64>,
        room: u64,
    ) -> Result<Memory, AllocError>
        ensures { IfOk result (λ disk. disk ≡ record {
          told = record { opening = bytes.items; calls = [] };
          fails = fails.items;
          room = room;
          faults = 0;
        }) }
    {
        let opening = bytes.to_vec(alloc)?;
        Ok(Memory {
            bytes,
            log: Log::new(alloc, opening, fails, room)?,
        })
    }

    /// The live bytes.
    pub fn bytes(&self) -> &[u8]
        ensures { result.now ≡ live_bytes self.now.told }
    {
        &self.bytes
    }

    /// An image that a stop after the first `k` calls may leave, or after all where there are
    /// fewer.
    pub fn image(&self, alloc: Global, k: u64, pick: Pick) -> Result<Vec<u8>, AllocError>
        ensures picked { IfOk result (λ m.
            m.items ≡ picked pick (state_at self.now.told k) (synced_at self.now.told k)) }
        ensures image { IfOk result (λ m. IsImageAfter self.now.told k m.items) }

        // What the two plain picks are.
        ensures old { pick ≡ Pick.Old → IfOk result (λ m. m.items ≡ synced_at self.now.told k) }
        ensures new { pick ≡ Pick.New → IfOk result (λ m.
            m.items ≡ (state_at self.now.told k).live) }
    {
        self.log.replay(alloc, k)?.image(alloc, pick)
    }
}

impl Disk for Memory {
    ghost seen = { λ m. seen_of m };

    ghost counted = { λ m. counted_by m.told };

    ghost sized = { λ m. sized_by m.told };

    fn len(&self) -> u64 {
        self.bytes.len() as u64
    }

    fn calls(&self) -> u64 {
        self.log.calls()
    }

    fn faults(&self) -> u64 {
        self.log.faults()
    }

    #[tactic(auto, using(crate::proofs::Push::live_with))]
    fn read(&mut self, at: u64, into: &mut [u8]) -> Result<(), DiskFault>
        requires { at + length into.old ≤ (seen_of self.old).size }
        ensures call { Went (Reads at (length into.old)) result
            (seen_of self.old) (seen_of self.new) }
        ensures live { OnOk result (IfSome (seen_of self.old).told
            (λ r. into.new ≡ slice_range (live_bytes r) at (at + length into.old))) }
        ensures exact { Answers (Reads at (length into.old)) 32 result self.old self.new }
    {
        self.log.enter(Kind::Read, at, into.len() as u64, &[])?;
        let start = at as usize;
        into.copy_from_slice(&self.bytes[start..start + into.len()]);
        Ok(())
    }

    #[tactic(auto, using(crate::proofs::Push::live_with))]
    fn write(&mut self, at: u64, bytes: &[u8]) -> Result<(), DiskFault>
        requires { at + length bytes.now ≤ (seen_of self.old).size }
        ensures call { Went (Writes at bytes.now) result (seen_of self.old) (seen_of self.new) }
        ensures exact { Answers (Writes at bytes.now) (32 + length bytes.now)
            result self.old self.new }
    {
        self.log.enter(Kind::Write, at, bytes.len() as u64, bytes)?;
        lay(&mut self.bytes, at as usize, bytes);
        Ok(())
    }

    #[tactic(auto, using(crate::proofs::Push::live_with))]
    fn sync(&mut self) -> Result<(), DiskFault>
        ensures call { Went Syncs result (seen_of self.old) (seen_of self.new) }
        ensures exact { Answers Syncs 32 result self.old self.new }
    {
        self.log.enter(Kind::Sync, 0, 0, &[])
    }
}
