//! The calls that a disk in memory keeps, in room that was reserved before, and which it fails.
ghost use Rattle.std.specs.Prelude.{◌≡◌, ◌+◌, ◌-◌, ◌*◌, ◌/◌, ◌<◌, ◌≤◌, [], ◌∷◌, ◌++◌, length, take, vec_capacity, IsTrue, IfOk, ◌↔◌};
ghost use Rattle.sis_disk.specs.Record.{with_call};
ghost use Rattle.sis_disk.specs.Notes.{call_by, call_of, taken, taken_by};
ghost use Rattle.sis_disk.specs.Memory.{Answers, fails_next};
ghost use Rattle.sis_disk.specs.Failing.{raised};
ghost use Rattle.sis_disk.specs.Replay.{AllFit, replayed_after, unplayed};

use crate::DiskFault;
use crate::replay::Replay;
use std::alloc::{AllocError, Global};
use std::marker::Model;

/// What a call asked for.
#[derive(Clone, Copy, Debug, PartialEq, Eq)]
pub enum Kind {
    Read,
    Write,
    Sync,
}

/// A call that was made. The bytes of a write stand in the log's row.
#[derive(Clone, Copy, Debug, PartialEq, Eq)]
pub struct Noted {
    pub kind: Kind,
    pub at: u64,
    pub len: u64,
    pub ok: bool,
}

/// The room that a call takes besides its bytes.
const NOTE_LEN: u64 = 32;

/// A disk's calls, in room that was reserved, and the numbers of those to fail.
#[derive(Drop)]
pub struct Log {
    opening: Vec<u8>,
    notes: Vec<Noted>,
    row: Vec<u8>,
    fails: Vec<u64>,
    room: u64,
    faults: u64,
}

impl Model for Log {
    ghost use Rattle.std.specs.Prelude.{◌≡◌, ◌+◌, ◌*◌, ◌≤◌, length, vec_capacity};
    ghost use Rattle.sis_disk.specs.Memory.{MemoryView};
    ghost use Rattle.sis_disk.specs.Notes.{record_of, all_taken};

    ghost Value = { MemoryView };

    ghost view = { λ a. record {
      told = record_of a.opening.items a.notes.items a.row.items;
      fails = a.fails.items;
      room = a.room;
      faults = a.faults;
    } };

    ghost invariant = { λ a. (all_taken a.notes.items ≡ length a.row.items)
        × (32 * length a.notes.items + a.room ≤ 32 * vec_capacity a.notes)
        × (length a.row.items + a.room ≤ vec_capacity a.row) };
}

// Adds a call's note, and its bytes. There is room for both, so no memory is taken.
fn note(notes: &mut Vec<Noted>, row: &mut Vec<u8>, noted: Noted, bytes: &[u8])
    requires notes { length notes.old.items < vec_capacity notes.old }
    requires row { length row.old.items + length bytes.now ≤ vec_capacity row.old }
    ensures notes { notes.new.items ≡ notes.old.items ++ noted ∷ [] }
    ensures row { row.new.items ≡ row.old.items ++ bytes.now }
    ensures note_room { vec_capacity notes.old ≤ vec_capacity notes.new }
    ensures row_room { vec_capacity row.old ≤ vec_capacity row.new }
{
    notes.push_reserved(noted);
    let _ = row.extend_from_slice(bytes);
}

impl Log {
    pub fn new(
        alloc: Global,
        opening: Vec<u8>,
        fails: Vec<u64>,
        room: u64,
    ) -> Result<Log, AllocError>
        ensures { IfOk result (λ log. log ≡ record {
          told = record { opening = opening.items; calls = [] };
          fails = fails.items;
          room = room;
          faults = 0;
        }) }
    {
        Ok(Log {
            opening,
            notes: Vec::with_capacity(alloc, (room / NOTE_LEN) as usize + 1)?,
            row: Vec::with_capacity(alloc, room as usize)?,
            fails,
            room,
            faults: 0,
        })
    }

    pub fn calls(&self) -> u64
        ensures { result ≡ length self.now.told.calls }
    {
        self.notes.len() as u64
    }

    pub fn faults(&self) -> u64
        ensures { result ≡ self.now.faults }
    {
        self.faults
    }

    fn has_room(&self, size: u64) -> bool
        ensures { IsTrue result ↔ (32 + size ≤ self.now.room) }
    {
        self.room >= NOTE_LEN && self.room - NOTE_LEN >= size
    }

    fn fails_next(&self) -> bool
        ensures { result ≡ fails_next self.now }
    {
        self.fails.contains(&self.calls())
    }

    #[tactic(auto, using(crate::proofs::Counts::raised_is))]
    fn fault(&mut self) -> DiskFault
        ensures { self.new ≡ record self.old { faults = raised self.old.faults } }
    {
        self.faults = self.faults.saturating_add(1);
        DiskFault
    }

    // Adds a call.
    fn push(&mut self, noted: Noted, bytes: &[u8])
        requires room { 32 + length bytes.now ≤ self.old.room }
        requires size { taken noted ≡ length bytes.now }
        ensures told { self.new.told ≡ with_call (call_of noted bytes.now) self.old.told }
        ensures room { self.new.room ≡ self.old.room - (32 + length bytes.now) }
        ensures fails { self.new.fails ≡ self.old.fails }
        ensures faults { self.new.faults ≡ self.old.faults }
    {
        note(&mut self.notes, &mut self.row, noted, bytes);
        self.room -= NOTE_LEN + bytes.len() as u64;
    }

    /// Answers a call of the disk, and keeps it unless it was refused. Takes no memory.
    pub fn enter(&mut self, kind: Kind, at: u64, len: u64, bytes: &[u8]) -> Result<(), DiskFault>
        requires { taken_by kind len ≡ length bytes.now }
        ensures { Answers (λ ok. call_by kind at len ok bytes.now) (32 + length bytes.now)
            result self.old self.new }
    {
        if !self.has_room(bytes.len() as u64) {
            return Err(self.fault());
        }
        let ok = !self.fails_next();
        let noted = Noted { kind, at, len, ok };
        self.push(noted, bytes);
        if ok { Ok(()) } else { Err(self.fault()) }
    }

    /// What the first `k` calls come to.
    pub fn replay(&self, alloc: Global, k: u64) -> Result<Replay, AllocError>
        requires { AllFit self.now.told }
        ensures { IfOk result (λ replay. replay
            ≡ replayed_after (unplayed self.now.told.opening) (take k self.now.told.calls)) }
    {
        let count = (k as usize).min(self.notes.len());
        let mut replay = Replay::new(alloc, &self.opening)?;
        replay.run(&self.notes[..count], &self.row);
        Ok(replay)
    }
}
