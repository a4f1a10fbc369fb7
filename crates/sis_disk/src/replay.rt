//! What the calls of a disk come to: its bytes, those at the last sync, and what is loose.
ghost use Rattle.std.specs.Prelude.{◌≡◌, ◌+◌, ◌≤◌, length, true, IfOk};
ghost use Rattle.std.specs.List.{AllByRecursion};
ghost use Rattle.sis_disk.specs.Record.{Writes, Syncs, laid};
ghost use Rattle.sis_disk.specs.Notes.{call_of, calls_of, all_taken};
ghost use Rattle.sis_disk.specs.Picks.{picked_from};
ghost use Rattle.sis_disk.specs.Replay.{Fits, replayed_by, replayed_after, set_bits, unplayed};

use crate::log::{Kind, Noted};
use crate::pick::{Pick, picked};
use std::alloc::{AllocError, Global};
use std::marker::Model;

/// The state of a disk, as far as its calls were replayed.
#[derive(Drop)]
pub struct Replay {
    live: Vec<u8>,
    synced: Vec<u8>,
    loose: Vec<bool>,
}

impl Model for Replay {
    ghost use Rattle.std.specs.Prelude.{◌≡◌, length};
    ghost use Rattle.sis_disk.specs.Replay.{Replayed};

    ghost Value = { Replayed };

    ghost view = { λ a. record {
      live = a.live.items;
      synced = a.synced.items;
      loose = a.loose.items;
    } };

    ghost invariant = { λ a. (length a.synced.items ≡ length a.live.items)
        × (length a.loose.items ≡ length a.live.items) };
}

/// Lays bytes over others.
pub fn lay(live: &mut Vec<u8>, at: usize, bytes: &[u8])
    requires { at + length bytes.now ≤ length live.old.items }
    ensures { live.new.items ≡ laid live.old.items at bytes.now }
{
    live[at..at + bytes.len()].copy_from_slice(bytes);
}

fn set_bits(bits: &mut Vec<bool>, at: usize, count: usize)
    requires { at + count ≤ length bits.old.items }
    ensures { bits.new.items ≡ set_bits at count bits.old.items }
{
    bits[at..at + count].fill(true);
}

// How many bytes of the row are this call's.
fn taken(noted: &Noted) -> usize
    ensures { result ≡ Rattle.sis_disk.specs.Notes.taken noted.now }
{
    match noted.kind {
        Kind::Write => noted.len as usize,
        Kind::Read | Kind::Sync => 0,
    }
}

impl Replay {
    /// A disk that opened with these bytes.
    pub fn new(alloc: Global, opening: &[u8]) -> Result<Replay, AllocError>
        ensures { IfOk result (λ replay. replay ≡ unplayed opening.now) }
    {
        Ok(Replay {
            live: opening.to_vec(alloc)?,
            synced: opening.to_vec(alloc)?,
            loose: vec![in alloc; false; opening.len()]?,
        })
    }

    fn write(&mut self, at: usize, bytes: &[u8], ok: bool)
        requires { at + length bytes.now ≤ length self.old.live }
        ensures { self.new ≡ replayed_by (Writes at bytes.now ok) self.old }
    {
        set_bits(&mut self.loose, at, bytes.len());
        if ok {
            lay(&mut self.live, at, bytes);
        }
    }

    fn sync(&mut self)
        ensures { self.new ≡ replayed_by (Syncs true) self.old }
    {
        self.synced.copy_from_slice(&self.live);
        self.loose.fill(false);
    }

    fn step(&mut self, noted: &Noted, bytes: &[u8])
        requires { Fits (length self.old.live) (call_of noted.now bytes.now) }
        ensures after { self.new ≡ replayed_by (call_of noted.now bytes.now) self.old }
        ensures size { length self.new.live ≡ length self.old.live }
    {
        match noted.kind {
            Kind::Write => self.write(noted.at as usize, bytes, noted.ok),
            Kind::Sync if noted.ok => self.sync(),
            Kind::Read | Kind::Sync => {}
        }
    }

    /// Makes the calls of these notes, whose bytes stand in the row.
    pub fn run(&mut self, notes: &[Noted], row: &[u8])
        requires row { all_taken notes.now ≤ length row.now }
        requires fit { AllByRecursion (Fits (length self.old.live)) (calls_of notes.now row.now) }
        ensures { self.new ≡ replayed_after self.old (calls_of notes.now row.now) }
    {
        let mut rest = row;
        for noted in notes {
            let (bytes, behind) = rest.split_at(taken(noted));
            self.step(noted, bytes);
            rest = behind;
        }
    }

    /// The image that is picked.
    pub fn image(&self, alloc: Global, pick: Pick) -> Result<Vec<u8>, AllocError>
        ensures { IfOk result (λ image. image.items
            ≡ picked_from pick 0 self.now.loose self.now.synced self.now.live) }
    {
        picked(alloc, pick, &self.loose, &self.synced, &self.live)
    }
}
