//! The lines of a script, and the history of a run.
ghost use Rattle.sis_model.specs.declared.history.Entry.{Entry as TheEntry};
ghost use Rattle.std.specs.Prelude.{◌≡◌, ◌++◌, ◌∷◌, [], ◌+◌, ◌<◌, ◌≤◌, ◌^◌, length, slice_get, slice_set, OnOk, Some};

use crate::{Command, Reply};
use std::alloc::{AllocError, Global};
use std::marker::Model;

/// A command, and the client whose it is.
#[derive(Debug, Drop)]
pub struct Line {
    /// The client, 1 to 16.
    pub client: u8,
    /// What it asks.
    pub command: Command,
}

/// A command that was decided.
#[derive(Debug, Drop)]
pub struct Entry {
    /// The client, 1 to 16.
    pub client: u8,
    /// What it asked.
    pub command: Command,
    /// What it was answered.
    pub reply: Reply,
    /// How many calls the disk had made when the entry was decided.
    pub decided: u64,
    /// How many it had made when the client was answered.
    pub answered: u64,
}

/// Entries in the order in which they were decided.
#[derive(Debug, Drop)]
pub struct History {
    entries: Vec<Entry>,
}

impl Model for History {
    ghost use Rattle.sis_model.specs.Recorded.{Recorded};

    ghost Value = { Recorded };

    ghost use Rattle.std.specs.Prelude.{◌-◌, vec_len, vec_capacity};

    ghost view = { λ h. record {
      entries = h.entries.items;
      spare = vec_capacity h.entries - vec_len h.entries;
    } };
}

impl History {
    /// A history without entries. Takes no memory.
    pub fn new(alloc: Global) -> History
        ensures { result.entries ≡ [] }
    {
        History {
            entries: Vec::new(alloc),
        }
    }

    /// Makes room for so many more entries.
    pub fn reserve(&mut self, count: usize) -> Result<(), AllocError>
        ensures ok { OnOk result (count ≤ self.new.spare) }
        ensures entries { self.new.entries ≡ self.old.entries }
        ensures spare { self.old.spare ≤ self.new.spare }
    {
        self.entries.reserve(count)
    }

    /// For how many more entries there is room. Takes no memory.
    pub fn spare(&self) -> usize
        ensures { result ≡ self.now.spare }
    {
        self.entries.capacity() - self.entries.len()
    }

    /// Adds an entry for which there is room. Takes no memory.
    pub fn push(&mut self, entry: Entry)
        requires { 0 < self.old.spare }
        ensures entries { self.new.entries ≡ self.old.entries ++ entry ∷ [] }
        ensures spare { self.old.spare ≤ self.new.spare + 1 }
    {
        self.entries.push(entry).unwrap();
    }

    /// The client of the entry at this place is answered when the disk has made so many calls.
    /// Takes no memory.
    pub fn answer(&mut self, at: usize, calls: u64)
        requires { at < length self.old.entries }
        ensures { (e : TheEntry) → slice_get self.old.entries at ≡ Some e
            → self.new ≡ record self.old {
              entries = slice_set self.old.entries at (record e { answered = calls });
            } }
    {
        self.entries[at].answered = calls;
    }

    /// How many entries there are.
    pub fn len(&self) -> usize
        ensures len { result ≡ length self.now.entries }
        ensures small { result < 2 ^ 63 }
    {
        self.entries.len()
    }

    /// The entries.
    pub fn as_slice(&self) -> &[Entry]
        ensures { result.now ≡ self.now.entries }
    {
        &self.entries
    }
}
