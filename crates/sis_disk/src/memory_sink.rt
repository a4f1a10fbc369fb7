//! A sink in memory, which fails at the calls that it was told, and where its room ends.
ghost use Rattle.std.specs.Prelude.{◌≡◌, ◌-◌, ◌≤◌, ◌++◌, [], ◌&&◌, length, not, nat_le, is_ok, Some, IfOk, OnOk, OnErr};
ghost use Rattle.sis_disk.specs.Streams.{HasCause, Appended, AppendedFront};
ghost use Rattle.sis_disk.specs.Failing.{is_to_fail, raised};

use crate::{Sink, SinkFault};
use std::alloc::{AllocError, Global};
use std::marker::Model;

/// What was written, in room that was reserved before.
#[derive(Drop)]
pub struct MemorySink {
    bytes: Vec<u8>,
    room: u64,
    fails: Vec<u64>,
    calls: u64,
    faults: u64,
}

impl Model for MemorySink {
    ghost use Rattle.std.specs.Prelude.{◌+◌, ◌≤◌, length, vec_capacity};
    ghost use Rattle.sis_disk.specs.MemoryStreams.{SinkView};

    ghost Value = { SinkView };

    ghost view = { λ a. record {
      written = a.bytes.items;
      room = a.room;
      fails = a.fails.items;
      calls = a.calls;
      faults = a.faults;
    } };

    ghost invariant = { λ a. length a.bytes.items + a.room ≤ vec_capacity a.bytes };
}

impl MemorySink {
    /// A sink with room for so many bytes, which fails at the writes with the numbers in `fails`,
    /// the first write being number 0.
    pub fn new(alloc: Global, fails: Vec<u64>, room: u64) -> Result<MemorySink, AllocError>
        ensures { IfOk result (λ sink. sink ≡ record {
          written = [];
          room = room;
          fails = fails.items;
          calls = 0;
          faults = 0;
        }) }
    {
        Ok(MemorySink {
            bytes: Vec::with_capacity(alloc, room as usize)?,
            room,
            fails,
            calls: 0,
            faults: 0,
        })
    }

    /// All that was written.
    pub fn written(&self) -> &[u8]
        ensures { result.now ≡ self.now.written }
    {
        &self.bytes
    }
}

impl Sink for MemorySink {
    ghost written = { λ s. Some s.written };

    ghost faults = { λ s. s.faults };

    #[tactic(auto, using(crate::proofs::Counts::raised_is))]
    fn write(&mut self, bytes: &[u8]) -> Result<(), SinkFault>
        // What the trait says.
        ensures ok { OnOk result
            (Appended (Some self.old.written) (Some self.new.written) bytes.now) }
        ensures err { OnErr result
            (AppendedFront (Some self.old.written) (Some self.new.written) bytes.now) }
        ensures cause { HasCause self.old.faults self.new.faults result }

        // When it fails, and that a failed write keeps nothing.
        ensures fails { is_ok result ≡ (not (is_to_fail self.old.fails self.old.calls)
            && nat_le (length bytes.now) self.old.room) }
        ensures written { OnOk result (self.new ≡ record self.old {
          written = self.old.written ++ bytes.now;
          room = self.old.room - length bytes.now;
          calls = raised self.old.calls;
        }) }
        ensures nothing { OnErr result (self.new ≡ record self.old {
          calls = raised self.old.calls;
          faults = raised self.old.faults;
        }) }
    {
        let number = self.calls;
        self.calls = number.saturating_add(1);
        if self.fails.contains(&number) || bytes.len() as u64 > self.room {
            self.faults = self.faults.saturating_add(1);
            return Err(SinkFault);
        }
        let _ = self.bytes.extend_from_slice(bytes);
        self.room -= bytes.len() as u64;
        Ok(())
    }
}
