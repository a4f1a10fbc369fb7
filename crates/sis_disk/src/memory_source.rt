//! A source in memory, which fails at the calls that it was told.
ghost use Rattle.std.specs.Prelude.{◌≡◌, ◌<◌, ◌≤◌, length, take, drop, min, not, is_ok, Some, IfOk, OnOk, OnErr};
ghost use Rattle.sis_disk.specs.Streams.{HasCause, Takes, TakesNothing};
ghost use Rattle.sis_disk.specs.Failing.{is_to_fail, raised};

use crate::{Source, SourceFault};
use std::marker::Model;

/// Bytes in memory to read, in pieces of a greatest length.
#[derive(Drop)]
pub struct MemorySource {
    bytes: Vec<u8>,
    at: usize,
    cut: usize,
    fails: Vec<u64>,
    calls: u64,
    faults: u64,
}

impl Model for MemorySource {
    ghost use Rattle.std.specs.Prelude.{◌<◌, ◌≤◌, length, drop};
    ghost use Rattle.sis_disk.specs.MemoryStreams.{SourceView};

    ghost Value = { SourceView };

    ghost view = { λ a. record {
      left = drop a.at a.bytes.items;
      cut = a.cut;
      fails = a.fails.items;
      calls = a.calls;
      faults = a.faults;
    } };

    ghost invariant = { λ a. (0 < a.cut) × (a.at ≤ length a.bytes.items) };
}

impl MemorySource {
    /// A source of these bytes, which gives at most `cut` of them at a time, and fails at the reads
    /// with the numbers in `fails`, the first read being number 0.
    pub fn new(bytes: Vec<u8>, cut: usize, fails: Vec<u64>) -> MemorySource
        requires { 0 < cut }
        ensures { result ≡ record {
          left = bytes.items;
          cut = cut;
          fails = fails.items;
          calls = 0;
          faults = 0;
        } }
    {
        MemorySource {
            bytes,
            at: 0,
            cut,
            fails,
            calls: 0,
            faults: 0,
        }
    }
}

// Copies what there is and fits, but at most `cut` bytes, and answers how many.
fn fill(from: &[u8], cut: usize, into: &mut [u8]) -> usize
    requires some { 0 < cut }
    requires room { 0 < length into.old }
    ensures count { result ≡ min (min cut (length into.old)) (length from.now) }
    ensures taken { Takes (Some from.now) (Some (drop result from.now)) (take result into.new) }
{
    let count = cut.min(into.len()).min(from.len());
    into[..count].copy_from_slice(&from[..count]);
    count
}

impl Source for MemorySource {
    ghost left = { λ s. Some s.left };

    ghost faults = { λ s. s.faults };

    #[tactic(auto, using(crate::proofs::Counts::raised_is))]
    fn read(&mut self, into: &mut [u8]) -> Result<usize, SourceFault>
        requires { 0 < length into.old }

        // What the trait says.
        ensures bound { IfOk result (λ n. n ≤ length into.old) }
        ensures bytes { IfOk result (λ n.
            Takes (Some self.old.left) (Some self.new.left) (take n into.new)) }
        ensures none { OnErr result (TakesNothing (Some self.old.left) (Some self.new.left)) }
        ensures cause { HasCause self.old.faults self.new.faults result }

        // When it fails, and how much it gives.
        ensures fails { is_ok result ≡ not (is_to_fail self.old.fails self.old.calls) }
        ensures count { IfOk result (λ n.
            n ≡ min (min self.old.cut (length into.old)) (length self.old.left)) }
        ensures ok { IfOk result (λ n. self.new ≡ record self.old {
          left = drop n self.old.left;
          calls = raised self.old.calls;
        }) }
        ensures err { OnErr result (self.new ≡ record self.old {
          calls = raised self.old.calls;
          faults = raised self.old.faults;
        }) }
    {
        let number = self.calls;
        self.calls = number.saturating_add(1);
        if self.fails.contains(&number) {
            self.faults = self.faults.saturating_add(1);
            return Err(SourceFault);
        }
        let count = fill(&self.bytes[self.at..], self.cut, into);
        self.at += count;
        Ok(count)
    }
}
