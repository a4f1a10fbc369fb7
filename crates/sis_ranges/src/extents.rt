//! A finite map from blocks to places, kept as runs.
ghost use Rattle.std.specs.Prelude.{◌≡◌, ◌<◌, ◌^◌, IfOk, IsOk, OnOk, OnErr, Ok, nat_lt, not};
ghost use Rattle.std.specs.List.{AllByRecursion};
ghost use Rattle.std.specs.FinMap as map;
ghost use Rattle.sis_ranges.specs.Extents.{AreRuns, IsFirstPart, IsWithin, IsLeast, in_stretch, is_gap, is_mapped, map_of, runs_of, with_blocks};

use crate::Run;
use crate::cutting::{between, cut, next_run, replace, total};
use std::alloc::{AllocError, Global};
use std::marker::Model;

/// A finite map from blocks to places. Blocks are below 2^24, and places below 2^20.
#[derive(Debug, Drop)]
pub struct Extents {
    runs: Vec<Run>,
    /// How many blocks the runs have.
    blocks: u64,
}

impl Model for Extents {
    ghost use Rattle.std.specs.Prelude.{ℕ};
    ghost use Rattle.std.specs.Ordering.{nat_cmp};
    ghost use Rattle.std.specs.FinMap as map;
    ghost use Rattle.std.specs.Coded.{coded_ℕ};
    ghost use Rattle.sis_ranges.specs.Extents.{map_of};
    ghost use Rattle.sis_ranges.specs.Inside.{AreCounted};

    ghost Value = { map.FinMap nat_cmp ℕ };

    ghost coded = { map.code coded_ℕ coded_ℕ };

    ghost view = { λ a. map_of a.runs.items };

    ghost invariant = { λ a. AreCounted a.runs.items a.blocks };
}

impl Extents {
    /// The map of no blocks. Takes no memory.
    pub fn new(alloc: Global) -> Extents
        ensures { result ≡ map.empty }
    {
        Extents {
            runs: Vec::new(alloc),
            blocks: 0,
        }
    }

    /// The map for which runs stand. Takes no memory.
    pub fn from_runs(runs: Vec<Run>) -> Extents
        requires runs { AreRuns runs.items }
        requires within { AllByRecursion IsWithin runs.items }
        ensures { result ≡ map_of runs.items }
    {
        let blocks = total(&runs);
        Extents { runs, blocks }
    }

    /// The sorted, disjoint and maximal runs.
    pub fn runs(&self) -> &[Run]
        ensures value { result.now ≡ runs_of self.now }
        ensures map { map_of result.now ≡ self.now }
        ensures runs { AreRuns result.now }
        ensures within { AllByRecursion IsWithin result.now }
    {
        &self.runs
    }

    /// How many blocks are mapped.
    pub fn len(&self) -> u64
        ensures { result ≡ map.len self.now }
    {
        self.blocks
    }

    /// The place of a block.
    pub fn get(&self, block: u64) -> Option<u64>
        ensures { result ≡ map.get self.now block }
    {
        match next_run(&self.runs, block) {
            Some(run) if run.first <= block => Some(run.place + (block - run.first)),
            _ => None,
        }
    }

    /// The least block that is mapped, from one on and below another.
    pub fn next_mapped(&self, from: u64, below: u64) -> Option<u64>
        ensures { IsLeast (is_mapped self.now) from below result }
    {
        match next_run(&self.runs, from) {
            Some(run) if run.first.max(from) < below => Some(run.first.max(from)),
            _ => None,
        }
    }

    /// The least block that isn't mapped, from one on and below another.
    pub fn next_gap(&self, from: u64, below: u64) -> Option<u64>
        ensures { IsLeast (is_gap self.now) from below result }
    {
        let mut next = from;
        // The next run may begin where this one ends, at other places.
        while next < below {
            match next_run(&self.runs, next) {
                Some(run) if run.first <= next => next = run.first + run.count,
                _ => return Some(next),
            }
        }
        None
    }

    /// The first blocks that are mapped, from one on and below another: as many as lie at
    /// neighbouring places.
    pub fn next_part(&self, from: u64, below: u64) -> Option<Run>
        ensures { IsFirstPart self.now from below result }
    {
        match next_run(&self.runs, from) {
            Some(run) if run.first < below && from < below => {
                let run = run.from_block(from);
                Some(Run {
                    count: run.count.min(below - run.first),
                    ..run
                })
            }
            _ => None,
        }
    }

    /// Maps a block to a place, also where it is mapped already.
    pub fn set(&mut self, block: u64, place: u64) -> Result<(), AllocError>
        requires block { block < 2 ^ 24 }
        requires place { place < 2 ^ 20 }
        ensures ok { OnOk result (self.new ≡ map.insert self.old block place) }
        ensures err { OnErr result (self.new ≡ self.old) }
    {
        self.set_run(Run {
            first: block,
            count: 1,
            place,
        })
    }

    /// Maps the run's blocks to its places, also those that are mapped already.
    pub fn set_run(&mut self, run: Run) -> Result<(), AllocError>
        requires { IsWithin run }
        ensures ok { OnOk result (self.new ≡ with_blocks self.old run) }
        ensures err { OnErr result (self.new ≡ self.old) }
    {
        if run.count == 0 {
            return Ok(());
        }
        let end = run.first + run.count;
        let gone = between(&self.runs, run.first, end);
        replace(&mut self.runs, run.first, end, Some(run))?;
        self.blocks = self.blocks - gone + run.count;
        Ok(())
    }

    /// Takes a block out, where it is mapped.
    pub fn clear(&mut self, block: u64) -> Result<(), AllocError>
        requires { block < 2 ^ 24 }
        ensures ok { OnOk result (self.new ≡ map.remove self.old block) }
        ensures err { OnErr result (self.new ≡ self.old) }
    {
        self.clear_run(block, 1)
    }

    /// Takes out the blocks of a stretch that are mapped. It may end anywhere, also past 2^64.
    pub fn clear_run(&mut self, first: u64, count: u64) -> Result<(), AllocError>
        ensures ok { OnOk result
            (self.new ≡ map.retain_keys self.old (λ k. not (in_stretch first count k))) }
        ensures err { OnErr result (self.new ≡ self.old) }
    {
        if count == 0 {
            return Ok(());
        }
        // A sum past u64::MAX is cut there, far behind each block that is mapped.
        let end = first.saturating_add(count);
        let gone = between(&self.runs, first, end);
        replace(&mut self.runs, first, end, None)?;
        self.blocks -= gone;
        Ok(())
    }

    /// Takes out all blocks from this one on. Takes no memory, so it is always `Ok`.
    pub fn clear_from(&mut self, block: u64) -> Result<(), AllocError>
        ensures ok { IsOk result }
        ensures map { self.new ≡ map.retain_keys self.old (λ k. nat_lt k block) }
    {
        self.blocks -= between(&self.runs, block, u64::MAX);
        cut(&mut self.runs, block);
        Ok(())
    }

    /// An equal map.
    pub fn copy(&self, alloc: Global) -> Result<Extents, AllocError>
        ensures { IfOk result (λ copy. copy ≡ self.now) }
    {
        Ok(Extents {
            runs: self.runs.as_slice().to_vec(alloc)?,
            blocks: self.blocks,
        })
    }
}
