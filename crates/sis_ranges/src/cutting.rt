//! Runs before a block, and runs from a block on.
ghost use Rattle.std.specs.Prelude.{◌≡◌, ◌+◌, ◌-◌, ◌≤◌, length, take, drop, vec_capacity, IfOk, IfSome, OnOk, OnErr};
ghost use Rattle.sis_ranges.specs.Extents.{AreRuns, IsWithin};
ghost use Rattle.sis_ranges.specs.Inside.{AreExtents, FindsNext, blocks_between, blocks_in, passed_by, before, first_of, from, put_over};

use crate::Run;
use crate::joining::{Gap, close, put};
use std::alloc::AllocError;

/// How many of the runs end at this block or before it: all, or else by a binary search.
fn passed(runs: &[Run], block: u64) -> usize
    requires { AreRuns runs.now }
    ensures count { result ≡ passed_by block runs.now }
    ensures bound { result ≤ length runs.now }
{
    let mut low = 0;
    let mut high = runs.len();
    if high > 0 && runs[high - 1].ends_by(block) {
        return high;
    }
    while low < high {
        let middle = low + (high - low) / 2;
        if runs[middle].ends_by(block) {
            low = middle + 1;
        } else {
            high = middle;
        }
    }
    low
}

/// The first run that ends behind this block.
pub fn next_run(runs: &[Run], block: u64) -> Option<Run>
    requires { AreExtents runs.now }
    ensures { FindsNext runs.now block result }
{
    let at = passed(runs, block);
    if at < runs.len() {
        Some(runs[at])
    } else {
        None
    }
}

/// How many blocks the runs have.
pub fn total(runs: &[Run]) -> u64
    requires { AreExtents runs.now }
    ensures { result ≡ blocks_in runs.now }
{
    let mut total = 0;
    for run in runs {
        total += run.count;
    }
    total
}

/// How many of the runs begin before this block.
fn begun(runs: &[Run], block: u64) -> usize
    requires { AreRuns runs.now }
    ensures count { result ≡ length (before block runs.now) }
    ensures bound { result ≤ length runs.now }
{
    let at = passed(runs, block);
    if at < runs.len() && runs[at].first < block {
        at + 1
    } else {
        at
    }
}

/// Cuts the last of the runs that begin before a block there. They are `count`.
fn trim(runs: &mut Vec<Run>, count: usize, block: u64)
    requires { count ≡ length (before block runs.old.items) }
    ensures front { take count runs.new.items ≡ before block runs.old.items }
    ensures back { drop count runs.new.items ≡ drop count runs.old.items }
    ensures len { length runs.new.items ≡ length runs.old.items }
    ensures capacity { vec_capacity runs.old ≤ vec_capacity runs.new }
{
    if count > 0 && !runs[count - 1].ends_by(block) {
        runs[count - 1].count = block - runs[count - 1].first;
    }
}

/// Leaves the runs up to before a block.
pub fn cut(runs: &mut Vec<Run>, block: u64)
    requires { AreRuns runs.old.items }
    ensures { runs.new.items ≡ before block runs.old.items }
{
    let count = begun(runs, block);
    trim(runs, count, block);
    runs.truncate(count);
}

/// How many blocks the runs have from `first` up to before `end`.
pub fn between(runs: &[Run], first: u64, end: u64) -> u64
    requires { AreExtents runs.now }
    ensures { result ≡ blocks_between first end runs.now }
{
    let mut total = 0;
    for run in &runs[passed(runs, first)..] {
        if end <= run.first {
            break;
        }
        let run_end = run.first + run.count;
        total += run_end.min(end).saturating_sub(run.first.max(first));
    }
    total
}

/// The first run that ends behind a block, from that block on.
fn first_from(runs: &[Run], block: u64) -> Option<Run>
    requires { AreExtents runs.now }
    ensures { result ≡ first_of (from block runs.now) }
{
    let at = passed(runs, block);
    if at < runs.len() {
        Some(runs[at].from_block(block))
    } else {
        None
    }
}

/// Makes a gap of the runs from `first` up to before `end`, and of the one that has `end` or begins
/// behind it. What a run has before `first` stays. There is room for so many runs in the gap.
fn open(runs: &mut Vec<Run>, first: u64, end: u64, more: usize) -> Result<Gap, AllocError>
    requires runs { AreRuns runs.old.items }
    requires order { first ≤ end }
    requires few { more ≤ 2 }
    ensures front { IfOk result (λ gap.
        take gap.at runs.new.items ≡ before first runs.old.items) }
    ensures back { IfOk result (λ gap.
        drop gap.stop runs.new.items ≡ drop 1 (from end runs.old.items)) }
    ensures order { IfOk result (λ gap. gap.at ≤ gap.stop) }
    ensures there { IfOk result (λ gap. gap.stop ≤ length runs.new.items) }
    ensures room { IfOk result (λ gap.
        length runs.new.items + more ≤ vec_capacity runs.new + (gap.stop - gap.at)) }
    ensures err { OnErr result (runs.new.items ≡ runs.old.items) }
{
    let at = begun(runs, first);
    let stop = (passed(runs, end) + 1).min(runs.len());
    runs.reserve((at + more).saturating_sub(stop))?;
    trim(runs, at, first);
    Ok(Gap { at, stop })
}

/// Puts a run, or none, in place of the blocks from `first` up to before `end`.
pub fn replace(
    runs: &mut Vec<Run>,
    first: u64,
    end: u64,
    new: Option<Run>,
) -> Result<(), AllocError>
    requires runs { AreExtents runs.old.items }
    requires order { first ≤ end }
    requires new { IfSome new (λ run. IsWithin run) }
    ensures ok { OnOk result (runs.new.items ≡ put_over first end new runs.old.items) }
    ensures err { OnErr result (runs.new.items ≡ runs.old.items) }
{
    let last = first_from(runs, end);
    let more = new.is_some() as usize + last.is_some() as usize;
    let mut gap = open(runs, first, end, more)?;
    if let Some(run) = new {
        gap = put(runs, gap, run);
    }
    if let Some(run) = last {
        gap = put(runs, gap, run);
    }
    close(runs, gap);
    Ok(())
}
