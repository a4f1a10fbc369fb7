//! Runs written over others, from the front on.
ghost use Rattle.std.specs.Prelude.{◌≡◌, ◌+◌, ◌-◌, ◌<◌, ◌≤◌, ◌++◌, ◌^◌, length, take, drop, vec_capacity};
ghost use Rattle.sis_ranges.specs.Extents.{block_end};
ghost use Rattle.sis_ranges.specs.Inside.{with_run};

use crate::Run;

/// The runs from `at` up to before `stop`, which are to be overwritten.
#[derive(Clone, Copy)]
pub struct Gap {
    pub at: usize,
    pub stop: usize,
}

/// Writes a run at the front of the gap, and answers the rest of it. The run is joined with the one
/// before it where it goes on from there. Those behind the gap move where the gap was empty.
pub fn put(runs: &mut Vec<Run>, gap: Gap, run: Run) -> Gap
    requires order { gap.at ≤ gap.stop }
    requires there { gap.stop ≤ length runs.old.items }
    requires room { length runs.old.items + 1 ≤ vec_capacity runs.old + (gap.stop - gap.at) }
    requires fits { block_end run < 2 ^ 64 }
    ensures front { take result.at runs.new.items ≡ with_run (take gap.at runs.old.items) run }
    ensures back { drop result.stop runs.new.items ≡ drop gap.stop runs.old.items }
    ensures order { result.at ≤ result.stop }
    ensures there { result.stop ≤ length runs.new.items }
    ensures capacity { vec_capacity runs.old ≤ vec_capacity runs.new }

    // The gap shrinks by one at most, or the runs grow by one.
    ensures growth { length runs.new.items + (gap.stop - gap.at)
        ≤ length runs.old.items + 1 + (result.stop - result.at) }
{
    let Gap { at, stop } = gap;
    if at > 0 && runs[at - 1].joins(&run) {
        runs[at - 1].count += run.count;
        return gap;
    }
    if at < stop {
        runs[at] = run;
        return Gap { at: at + 1, stop };
    }
    let _ = runs.insert(at, run);
    Gap {
        at: at + 1,
        stop: stop + 1,
    }
}

/// Takes the runs of the gap out.
pub fn close(runs: &mut Vec<Run>, gap: Gap)
    requires order { gap.at ≤ gap.stop }
    requires there { gap.stop ≤ length runs.old.items }
    ensures { runs.new.items ≡ take gap.at runs.old.items ++ drop gap.stop runs.old.items }
{
    if gap.at < gap.stop {
        let kept = runs.len() - (gap.stop - gap.at);
        runs.copy_within(gap.stop.., gap.at);
        runs.truncate(kept);
    }
}
