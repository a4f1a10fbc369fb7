//! Looks for a place that is mapped twice, by a mark for each place of the image.
ghost use Rattle.std.specs.Prelude.{◌≡◌, ◌≤◌, ℕ, ◌++◌, ◌∷◌, [], List, length, All, flat_map, take, drop, replicate, slice_range, true, false};
ghost use Rattle.std.specs.Bool.{OnFalse};
ghost use Rattle.std.specs.List.{list_any};
ghost use Rattle.sis_ranges.specs.Extents.{place_end, run_places};
ghost use Rattle.sis_table.specs.Good.{repeats, Marks};

use sis_ranges::Run;

/// Marks the places of the runs, up to a run that has a place with a mark.
pub fn maps_twice(marks: &mut [bool], runs: &[Run]) -> bool
    requires { All (λ r. place_end r ≤ length marks.old) runs.now }
    ensures value { (before : List ℕ) → Marks marks.old before
        → result ≡ repeats before (flat_map run_places runs.now) }
    ensures marks { (before : List ℕ) → Marks marks.old before
        → OnFalse result (Marks marks.new (before ++ flat_map run_places runs.now)) }
{
    for run in runs {
        if mark(marks, run) {
            return true;
        }
    }
    false
}

// Whether one of the run's places had a mark.
fn mark(marks: &mut [bool], run: &Run) -> bool
    requires { place_end run.now ≤ length marks.old }
    ensures value { result ≡ list_any (λ m. m)
        (slice_range marks.old run.now.place (place_end run.now)) }
    ensures marks { marks.new ≡ take run.now.place marks.old
        ++ replicate run.now.count true ++ drop (place_end run.now) marks.old }
{
    let end = run.place + run.count;
    let places = &mut marks[run.place as usize..end as usize];
    let marked = places.iter().any(|mark| *mark);
    places.fill(true);
    marked
}
