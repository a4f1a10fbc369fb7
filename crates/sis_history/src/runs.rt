//! How a run of rows goes on. These functions do nothing: their clauses are what they are for.
ghost use Rattle.std.specs.Prelude.{◌≡◌, ◌<◌, ◌≤◌, ◌+◌, ◌-◌, ◌^◌, ℕ, true, false, List, [], ◌++◌, None, Some, is_some};
ghost use Rattle.sis_disk.specs.Record.{DiskRecord, IsCounted, Rose, Seen};
ghost use Rattle.sis_disk.specs.Stops.{Leaves};
ghost use Rattle.sis_history.specs.Appearing.{AppearsLegal};
ghost use Rattle.sis_history.specs.Calls.{begun_by, in_hand};
ghost use Rattle.sis_history.specs.Changed.{Fresh};
ghost use Rattle.sis_history.specs.Entering.{any_down, may_have_called};
ghost use Rattle.sis_history.specs.Entries.{entries_of, with_row, with_rows};
ghost use Rattle.sis_history.specs.Faults.{faults_told};
ghost use Rattle.sis_history.specs.Loop.{AreCommitted};
ghost use Rattle.sis_history.specs.Rows.{Row, Enters};
ghost use Rattle.sis_history.specs.Runs.{AreOfClients, HasClients, HasRun, HasStepped, IsRow, IsRun, first_stage};
ghost use Rattle.sis_history.specs.Shown.{ShowsFiles};
ghost use Rattle.sis_history.specs.Stage.{Stage};
ghost use Rattle.sis_history.specs.Stopping.{KeepsDurable, committed_by};
ghost use Rattle.sis_history.specs.Stops.{AreInOrder, AreWithin, IsSafe, Survives};
ghost use Rattle.sis_model.specs.History.{IsLegal, world_after};
ghost use Rattle.sis_model.specs.Opens.{IsWorld};
ghost use Rattle.sis_model.specs.Order.{calls_of};
ghost use Rattle.sis_model.specs.World.{World};
ghost use Rattle.sis_model.specs.declared.history.Entry.{Entry as AnEntry};
ghost use Rattle.sis_name.specs.Files.{Files};
ghost use Rattle.sis_table.specs.Volume.{VolumeTable, IsTable};

/// A run may be followed by another one.
#[tactic(auto, using(crate::proofs::RunLemmas::run_append))]
pub fn run_goes_on()
    ensures { (s m t : Stage) (rows more : List Row)
        → IsRun s rows m → IsRun m more t → IsRun s (rows ++ more) t }
{}

/// Once a commit failed, a run says so to its end.
#[tactic(auto, using(crate::proofs::RunLemmas::run_keeps_down))]
pub fn failed_commit_stays()
    ensures { (s t : Stage) (rows : List Row) (at : ℕ)
        → IsRun s rows t → s.down ≡ Some at → t.down ≡ Some at }
{}

/// The entries of more rows are those of the first ones, gone on with.
#[tactic(auto, using(crate::proofs::RunLemmas::rows_append))]
pub fn entries_go_on()
    ensures { (rows more : List Row) (entries : List AnEntry)
        → with_rows entries (rows ++ more) ≡ with_rows (with_rows entries rows) more }
{}

/// Only an entry changes the world.
pub fn rows_leave_the_world()
    ensures { (s t : Stage) (row : Row)
        → IsRow s row t → with_row [] row ≡ [] → t.world ≡ s.world }
{}

/// The entries of a run are legal from its first world where the disk tells its calls, and else but
/// for which bytes were read. They lead to its last world, and that stays a world.
pub fn run_is_legal()
    ensures legal { (s t : Stage) (rows : List Row) (r : DiskRecord)
        → IsRun s rows t → t.seen.told ≡ Some r → IsLegal s.world (entries_of rows) }
    ensures appears { (s t : Stage) (rows : List Row)
        → IsRun s rows t → AppearsLegal s.world (entries_of rows) }
    ensures world { (s t : Stage) (rows : List Row)
        → IsRun s rows t → t.world ≡ world_after s.world (entries_of rows) }
    ensures opens { (s t : Stage) (rows : List Row)
        → IsRun s rows t → IsWorld s.world → IsWorld t.world }
{}

/// The entries of a run stand in the order in which they were decided, each by the number of calls
/// that the disk has made in the end.
pub fn run_is_in_order()
    ensures order { (s t : Stage) (rows : List Row)
        → IsRun s rows t → AreInOrder (entries_of rows) }
    ensures within { (s t : Stage) (rows : List Row)
        → IsRun s rows t → AreWithin t.seen.calls (entries_of rows) }
{}

/// A run begins without rows, and the rows of a step carry it on with their entries.
pub fn run_is_extended()
    ensures begins { (w : World) (v : VolumeTable) (seen : Seen)
        → HasRun w v seen [] (first_stage w v seen) }
    ensures more { (w : World) (v : VolumeTable) (seen : Seen) (entries : List AnEntry)
        (s t : Stage) (rows : List Row)
        → HasRun w v seen entries s
        → IsRun s rows t
        → HasRun w v seen (with_rows entries rows) t }
{}

/// The rows of a step are a run.
pub fn step_is_a_run()
    ensures { (client : ℕ) (s t : Stage) (rows : List Row)
        → HasStepped client s t rows → IsRun s rows t }
{}

/// What a client had in hand and began in a run is what was decided for it, in the same order and
/// each command once, and what it has in hand.
pub fn each_command_is_decided_once()
    ensures { (s t : Stage) (rows : List Row) (client : ℕ)
        → IsRun s rows t
        → in_hand (s.jobs client) ++ begun_by rows client
        ≡ calls_of (entries_of rows) client ++ in_hand (t.jobs client) }
{}

/// All commands in hand and all entries are of clients of numbers that there are.
pub fn clients_are_in_range()
    ensures begins { (w : World) (v : VolumeTable) (seen : Seen)
        → HasClients (first_stage w v seen) }
    ensures jobs { (s t : Stage) (rows : List Row)
        → IsRun s rows t → HasClients s → HasClients t }
    ensures entries { (s t : Stage) (rows : List Row)
        → IsRun s rows t → HasClients s → AreOfClients (entries_of rows) }
{}

/// Where a reply says that a commit failed, one did. The count of faults rose where one did in the
/// run. Neither that count nor the one of calls ever falls.
pub fn down_is_told()
    ensures told { (s t : Stage) (rows : List Row)
        → IsRun s rows t → any_down (entries_of rows) ≡ true → is_some t.down ≡ true }
    ensures rose { (s t : Stage) (rows : List Row) (at : ℕ)
        → IsRun s rows t → s.down ≡ None → t.down ≡ Some at
        → Rose s.seen.faults t.seen.faults }
    ensures faults { (s t : Stage) (rows : List Row)
        → IsRun s rows t → s.seen.faults ≤ t.seen.faults }
    ensures calls { (s t : Stage) (rows : List Row)
        → IsRun s rows t → s.seen.calls ≤ t.seen.calls }
{}

/// An entry for which the disk isn't called leaves it as it was, and after a failed commit a run
/// does.
pub fn disk_is_left_alone()
    ensures uncalled { (s t : Stage) (e : AnEntry) (fresh : Fresh)
        → IsRow s (Enters e fresh) t
        → may_have_called s e.client e.command e.reply ≡ false
        → t.seen ≡ s.seen }
    ensures down { (s t : Stage) (rows : List Row) (at : ℕ)
        → IsRun s rows t → s.down ≡ Some at → t.seen ≡ s.seen }
{}

/// The faults that a run tells of, in replies and failed commits, are different ones of the disk,
/// unless its count stands at its end.
#[tactic(auto, using(crate::proofs::FaultLemmas::run_faults))]
pub fn each_fault_is_told_once()
    ensures { (s t : Stage) (rows : List Row)
        → IsRun s rows t
        → t.seen.faults < 2 ^ 64 - 1
        → s.seen.faults + faults_told rows ≤ t.seen.faults }
{}

/// A row keeps what stops leave of the entries, where the images that its calls leave are safe. The
/// committed files are those of now behind a durable entry.
pub fn row_survives_stops()
    ensures stops { (first : ℕ) (w : World) (entries : List AnEntry) (s t : Stage) (row : Row)
        → IsRow s row t
        → s.world ≡ world_after w entries
        → IsCounted t.seen
        → Leaves (IsSafe t.seen.calls w entries) s.seen t.seen
        → KeepsDurable row t
        → Survives first w entries s.seen
        → Survives first w (with_row entries row) t.seen }
    ensures committed { (w : World) (entries : List AnEntry) (files : Files) (s t : Stage)
        (row : Row)
        → IsRow s row t
        → s.world ≡ world_after w entries
        → AreCommitted w entries files
        → AreCommitted w (with_row entries row) (committed_by files row t) }
{}

/// Where a row leaves a table, that has the names and the sizes of the world's files, as the one
/// before had.
#[tactic(auto, using(crate::proofs::ShownLemmas::row_shown))]
pub fn row_keeps_shown_files()
    ensures { (s t : Stage) (row : Row)
        → IsRow s row t
        → IsTable s.table
        → IsTable t.table
        → IsWorld s.world
        → ShowsFiles s.world s.table
        → ShowsFiles t.world t.table }
{}
