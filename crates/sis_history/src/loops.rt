//! What a run keeps of its history between two commits. These functions do nothing: their clauses
//! are what they are for.
ghost use Rattle.std.specs.Prelude.{◌≡◌, ◌≤◌, ◌⊎◌, ℕ, ◌+◌, false, List, [], ◌∷◌, ◌++◌, length, take, drop};
ghost use Rattle.sis_disk.specs.Record.{Seen};
ghost use Rattle.sis_disk.specs.Stops.{Leaves, Now, Shows};
ghost use Rattle.sis_history.specs.Durable.{is_durable};
ghost use Rattle.sis_history.specs.Loop.{AreCommitted};
ghost use Rattle.sis_history.specs.Stops.{IsSafe, NoneSure, OpensAfter};
ghost use Rattle.sis_model.specs.Answer.{world_with};
ghost use Rattle.sis_model.specs.History.{world_after};
ghost use Rattle.sis_model.specs.World.{World};
ghost use Rattle.sis_model.specs.declared.history.Entry.{Entry as AnEntry};
ghost use Rattle.sis_name.specs.Files.{Files};
ghost use Rattle.sis_table.specs.Opens.{OpensAs};

/// An image is safe where it opens as the files after some of the entries, and none behind them is
/// sure. Fewer are sure at an earlier call.
pub fn images_are_safe()
    ensures after { (last : ℕ) (w : World) (entries : List AnEntry) (p : ℕ) (m : List ℕ)
        → p ≤ length entries
        → NoneSure last (drop p entries)
        → OpensAfter w entries p m
        → IsSafe last w entries m }
    ensures files { (last : ℕ) (w : World) (entries : List AnEntry) (p : ℕ) (m : List ℕ)
        (files : Files)
        → p ≤ length entries
        → NoneSure last (drop p entries)
        → files ≡ (world_after w (take p entries)).files
        → OpensAs files m
        → IsSafe last w entries m }
    ensures before { (k last : ℕ) (w : World) (entries : List AnEntry) (m : List ℕ)
        → k ≤ last → IsSafe last w entries m → IsSafe k w entries m }
{}

/// Calls that leave images of committed files leave safe ones, also where some open as the files
/// before a commit and the others as those after it.
pub fn images_of_committed_files_are_safe()
    ensures one { (last : ℕ) (w : World) (entries : List AnEntry) (files : Files) (old new : Seen)
        → AreCommitted w entries files
        → Leaves (OpensAs files) old new
        → Leaves (IsSafe last w entries) old new }
    ensures either { (last : ℕ) (w : World) (entries : List AnEntry) (before now : Files)
        (old new : Seen)
        → AreCommitted w entries before
        → AreCommitted w entries now
        → Leaves (λ m. OpensAs before m ⊎ OpensAs now m) old new
        → Leaves (IsSafe last w entries) old new }
{}

/// The files after all entries are committed in any case, and committed files stay so with an entry
/// more that isn't durable.
pub fn committed_files_go_on()
    ensures now { (w : World) (entries : List AnEntry)
        → AreCommitted w entries (world_after w entries).files }
    ensures entry { (w : World) (entries : List AnEntry) (e : AnEntry) (files : Files)
        → is_durable e ≡ false
        → AreCommitted w entries files
        → AreCommitted w (entries ++ e ∷ []) files }
{}

/// Where each image opens as the files of the world that an entry leaves, it does so as the files
/// after all entries and this one.
#[tactic(auto, using(crate::proofs::LoopLemmas::opens_with))]
pub fn last_image_has_all_entries()
    ensures { (w : World) (entries : List AnEntry) (e : AnEntry) (seen : Seen)
        → Now (Shows (OpensAs
        (world_with (world_after w entries) e.client e.command e.reply).files)) seen
        → Now (Shows (OpensAfter w (entries ++ e ∷ []) (length entries + 1))) seen }
{}
