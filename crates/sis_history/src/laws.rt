//! How a history that survives every stop goes on. These functions do nothing: their clauses are
//! what they are for.
ghost use Rattle.std.specs.Prelude.{◌≡◌, ◌≤◌, ℕ, ◌+◌, false, List, [], ◌∷◌, ◌++◌, length, Some, IfSome};
ghost use Rattle.sis_disk.specs.Record.{DiskRecord, Seen};
ghost use Rattle.sis_disk.specs.Stops.{Leaves, Now, Shows};
ghost use Rattle.sis_history.specs.Durable.{is_durable};
ghost use Rattle.sis_history.specs.Stops.{AreInOrder, AreWithin, IsSafe, OpensAfter, Survives, SurvivesStops};
ghost use Rattle.sis_model.specs.World.{World};
ghost use Rattle.sis_model.specs.declared.history.Entry.{Entry as AnEntry};
ghost use Rattle.sis_table.specs.Opens.{OpensAs};

/// A history without entries survives every stop from now on, where each image opens as the files
/// of its world.
#[tactic(auto, using(crate::proofs::StopLemmas::survives_start))]
pub fn history_begins()
    ensures { (first : ℕ) (w : World) (seen : Seen)
        → seen.calls ≤ first
        → IfSome seen.told (λ r. length r.calls ≡ seen.calls)
        → Now (Shows (OpensAs w.files)) seen
        → Survives first w [] seen }
{}

/// Calls of the disk keep what is survived, where each image that they leave is safe with the
/// entries that are sure after them.
#[tactic(auto, using(crate::proofs::StopLemmas::survives_calls))]
pub fn calls_go_by()
    ensures { (first : ℕ) (w : World) (entries : List AnEntry) (old new : Seen)
        → Survives first w entries old
        → IfSome new.told (λ r. length r.calls ≡ new.calls)
        → Leaves (IsSafe new.calls w entries) old new
        → Survives first w entries new }
{}

/// An entry more that isn't durable, and was decided by now, may be lost at any stop.
#[tactic(auto, using(crate::proofs::StopLemmas::survives_entry))]
pub fn entry_is_added()
    ensures { (first : ℕ) (w : World) (entries : List AnEntry) (e : AnEntry) (seen : Seen)
        → IfSome seen.told (λ r. length r.calls ≡ seen.calls)
        → e.decided ≤ seen.calls
        → is_durable e ≡ false
        → Survives first w entries seen
        → Survives first w (entries ++ e ∷ []) seen }
{}

/// Any entry may be added that is answered now at the earliest, where each image has it and all
/// entries before it.
#[tactic(auto, using(crate::proofs::StopLemmas::survives_durable))]
pub fn durable_entry_is_added()
    ensures { (first : ℕ) (w : World) (entries : List AnEntry) (e : AnEntry) (seen : Seen)
        → IfSome seen.told (λ r. length r.calls ≡ seen.calls)
        → e.decided ≤ seen.calls
        → seen.calls ≤ e.answered
        → Now (Shows (OpensAfter w (entries ++ e ∷ []) (length entries + 1))) seen
        → Survives first w entries seen
        → Survives first w (entries ++ e ∷ []) seen }
{}

/// Entries stay in order, and decided by some call, with one more that was decided neither before
/// that call nor after a later one.
pub fn order_goes_on()
    ensures order { (n : ℕ) (entries : List AnEntry) (e : AnEntry)
        → AreInOrder entries → AreWithin n entries → n ≤ e.decided
        → AreInOrder (entries ++ e ∷ []) }
    ensures within { (n : ℕ) (entries : List AnEntry) (e : AnEntry)
        → e.decided ≤ n → AreWithin n entries → AreWithin n (entries ++ e ∷ []) }
    ensures later { (n now : ℕ) (entries : List AnEntry)
        → n ≤ now → AreWithin n entries → AreWithin now entries }
{}

/// What the laws carry says of each record that a disk tells: every stop is survived.
#[tactic(auto, using(crate::proofs::StopLemmas::survives_stops))]
pub fn every_stop_is_survived()
    ensures { (first : ℕ) (w : World) (entries : List AnEntry) (seen : Seen) (r : DiskRecord)
        → Survives first w entries seen
        → seen.told ≡ Some r
        → SurvivesStops first w entries r }
{}
