//! What follows for every record. These functions do nothing: their clauses are what they are for.
ghost use Rattle.std.specs.Prelude.{◌≡◌, ℕ, List, true};
ghost use Rattle.sis_disk.specs.Record.{DiskRecord, Syncs, IsImage, IsImageAfter, live_bytes, state_at, state_of, with_call};

/// A stop right after a sync that succeeded leaves the live bytes, and nothing else.
#[tactic(auto, using(crate::proofs::Firm::synced_image))]
pub fn sync_makes_stable()
    ensures { (r : DiskRecord) → (m : List ℕ)
        → IsImage (state_of (with_call (Syncs true) r)) m → m ≡ live_bytes r }
{}

/// A stop may leave the live bytes, whatever is loose.
#[tactic(auto, using(crate::proofs::Firm::live_image))]
pub fn stop_may_leave_live_bytes()
    ensures { (r : DiskRecord) → (k : ℕ) → IsImageAfter r k (state_at r k).live }
{}
