//! The steps of a commit. Each is a write and a sync.
ghost use Rattle.std.specs.Prelude.{◌≡◌, ◌==◌, ℕ, ◌+◌, ◌*◌, ◌<◌, ◌≤◌, [], List, length, not, Some, OnOk, OnErr, IfErr};
ghost use Rattle.sis_disk.specs.Areas.{area_bytes};
ghost use Rattle.sis_disk.specs.Causes.{GoesDown, GoesWell};
ghost use Rattle.sis_disk.specs.Layout.{IsLayout, first_byte, table_cap};
ghost use Rattle.sis_disk.specs.Record.{DiskRecord, State, live_of, state_of};
ghost use Rattle.sis_disk.specs.Stops.{Elapses, Leaves, Now};
ghost use Rattle.sis_journal.specs.Committing.{Both, KeepsRest};
ghost use Rattle.sis_journal.specs.Inside.{IsReady, WritesStable};
ghost use Rattle.sis_journal.specs.Texts.{HoldsText, KeepsText, KeepsData, OldOrNew};

use crate::CommitFault;
use sis_disk::{BLOCK_LEN, Disk, Layout};

/// Writes bytes, and makes them stable.
pub fn write_stable<D: Disk>(disk: &mut D, at: u64, bytes: &[u8]) -> Result<(), CommitFault>
    requires { at + length bytes.now ≤ (D.seen disk.old).size }
    ensures written { WritesStable at bytes.now result (D.seen disk.old) (D.seen disk.new) }
    ensures well { (first : ℕ) → at < first
        → OnOk result (GoesWell first (D.seen disk.old) (D.seen disk.new)) }
    ensures down { (first : ℕ) → at < first → IfErr result
        (λ fault. (call : ℕ) × (fault ≡ CommitFault.Down call)
        × GoesDown first call (D.seen disk.old) (D.seen disk.new)) }
    ensures number { IfErr result (λ fault. (call : ℕ) × (fault ≡ CommitFault.Down call)
        × (call < (D.seen disk.old).calls + 2)) }
    ensures once { OnErr result ((D.seen disk.new).faults ≤ (D.seen disk.old).faults + 1) }
    ensures quiet { OnOk result ((D.seen disk.new).faults ≡ (D.seen disk.old).faults) }
    ensures elapses { Elapses (D.seen disk.old) (D.seen disk.new) }
    ensures calls { (D.seen disk.new).calls ≤ (D.seen disk.old).calls + 2 }
{
    let at_write = disk.calls();
    if disk.write(at, bytes).is_err() {
        return Err(CommitFault::Down { at: at_write });
    }
    let at_sync = disk.calls();
    if disk.sync().is_err() {
        return Err(CommitFault::Down { at: at_sync });
    }
    Ok(())
}

/// Writes the bytes of the area that isn't selected.
pub fn write_area<D: Disk>(
    disk: &mut D,
    layout: &Layout,
    second: bool,
    bytes: &[u8],
) -> Result<(), CommitFault>
    requires layout { IsLayout layout.now }
    requires size { (D.seen disk.old).size ≡ 4096 * layout.now.total }
    requires fits { length bytes.now ≤ 4096 * layout.now.area }
    ensures images { (r : DiskRecord) (old : List ℕ) → (D.seen disk.old).told ≡ Some r
        → KeepsText layout.now second old (state_of r)
        → Leaves (λ m. HoldsText layout.now old m × KeepsData layout.now (state_of r) m)
        (D.seen disk.old) (D.seen disk.new) }
    ensures ok { OnOk result ((r : DiskRecord) (old new : List ℕ)
        → (D.seen disk.old).told ≡ Some r → KeepsText layout.now second old (state_of r)
        → bytes.now ≡ area_bytes new → length new ≤ table_cap layout.now
        → Now (IsReady layout.now second old new (state_of r)) (D.seen disk.new)) }
    ensures rest { Both (KeepsRest layout.now second)
        (live_of (D.seen disk.old)) (live_of (D.seen disk.new)) }
    ensures well { OnOk result
        (GoesWell (first_byte layout.now) (D.seen disk.old) (D.seen disk.new)) }
    ensures down { IfErr result
        (λ fault. (call : ℕ) × (fault ≡ CommitFault.Down call)
        × GoesDown (first_byte layout.now) call (D.seen disk.old) (D.seen disk.new)) }
    ensures number { IfErr result (λ fault. (call : ℕ) × (fault ≡ CommitFault.Down call)
        × (call < (D.seen disk.old).calls + 2)) }
    ensures quiet { OnOk result ((D.seen disk.new).faults ≡ (D.seen disk.old).faults) }
    ensures elapses { Elapses (D.seen disk.old) (D.seen disk.new) }
    ensures calls { (D.seen disk.new).calls ≤ (D.seen disk.old).calls + 2 }
{
    write_stable(disk, layout.area_start(!second), bytes)
}

/// The selector's byte that selects this area.
fn selector_of(second: bool) -> u8
    ensures { (result == 1) ≡ second }
{
    if second { 1 } else { 0 }
}

/// Selects the area that isn't selected.
pub fn select_other<D: Disk>(disk: &mut D, layout: &Layout, second: bool) -> Result<(), CommitFault>
    requires layout { IsLayout layout.now }
    requires size { (D.seen disk.old).size ≡ 4096 * layout.now.total }
    ensures images { (before : State) (old new : List ℕ)
        → Now (IsReady layout.now second old new before) (D.seen disk.old)
        → Leaves (OldOrNew layout.now old new before) (D.seen disk.old) (D.seen disk.new) }
    ensures ok { OnOk result ((before : State) (old new : List ℕ)
        → Now (IsReady layout.now second old new before) (D.seen disk.old)
        → Now (λ s. KeepsText layout.now (not second) new s × (s.loose ≡ []))
        (D.seen disk.new)) }
    ensures rest { Both (KeepsRest layout.now second)
        (live_of (D.seen disk.old)) (live_of (D.seen disk.new)) }
    ensures well { OnOk result
        (GoesWell (first_byte layout.now) (D.seen disk.old) (D.seen disk.new)) }
    ensures down { IfErr result
        (λ fault. (call : ℕ) × (fault ≡ CommitFault.Down call)
        × GoesDown (first_byte layout.now) call (D.seen disk.old) (D.seen disk.new)) }
    ensures number { IfErr result (λ fault. (call : ℕ) × (fault ≡ CommitFault.Down call)
        × (call < (D.seen disk.old).calls + 2)) }
    ensures quiet { OnOk result ((D.seen disk.new).faults ≡ (D.seen disk.old).faults) }
    ensures elapses { Elapses (D.seen disk.old) (D.seen disk.new) }
    ensures calls { (D.seen disk.new).calls ≤ (D.seen disk.old).calls + 2 }
{
    write_stable(disk, BLOCK_LEN, &[selector_of(!second)])
}
