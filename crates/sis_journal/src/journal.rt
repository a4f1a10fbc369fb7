//! A journal: opened from a disk, and committed to it.
ghost use Rattle.std.specs.Prelude.{◌≡◌, ℕ, ◌+◌, ◌*◌, ◌<◌, ◌≤◌, [], List, Ok, Some, length, not, IfOk, IfErr, IfSome, IsErrOf, OnOk, OnErr};
ghost use Rattle.sis_disk.specs.Areas.{read_by};
ghost use Rattle.sis_disk.specs.Causes.{GoesDown, GoesWell};
ghost use Rattle.sis_disk.specs.Layout.{IsLayout, first_byte, table_cap};
ghost use Rattle.sis_disk.specs.Record.{DiskRecord, live_of, state_of};
ghost use Rattle.sis_disk.specs.Stops.{Elapses, Leaves, Now};
ghost use Rattle.sis_journal.specs.Committing.{Both, KeepsRest};
ghost use Rattle.sis_journal.specs.Opening.{Caused, CountsFault, FailsReading, IsSynced, SyncThenReads};
ghost use Rattle.sis_journal.specs.Texts.{KeepsText, OldOrNew};

use crate::areas::spell_area;
use crate::committing::{select_other, write_area};
use crate::opening::{read_image, sync_first};
use crate::{CommitFault, Kept, OpenFault};
use sis_disk::{Disk, Layout};
use std::alloc::Global;
use std::marker::Model;

/// Which area of a disk is selected, and room for the bytes of the other one.
#[derive(Drop)]
pub struct Journal {
    layout: Layout,
    /// Area B is selected.
    second: bool,
    /// Room for the bytes of an area, so that a commit takes no memory.
    buffer: Vec<u8>,
}

impl Model for Journal {
    ghost use Rattle.std.specs.Prelude.{◌≡◌, ◌*◌, ◌≤◌, vec_capacity};
    ghost use Rattle.sis_disk.specs.Layout.{IsLayout};
    ghost use Rattle.sis_journal.specs.View.{JournalView};

    ghost Value = { JournalView };

    ghost view = { λ j. record { layout = j.layout; second = j.second } };

    ghost invariant = { λ j. IsLayout j.layout × (j.layout.log ≡ 0)
        × (4096 * j.layout.area ≤ vec_capacity j.buffer) };
}

impl Journal {
    /// Opens a disk by a sync and at most four reads, and gives the value that it keeps.
    ///
    /// The sync comes first: what is read is then what every later stop leaves. Of the selected area
    /// the text's length is read, and then the text alone.
    pub fn open<D: Disk, K: Kept>(
        alloc: Global,
        disk: &mut D,
    ) -> Result<(Journal, Layout, K), OpenFault>
        // The value is the one that the image is read as.
        ensures image { IfOk result (λ x. IfSome (live_of (D.seen disk.old))
            (λ live. read_by K.read live ≡ Ok x.2)) }
        ensures read { IfOk result (λ x. (bytes : List ℕ)
            × (K.read x.1 bytes ≡ Ok x.2) × (length (K.text x.2) ≤ table_cap x.1)) }
        ensures layout { IfOk result (λ x. (x.0.layout ≡ x.1) × IsLayout x.1 × (x.1.log ≡ 0)
            × ((D.seen disk.new).size ≡ 4096 * x.1.total)) }

        // The disk keeps it, and nothing is loose.
        ensures kept { IfOk result
            (λ x. Now (KeepsText x.1 x.0.second (K.text x.2)) (D.seen disk.new)) }
        ensures stable { OnOk result (Now (λ s. s.loose ≡ []) (D.seen disk.new)) }

        // A refusal names the image's first fault, unless the disk failed or memory ran out.
        ensures fault { IfErr result (λ fault. IfSome (live_of (D.seen disk.old))
            (λ live. FailsReading fault (read_by K.read live))) }
        ensures cause { IfErr result
            (λ fault. Caused fault (D.seen disk.old).faults (D.seen disk.new).faults) }

        // No call that failed is tried again.
        ensures quiet { OnOk result ((D.seen disk.new).faults ≡ (D.seen disk.old).faults) }
        ensures refused_quiet { IfErr result
            (λ fault. CountsFault fault (D.seen disk.old).faults (D.seen disk.new).faults) }

        // The sync succeeded, unless the disk failed.
        ensures calls { SyncThenReads 4 (D.seen disk.old) (D.seen disk.new) }
        ensures synced { (IsErrOf result OpenFault.Disk → ⊥)
            → IsSynced (D.seen disk.old) (D.seen disk.new) }
    {
        sync_first(disk)?;
        let (area, layout, value) = read_image(alloc, disk)?;
        let journal = Journal {
            layout,
            second: area.second,
            buffer: area.buffer,
        };
        Ok((journal, layout, value))
    }

    /// The image's layout.
    pub fn layout(&self) -> Layout
        ensures layout { result ≡ self.now.layout }
        ensures valid { IsLayout result }
        ensures log { result.log ≡ 0 }
    {
        self.layout
    }

    /// Makes this value the one that the disk keeps. Takes no memory.
    ///
    /// After an error the disk may keep the old value or the new one, so nothing should be
    /// committed any more.
    pub fn commit<D: Disk, K: Kept>(&mut self, disk: &mut D, value: &K) -> Result<(), CommitFault>
        requires size { (D.seen disk.old).size ≡ 4096 * self.old.layout.total }
        requires fits { length (K.text value.now) ≤ table_cap self.old.layout }
        ensures layout { self.new.layout ≡ self.old.layout }
        ensures ok { OnOk result (self.new.second ≡ not self.old.second) }
        ensures err { OnErr result (self.new ≡ self.old) }

        // A stop before, within or after leaves the old value or the new one.
        ensures images { (r : DiskRecord) (old : List ℕ) → (D.seen disk.old).told ≡ Some r
            → KeepsText self.old.layout self.old.second old (state_of r)
            → Leaves (OldOrNew self.old.layout old (K.text value.now) (state_of r))
            (D.seen disk.old) (D.seen disk.new) }
        ensures kept { OnOk result ((r : DiskRecord) (old : List ℕ)
            → (D.seen disk.old).told ≡ Some r
            → KeepsText self.old.layout self.old.second old (state_of r)
            → Now (λ s. KeepsText self.old.layout (not self.old.second) (K.text value.now) s
            × (s.loose ≡ [])) (D.seen disk.new)) }
        ensures rest { Both (KeepsRest self.old.layout self.old.second)
            (live_of (D.seen disk.old)) (live_of (D.seen disk.new)) }

        // Only the disk makes it fail. The fault names the one call that failed, or was refused: it
        // is one of the four, and no made call follows it. Each other call went well.
        ensures well { OnOk result
            (GoesWell (first_byte self.old.layout) (D.seen disk.old) (D.seen disk.new)) }
        ensures down { IfErr result
            (λ fault. (call : ℕ) × (fault ≡ CommitFault.Down call)
            × GoesDown (first_byte self.old.layout) call (D.seen disk.old) (D.seen disk.new)) }
        ensures number { IfErr result (λ fault. (call : ℕ) × (fault ≡ CommitFault.Down call)
            × (call < (D.seen disk.old).calls + 4)) }
        ensures quiet { OnOk result ((D.seen disk.new).faults ≡ (D.seen disk.old).faults) }
        ensures calls { (D.seen disk.new).calls ≤ (D.seen disk.old).calls + 4 }
        ensures elapses { Elapses (D.seen disk.old) (D.seen disk.new) }
    {
        spell_area(value, &mut self.buffer);
        // The area has to be stable first: the selector is what makes it count.
        write_area(disk, &self.layout, self.second, &self.buffer)?;
        select_other(disk, &self.layout, self.second)?;
        self.second = !self.second;
        Ok(())
    }
}
