//! Commits: the journal makes the current table the one that the image holds.
ghost use Rattle.std.specs.Prelude.{◌≡◌, ℕ, ◌+◌, ◌<◌, ◌≤◌, drop, false, true, None, Some, Err, IfSome, IsOk, OnOk, OnErr, IfErr, []};
ghost use Rattle.std.specs.Option.{option_map};
ghost use Rattle.sis_disk.specs.Causes.{GoesDown, GoesWell};
ghost use Rattle.sis_disk.specs.Layout.{first_byte};
ghost use Rattle.sis_disk.specs.Record.{live_of};
ghost use Rattle.sis_disk.specs.Stops.{Elapses, Now};
ghost use Rattle.sis_table.specs.Content.{files_in};
ghost use Rattle.sis_table.specs.Image.{Holds};
ghost use Rattle.sis_volume.specs.Stopping.{IsCommitted, MayCommit};

use crate::Volume;
use sis_disk::Disk;
use sis_journal::CommitFault;
use sis_model::Hindrance;

impl<D: Disk> Volume<D> {
    /// Makes the table durable, by at most four calls of the disk. Takes no memory, and makes no
    /// call where the table was not edited.
    ///
    /// Once a commit failed, nothing is committed any more.
    pub fn commit(&mut self) -> Result<(), Hindrance>
        ensures ok { OnOk result (IsCommitted self.old self.new) }
        ensures holds { OnOk result
            (IfSome (live_of self.new.seen) (λ live. Holds live self.new.table)) }
        ensures stable { OnOk result
            (self.old.is_changed ≡ true → Now (λ s. s.loose ≡ []) self.new.seen) }
        ensures unchanged { self.old.down ≡ None → self.old.is_changed ≡ false
            → IsOk result × (self.new ≡ self.old) }

        // An error is the one call that failed, or was refused: one of the four, which no made call
        // follows. Each other call went well. From then on each commit gives it again.
        ensures well { OnOk result
            (GoesWell (first_byte self.old.table.layout) self.old.seen self.new.seen) }
        ensures err { OnErr result (self.new ≡ record self.old {
          seen = self.new.seen;
          down = self.new.down;
        }) }
        ensures at { IfErr result (λ h.
            (at : ℕ) × (h ≡ Hindrance.Down at) × (self.new.down ≡ Some at)
            × (self.old.down ≡ None
            → GoesDown (first_byte self.old.table.layout) at self.old.seen self.new.seen)) }
        ensures number { self.old.down ≡ None → IfErr result (λ h. (at : ℕ)
            × (h ≡ Hindrance.Down at) × (at < self.old.seen.calls + 4)) }
        ensures down { IfSome self.old.down (λ at.
            (result ≡ Err (Hindrance.Down at)) × (self.new ≡ self.old)) }
        ensures quiet { OnOk result (self.new.seen.faults ≡ self.old.seen.faults) }

        // At every moment a stop leaves what it left before, or the files of now. The data blocks
        // stay as they are.
        ensures images { self.old.down ≡ None
            → MayCommit self.old.table self.old.seen self.new.seen }
        ensures files { files_in self.new.table self.new.seen
            ≡ files_in self.old.table self.old.seen }
        ensures blocks { option_map (drop (first_byte self.old.table.layout)) (live_of self.new.seen)
            ≡ option_map (drop (first_byte self.old.table.layout)) (live_of self.old.seen) }
        ensures elapses { Elapses self.old.seen self.new.seen }
        ensures calls { self.new.seen.calls ≤ self.old.seen.calls + 4 }
    {
        if let Some(at) = self.down {
            return Err(Hindrance::Down { at });
        }
        if !self.is_changed {
            return Ok(());
        }
        match self.journal.commit(&mut self.disk, &self.kept) {
            Ok(()) => {
                self.places.commit();
                self.is_changed = false;
                Ok(())
            }
            Err(CommitFault::Down { at }) => {
                self.down = Some(at);
                Err(Hindrance::Down { at })
            }
        }
    }
}
