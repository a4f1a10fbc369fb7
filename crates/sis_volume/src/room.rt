//! How much room a volume has.
ghost use Rattle.std.specs.Prelude.{◌≡◌, ◌⊎◌, ◌+◌, ◌<◌, ◌≤◌, drop, length, Err, None, IfErr, IfSome, IsOk, OnOk, OnErr};
ghost use Rattle.std.specs.Option.{option_map};
ghost use Rattle.sis_disk.specs.Causes.{GoesWell};
ghost use Rattle.sis_disk.specs.Layout.{data_blocks, first_byte};
ghost use Rattle.sis_disk.specs.Record.{live_of};
ghost use Rattle.sis_disk.specs.Stops.{Elapses};
ghost use Rattle.sis_table.specs.Content.{files_in};
ghost use Rattle.sis_table.specs.Volume.{used};
ghost use Rattle.sis_table.specs.Spelling.{spelling};
ghost use Rattle.sis_volume.specs.Room.{HindersRoom};
ghost use Rattle.sis_volume.specs.Stopping.{IsCommitted, MayCommit};
ghost use Rattle.sis_volume.specs.View.{spare};

use crate::Volume;
use sis_disk::Disk;
use sis_model::Hindrance;

impl<D: Disk> Volume<D> {
    /// How many data blocks files map.
    pub fn used(&self) -> u64
        ensures { result ≡ used self.now.table }
    {
        self.places.used()
    }

    /// How many data blocks neither the current table nor the committed one maps.
    pub fn spare(&self) -> u64
        ensures { result ≡ spare self.now }
    {
        self.places.spare()
    }

    /// The length of the table, in bytes.
    pub fn table_len(&self) -> u64
        ensures { result ≡ length (spelling self.now.table) }
    {
        self.kept.table.encoded_len()
    }

    /// Makes sure that so many blocks can be staged. Takes no memory.
    ///
    /// It commits where too few places are free in both tables, which frees those that the committed
    /// table alone maps.
    pub fn room(&mut self, needed: u64) -> Result<(), Hindrance>
        ensures spare { OnOk result (needed ≤ spare self.new) }
        // Where there is room nothing changes, and else the table is committed.
        ensures enough { self.old.down ≡ None → needed ≤ spare self.old
            → IsOk result × (self.new ≡ self.old) }
        ensures commits { self.old.down ≡ None → spare self.old < needed
            → OnOk result (IsCommitted self.old self.new) }
        ensures ok { OnOk result ((self.new ≡ self.old) ⊎ IsCommitted self.old self.new) }
        ensures table { self.new.table ≡ self.old.table }

        // It is hindered by want of room, and exactly then so; or by a commit that failed.
        ensures down { IfSome self.old.down (λ at.
            (result ≡ Err (Hindrance.Down at)) × (self.new ≡ self.old)) }
        ensures full { self.old.down ≡ None
            → data_blocks self.old.table.layout < used self.old.table + needed
            → (result ≡ Err (Hindrance.Full needed (used self.old.table)
            (data_blocks self.old.table.layout))) × (self.new ≡ self.old) }
        ensures cause { self.old.down ≡ None
            → IfErr result (HindersRoom needed self.old self.new) }

        // No call fails unless that is told, and each is one of a commit. At every moment a stop
        // leaves what it left before, or the files of now. The data blocks stay as they are.
        ensures well { OnOk result
            (GoesWell (first_byte self.old.table.layout) self.old.seen self.new.seen) }
        ensures quiet { OnOk result (self.new.seen.faults ≡ self.old.seen.faults) }
        ensures images { self.old.down ≡ None
            → MayCommit self.old.table self.old.seen self.new.seen }
        ensures files { files_in self.new.table self.new.seen
            ≡ files_in self.old.table self.old.seen }
        ensures blocks { option_map (drop (first_byte self.old.table.layout)) (live_of self.new.seen)
            ≡ option_map (drop (first_byte self.old.table.layout)) (live_of self.old.seen) }
        ensures elapses { Elapses self.old.seen self.new.seen }
        ensures calls { self.new.seen.calls ≤ self.old.seen.calls + 4 }
    {
        if let Some(at) = self.down {
            return Err(Hindrance::Down { at });
        }
        let used = self.used();
        let total = self.total();
        if total - used < needed {
            return Err(Hindrance::Full {
                needed,
                used,
                total,
            });
        }
        if needed <= self.spare() {
            return Ok(());
        }
        self.commit()
    }
}
