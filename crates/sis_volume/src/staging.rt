//! Writes new blocks to spare places. What the current and the committed table map stays as it is.
ghost use Rattle.std.specs.Prelude.{◌≡◌, ◌+◌, ◌*◌, ◌/◌, ◌%◌, ◌^◌, ◌<◌, ◌≤◌, None, ◌++◌, List, length, Err, IfOk, IfSome, OnOk, OnErr, IfErr};
ghost use Rattle.std.specs.List.{AllByRecursion};
ghost use Rattle.sis_disk.specs.Causes.{StaysUp};
ghost use Rattle.sis_disk.specs.Layout.{IsLayout, data_blocks, first_byte};
ghost use Rattle.sis_disk.specs.Record.{live_of};
ghost use Rattle.sis_disk.specs.Stops.{Elapses, GoesOnBy};
ghost use Rattle.sis_journal.specs.Committing.{Both};
ghost use Rattle.sis_table.specs.Content.{files_in};
ghost use Rattle.sis_ranges.specs.declared.run.Run.{Run as ARun};
ghost use Rattle.sis_table.specs.declared.edit.Edit.{Edit as AnEdit};
ghost use Rattle.sis_volume.specs.View.{count_of, fresh, is_fresh, held};
ghost use Rattle.sis_volume.specs.Staging.{HindersStaging, KeepsOthers, Stages, WritesFresh};
ghost use Rattle.sis_volume.specs.Stopping.{OnlyOpens};
ghost use Rattle.sis_volume.specs.Keeping.{StagesRun, WritesOnly};

use crate::data_blocks::DataBlocks;
use crate::{Txn, Volume};
use sis_disk::{BLOCK_LEN, Disk, Layout};
use sis_model::Hindrance;
use sis_ranges::Run;

// Writes the first of these blocks to fresh places, in one call, and maps them.
fn stage_run<D: Disk>(
    disk: &mut D,
    layout: &Layout,
    places: &mut DataBlocks,
    txn: &mut Txn,
    file: u64,
    first: u64,
    bytes: &[u8],
) -> Result<Run, Hindrance>
    requires layout { IsLayout layout.now }
    requires places { length places.old.current ≡ data_blocks layout.now }
    requires size { (D.seen disk.old).size ≡ 4096 * layout.now.total }
    requires some { 4096 ≤ length bytes.now }
    requires room { length bytes.now / 4096
        ≤ count_of layout.now (is_fresh layout.now places.old txn.old.edits) }
    ensures ok { IfOk result (λ run. StagesRun layout.now places.old txn.old txn.new file first
        bytes.now (live_of (D.seen disk.new)) run) }
    ensures err { OnErr result (txn.new ≡ txn.old) }
    ensures places { places.new ≡ places.old }
    ensures cause { IfErr result (HindersStaging (D.seen disk.old) (D.seen disk.new)) }
    ensures writes { WritesOnly (first_byte layout.now)
        (is_fresh layout.now places.old txn.old.edits) (D.seen disk.old) (D.seen disk.new) }
    ensures quiet { OnOk result ((D.seen disk.new).faults ≡ (D.seen disk.old).faults) }
    ensures once { OnErr result ((D.seen disk.new).faults ≤ (D.seen disk.old).faults + 1) }
    ensures calls { (D.seen disk.new).calls ≤ (D.seen disk.old).calls + 1 }
{
    let most = bytes.len() as u64 / BLOCK_LEN;
    let run = places.next_run(layout, txn, first, most);
    let len = (BLOCK_LEN * run.count) as usize;
    if disk.write(BLOCK_LEN * run.place, &bytes[..len]).is_err() {
        return Err(Hindrance::Disk);
    }
    if txn.map(file, run).is_err() {
        return Err(Hindrance::Memory);
    }
    Ok(run)
}

// Writes all blocks, run by run.
fn stage_runs<D: Disk>(
    disk: &mut D,
    layout: &Layout,
    places: &mut DataBlocks,
    txn: &mut Txn,
    file: u64,
    first: u64,
    bytes: &[u8],
) -> Result<(), Hindrance>
    requires layout { IsLayout layout.now }
    requires places { length places.old.current ≡ data_blocks layout.now }
    requires size { (D.seen disk.old).size ≡ 4096 * layout.now.total }
    requires whole { length bytes.now % 4096 ≡ 0 }
    requires room { length bytes.now / 4096
        ≤ count_of layout.now (is_fresh layout.now places.old txn.old.edits) }
    requires blocks { first + length bytes.now / 4096 ≤ 2 ^ 24 }
    ensures ok { OnOk result ((runs : List ARun) × Stages layout.now places.old txn.old txn.new
        file first (length bytes.now / 4096) bytes.now (live_of (D.seen disk.new)) runs) }
    ensures fresh { OnOk result
        (count_of layout.now (is_fresh layout.now places.old txn.new.edits)
        + length bytes.now / 4096
        ≡ count_of layout.now (is_fresh layout.now places.old txn.old.edits)) }
    ensures err { OnErr result ((more : List AnEdit) × (txn.new.edits ≡ txn.old.edits ++ more)) }
    ensures places { places.new ≡ places.old }
    ensures cause { IfErr result (HindersStaging (D.seen disk.old) (D.seen disk.new)) }
    ensures writes { WritesOnly (first_byte layout.now)
        (is_fresh layout.now places.old txn.old.edits) (D.seen disk.old) (D.seen disk.new) }
    ensures quiet { OnOk result ((D.seen disk.new).faults ≡ (D.seen disk.old).faults) }
    ensures once { OnErr result ((D.seen disk.new).faults ≤ (D.seen disk.old).faults + 1) }
    ensures calls { (D.seen disk.new).calls ≤ (D.seen disk.old).calls + length bytes.now / 4096 }
{
    let blocks = bytes.len() / BLOCK_LEN as usize;
    let mut done = 0;
    while done < blocks {
        let rest = &bytes[BLOCK_LEN as usize * done..];
        let run = stage_run(disk, layout, places, txn, file, first + done as u64, rest)?;
        done += run.count as usize;
    }
    Ok(())
}

impl<D: Disk> Volume<D> {
    /// Writes whole blocks of a file, from block `first` on, to places that neither the current nor
    /// the committed table nor an edit of the transaction maps, and adds the edits that map them.
    ///
    /// Neighbouring places are written in one call of the disk. Places that were given out before
    /// are looked at last. Once a commit failed nothing is written.
    pub fn stage(
        &mut self,
        txn: &mut Txn,
        file: u64,
        first: u64,
        bytes: &[u8],
    ) -> Result<(), Hindrance>
        requires whole { length bytes.now % 4096 ≡ 0 }
        requires room { length bytes.now / 4096 ≤ fresh self.old txn.old }
        requires blocks { first + length bytes.now / 4096 ≤ 2 ^ 24 }
        ensures ok { OnOk result ((runs : List ARun)
            × Stages self.old.table.layout (held self.old) txn.old txn.new file first
            (length bytes.now / 4096) bytes.now (live_of self.new.seen) runs) }
        ensures fresh { OnOk result
            (fresh self.new txn.new + length bytes.now / 4096 ≡ fresh self.old txn.old) }

        // An error adds no edit. It comes from memory, or from a fault of the disk; or from a commit
        // that failed before.
        ensures err { OnErr result (txn.new ≡ txn.old) }
        ensures down { IfSome self.old.down (λ at.
            (result ≡ Err (Hindrance.Down at)) × (self.new ≡ self.old)) }
        ensures cause { self.old.down ≡ None
            → IfErr result (HindersStaging self.old.seen self.new.seen) }

        // No call that failed is tried again.
        ensures quiet { OnOk result (self.new.seen.faults ≡ self.old.seen.faults) }
        ensures once { OnErr result (self.new.seen.faults ≤ self.old.seen.faults + 1) }

        // Nothing else changes: each call is a write to data blocks that neither table nor an edit of
        // the transaction maps, so no byte of another block changes, nor one before the data blocks. At
        // no moment does a stop leave other files than before. There are at most as many calls as
        // blocks.
        ensures same { self.new ≡ record self.old { seen = self.new.seen } }
        ensures others { Both
            (KeepsOthers self.old.table.layout (held self.old) txn.old.edits)
            (live_of self.old.seen) (live_of self.new.seen) }
        ensures told { GoesOnBy (AllByRecursion
            (WritesFresh self.old.table.layout (held self.old) txn.old.edits))
            self.old.seen.told self.new.seen.told }
        ensures up { StaysUp (first_byte self.old.table.layout) self.old.seen self.new.seen }
        ensures images { OnlyOpens self.old.seen self.new.seen }
        ensures files { files_in self.new.table self.new.seen
            ≡ files_in self.old.table self.old.seen }
        ensures elapses { Elapses self.old.seen self.new.seen }
        ensures calls { self.new.seen.calls
            ≤ self.old.seen.calls + length bytes.now / 4096 }
    {
        if let Some(at) = self.down {
            return Err(Hindrance::Down { at });
        }
        let count = txn.edits().len();
        let layout = self.layout();
        let staged = stage_runs(
            &mut self.disk,
            &layout,
            &mut self.places,
            txn,
            file,
            first,
            bytes,
        );
        if staged.is_err() {
            txn.cut(count);
        }
        staged
    }
}
