//! A disk with its table, and which of its data blocks are mapped.
ghost use Rattle.std.specs.Prelude.{◌≡◌, ◌*◌, ◌≤◌, length, false, None, IfSome};
ghost use Rattle.std.specs.Option.{option_copied, option_map};
ghost use Rattle.sis_disk.specs.Layout.{IsLayout, data_blocks, table_cap};
ghost use Rattle.sis_table.specs.Good.{IsGood};
ghost use Rattle.sis_table.specs.Spelling.{spelling};
ghost use Rattle.sis_table.specs.Volume.{IsNextFile, IsNextNode, IsTable, node_named, node_with, id_of};
ghost use Rattle.sis_table.specs.Image.{Holds};
ghost use Rattle.sis_disk.specs.Record.{live_of};

use crate::data_blocks::DataBlocks;
use crate::kept_table::KeptTable;
use sis_disk::{Disk, Layout};
use sis_journal::Journal;
use sis_name::Name;
use sis_table::Node;
use sis_view::Blocks;
use std::marker::Model;

/// A disk with its table, and which of its data blocks are mapped.
#[derive(Drop)]
pub struct Volume<D: Disk> {
    pub(crate) disk: Blocks<D>,
    pub(crate) journal: Journal,
    /// The current table.
    pub(crate) kept: KeptTable,
    /// Which data blocks the current table maps, and which the committed one.
    pub(crate) places: DataBlocks,
    /// The table was edited since the last commit.
    pub(crate) is_changed: bool,
    /// The call by which a commit failed.
    pub(crate) down: Option<u64>,
}

impl<D: Disk> Model for Volume<D> {
    ghost use Rattle.std.specs.Coded.{codes};
    ghost use Rattle.sis_ranges.specs.contracts.extents.Extents as extents;
    ghost use Rattle.sis_volume.specs.View.{VolumeView};
    ghost use Rattle.sis_volume.specs.Invariant.{IsVolume};

    ghost Value = { VolumeView };

    ghost coded = { Prim.hlevel (codes, extents.the_row.coded) };

    ghost view = { λ v. record {
      seen = D.seen v.disk;
      table = v.kept;
      committed = v.places.committed;
      is_changed = v.is_changed;
      down = v.down;
    } };

    ghost invariant = { λ v. IsVolume v.kept v.journal v.places v.is_changed
        v.down (D.seen v.disk) };
}

impl<D: Disk> Volume<D> {
    /// The disk. Takes no memory.
    pub fn into_disk(self) -> D
        ensures seen { D.seen result ≡ self.seen }
        ensures table { IsTable self.table }
        ensures good { IsGood self.table }
        ensures holds { self.is_changed ≡ false → self.down ≡ None
            → IfSome (live_of self.seen) (λ live. Holds live self.table) }
    {
        self.disk.into_disk()
    }

    /// How many calls the disk has made.
    pub fn calls(&self) -> u64
        ensures calls { result ≡ self.now.seen.calls }
        ensures counted { IfSome self.now.seen.told
            (λ r. length r.calls ≡ self.now.seen.calls) }
        ensures table { IsTable self.now.table }
        ensures good { IsGood self.now.table }
        ensures fits { length (spelling self.now.table) ≤ table_cap self.now.table.layout }
    {
        self.disk.calls()
    }

    /// How many faults the disk has had.
    pub fn faults(&self) -> u64
        ensures { result ≡ self.now.seen.faults }
    {
        self.disk.faults()
    }

    /// The image's layout.
    pub fn layout(&self) -> Layout
        ensures layout { result ≡ self.now.table.layout }
        ensures table { IsTable self.now.table }
        ensures good { IsGood self.now.table }
        ensures size { self.now.seen.size ≡ 4096 * result.total }
        ensures fits { length (spelling self.now.table) ≤ table_cap result }
    {
        self.kept.layout()
    }

    /// The id that the next file gets.
    pub fn next_id(&self) -> u64
        ensures id { result ≡ self.now.table.next_id }
        ensures table { IsTable self.now.table }
        ensures good { IsGood self.now.table }
        ensures sized { IfSome (live_of self.now.seen)
            (λ live. length live ≡ 4096 * self.now.table.layout.total) }
    {
        self.kept.table.next_id()
    }

    /// The greatest link index that was ever given.
    pub fn greatest(&self) -> u64
        ensures { result ≡ self.now.table.greatest }
    {
        self.kept.table.greatest()
    }

    /// The least id of a file that is greater than this one. Takes no memory.
    pub fn next_node(&self, after: u64) -> Option<u64>
        ensures { IsNextNode self.now.table after result }
    {
        self.kept.table.next_node(after)
    }

    /// How many files there are.
    pub fn files(&self) -> u64
        ensures { result ≡ length self.now.table.nodes }
    {
        self.kept.table.files()
    }

    /// The file with the least name that is greater than this one, and with the least name of all
    /// where there is none. Takes no memory.
    pub fn next_file(&self, after: Option<&Name>) -> Option<u64>
        ensures { IsNextFile self.now.table (option_copied after.entry) result }
    {
        self.kept.table.next_file(after)
    }

    /// The file with this id.
    pub fn node(&self, id: u64) -> Option<&Node>
        ensures node { option_copied result ≡ node_with self.now.table id }
        ensures table { IsTable self.now.table }
        ensures sized { IfSome (live_of self.now.seen)
            (λ live. length live ≡ 4096 * self.now.table.layout.total) }
    {
        self.kept.table.node(id)
    }

    /// The file of this name.
    pub fn find(&self, name: &Name) -> Option<u64>
        ensures { result ≡ option_map id_of (node_named self.now.table name.now) }
    {
        self.kept.table.find(name)
    }

    /// The number of data blocks.
    pub fn total(&self) -> u64
        ensures { result ≡ data_blocks self.now.table.layout }
    {
        self.layout().data_blocks()
    }

    /// The greatest length of the table, in bytes.
    pub fn table_cap(&self) -> u64
        ensures { result ≡ table_cap self.now.table.layout }
    {
        self.layout().cap()
    }

    /// The disk's call by which a commit failed.
    pub fn down(&self) -> Option<u64>
        ensures down { result ≡ self.now.down }
        ensures table { IsTable self.now.table }
    {
        self.down
    }
}
