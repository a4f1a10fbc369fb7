//! A table as the journal keeps it.
ghost use Rattle.std.specs.Prelude.{◌≡◌, ◌+◌, ◌<◌, ◌≤◌, ◌++◌, length, vec_capacity, All, Ok, IsErr, IsOk, IfOk, IfErr, OnOk, OnErr};
ghost use Rattle.sis_disk.specs.Layout.{IsLayout, table_cap};
ghost use Rattle.sis_journal.specs.View.{FailsText, IsWithin};
ghost use Rattle.sis_table.specs.Edits.{MayEditBy, RefusesEdits, edited_by};
ghost use Rattle.sis_table.specs.Good.{IsGood};
ghost use Rattle.sis_table.specs.Reading.{table_at};
ghost use Rattle.sis_table.specs.Spelling.{spelling};
ghost use Rattle.sis_table.specs.Uses.{ChangesUse, IsDataUse, TakesFresh};
ghost use Rattle.sis_table.specs.Volume.{IsTable};

use sis_disk::Layout;
use sis_journal::{Kept, KeptFault};
use sis_table::{Edit, EditsFault, PlaceUse, Table, TableFault};
use std::alloc::{AllocError, Global};
use std::marker::Model;

/// The current table of a volume.
#[derive(Drop)]
pub(crate) struct KeptTable {
    pub(crate) table: Table,
}

impl Model for KeptTable {
    ghost use Rattle.std.specs.Coded.{codes};
    ghost use Rattle.sis_ranges.specs.contracts.extents.Extents as extents;
    ghost use Rattle.sis_table.specs.Volume.{VolumeTable};

    ghost Value = { VolumeTable };

    ghost coded = { Prim.hlevel (codes, extents.the_row.coded) };

    ghost view = { λ k. k.table };
}

impl KeptTable {
    /// The image's layout.
    pub(crate) fn layout(&self) -> Layout
        ensures layout { result ≡ self.now.layout }
        ensures table { IsTable self.now }
    {
        self.table.layout()
    }

    /// Makes all of these edits, or none where memory runs out or the spelling would be longer than
    /// so many bytes. Answers which places became used and free.
    pub(crate) fn apply_all(
        &mut self,
        edits: &[Edit],
        most: u64,
    ) -> Result<Vec<PlaceUse>, EditsFault>
        requires { MayEditBy self.old edits.now }
        ensures ok { OnOk result (self.new ≡ edited_by self.old edits.now) }
        ensures err { OnErr result (self.new ≡ self.old) }
        ensures full { most < length (spelling (edited_by self.old edits.now)) → IsErr result }
        ensures cause { IfErr result
            (RefusesEdits (length (spelling (edited_by self.old edits.now))) most) }
        ensures uses { IfOk result (λ uses. IsGood self.old → TakesFresh self.old edits.now
            → ChangesUse self.old self.new uses.items) }
        ensures data_uses { IfOk result (λ uses. All (IsDataUse self.old.layout) uses.items) }
        ensures good { OnOk result (IsGood self.old → TakesFresh self.old edits.now
            → IsGood self.new) }
    {
        self.table.apply_all(edits, most)
    }
}

impl Kept for KeptTable {
    ghost use Rattle.sis_volume.specs.Tables.{spelled};

    ghost text = { λ k. spelling k };

    ghost read = { λ layout bytes. table_at layout bytes };

    ghost spelled = { λ layout bytes v is fits e. spelled layout bytes v is fits e };

    fn encode(&self, out: &mut Vec<u8>) -> Result<(), AllocError>
        ensures ok { OnOk result (out.new.items ≡ out.old.items ++ spelling self.now) }
        ensures err { OnErr result (out.new.items ≡ out.old.items) }
        ensures capacity { vec_capacity out.old ≤ vec_capacity out.new }
        ensures room { length out.old.items + length (spelling self.now) ≤ vec_capacity out.old
            → IsOk result }
    {
        self.table.encode(out)
    }

    fn encoded_len(&self) -> u64
        ensures { result ≡ length (spelling self.now) }
    {
        self.table.encoded_len()
    }

    fn decode(alloc: Global, bytes: &[u8], layout: Layout) -> Result<KeptTable, KeptFault>
        requires layout { IsLayout layout }
        requires fits { length bytes.now ≤ table_cap layout }
        ensures value { IfOk result (λ value. table_at layout bytes.now ≡ Ok value) }
        ensures fault { IfErr result (λ fault. FailsText fault (table_at layout bytes.now)) }
        ensures within { IfErr result (IsWithin (length bytes.now)) }
    {
        match Table::decode(alloc, bytes, layout) {
            Ok(table) => Ok(KeptTable { table }),
            Err(TableFault::At { at, kind }) => Err(KeptFault::At { at, kind }),
            Err(TableFault::Memory) => Err(KeptFault::Memory),
        }
    }
}
