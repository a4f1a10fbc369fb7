//! Makes files.
ghost use Rattle.std.specs.Prelude.{◌≡◌, ℕ, ◌*◌, ◌<◌, ◌≤◌, [], None, Some, false, length, IfErr, IfOk, IfSome, OnErr, OnOk};
ghost use Rattle.std.specs.FinMap.{insert};
ghost use Rattle.std.specs.List.{list_any};
ghost use Rattle.sis_disk.specs.Record.{live_of};
ghost use Rattle.sis_history.specs.Needs.{hindrance_of, put_need};
ghost use Rattle.sis_model.specs.World.{resized};
ghost use Rattle.sis_name.specs.Name.{IsName};
ghost use Rattle.sis_name.specs.Units.{is_store_name};
ghost use Rattle.sis_table.specs.Changes.{make_edits};
ghost use Rattle.sis_table.specs.Volume.{IsTable, blocks_of, greatest_number, greatest_size, has_name, most_nodes};
ghost use Rattle.sis_copyclose.specs.Changed.{IsWithFile};
ghost use Rattle.sis_copyclose.specs.Inside.{GivesUp, Readies, StagesFile};
ghost use Rattle.sis_copyclose.specs.Operating.{Operates};

use crate::rooms::make_room;
use crate::staging::stage_blocks;
use sis_disk::{BLOCK_LEN, Disk};
use sis_model::{Hindrance, LimitKind};
use sis_name::Name;
use sis_table::{Edit, GREATEST_NUMBER, MOST_FILES, NodeKind};
use sis_volume::{Txn, Volume};
use std::alloc::{AllocError, Global};

// The limit that one more file would pass.
fn new_file_limit<D: Disk>(volume: &Volume<D>) -> Option<LimitKind>
    ensures limit { IfSome result (λ kind. (size : ℕ)
        → hindrance_of volume.now.table (put_need size) ≡ Some (Hindrance.Limit kind)) }
    ensures files { result ≡ None → length volume.now.table.nodes < most_nodes }
    ensures ids { result ≡ None → volume.now.table.next_id < greatest_number }
    ensures table { IsTable volume.now.table }
    ensures sized { IfSome (live_of volume.now.seen)
        (λ live. length live ≡ 4096 * volume.now.table.layout.total) }
{
    let id = volume.next_id();
    if volume.files() >= MOST_FILES {
        return Some(LimitKind::Files);
    }
    if id >= GREATEST_NUMBER {
        return Some(LimitKind::Ids);
    }
    None
}

// The bytes, and zeros behind them up to the end of their last block.
fn whole_blocks(alloc: Global, bytes: &[u8]) -> Result<Vec<u8>, AllocError>
    requires { length bytes.now ≤ greatest_size }
    ensures { IfOk result (λ blocks. blocks.items
        ≡ resized (4096 * blocks_of (length bytes.now)) bytes.now) }
{
    let size = (bytes.len() as u64).next_multiple_of(BLOCK_LEN) as usize;
    let mut blocks = Vec::with_capacity(alloc, size)?;
    blocks.extend_from_slice(bytes)?;
    blocks.resize(size, 0)?;
    Ok(blocks)
}

// The edits that make a file of this size whose blocks are zeros.
fn new_file(alloc: Global, id: u64, name: &Name, size: u64) -> Result<Txn, Hindrance>
    ensures edits { IfOk result (λ txn. txn.edits ≡ make_edits id name.now size []) }
    ensures name { IfOk result (λ txn. IsName name.now) }
    ensures memory { IfErr result (λ by. by ≡ Hindrance.Memory) }
{
    let mut txn = Txn::begin(alloc);
    txn.push(Edit::Make {
        id,
        kind: NodeKind::Plain,
        name: name.copy(alloc)?,
    })?;
    txn.push(Edit::Size { id, size })?;
    Ok(txn)
}

// Writes the bytes of a new file to places that neither table maps, and gives the edits that make
// the file. Where there are too few such places it commits first.
fn stage_file<D: Disk>(
    alloc: Global,
    volume: &mut Volume<D>,
    name: &Name,
    bytes: &[u8],
) -> Result<Txn, Hindrance>
    requires up { volume.old.down ≡ None }
    requires short { length bytes.now ≤ greatest_size }
    requires user { is_store_name name.now ≡ false }
    requires free { list_any (has_name name.now) volume.old.table.nodes ≡ false }
    ensures staged { IfOk result (λ txn. StagesFile volume.old.table name.now bytes.now
        (live_of volume.new.seen) txn.edits) }
    ensures quiet { OnOk result (volume.new.seen.faults ≡ volume.old.seen.faults) }
    ensures ready { OnOk result (Readies (put_need (length bytes.now))
        (blocks_of (length bytes.now)) volume.old volume.new) }
    ensures fails { IfErr result (GivesUp (put_need (length bytes.now))
        (IsWithFile volume.old.table name.now (length bytes.now))
        (blocks_of (length bytes.now)) volume.old volume.new) }
{
    if let Some(kind) = new_file_limit(volume) {
        return Err(Hindrance::Limit { kind });
    }
    let id = volume.next_id();
    make_room(volume, (bytes.len() as u64).div_ceil(BLOCK_LEN))?;
    let mut txn = new_file(alloc, id, name, bytes.len() as u64)?;
    let blocks = whole_blocks(alloc, bytes)?;
    stage_blocks(volume, &mut txn, id, 0, &blocks)?;
    Ok(txn)
}

/// Makes a plain file of this name with these bytes.
pub fn put<D: Disk>(
    alloc: Global,
    volume: &mut Volume<D>,
    name: &Name,
    bytes: &[u8],
) -> Result<(), Hindrance>
    requires short { length bytes.now ≤ greatest_size }
    requires user { is_store_name name.now ≡ false }
    requires free { list_any (has_name name.now) volume.old.table.nodes ≡ false }
    ensures { Operates (put_need (length bytes.now))
        (IsWithFile volume.old.table name.now (length bytes.now))
        (λ files. insert files name.now bytes.now) 0 result volume.old volume.new }
{
    if let Some(at) = volume.down() {
        return Err(Hindrance::Down { at });
    }
    let txn = stage_file(alloc, volume, name, bytes)?;
    volume.apply(&txn)
}
