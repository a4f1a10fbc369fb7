//! Writes, and new sizes. Both give the blocks that change new places, and leave the old ones alone.
ghost use Rattle.std.specs.Prelude.{◌≡◌, ◌+◌, ◌*◌, ◌/◌, ◌<◌, ◌≤◌, ◌^◌, max, true, None, Some, length, IfErr, IfOk, IfSome, IsOk, OnErr, OnOk, ◌++◌};
ghost use Rattle.sis_disk.specs.Record.{live_of};
ghost use Rattle.sis_history.specs.Needs.{resize_need};
ghost use Rattle.sis_model.specs.Answer.{written};
ghost use Rattle.sis_model.specs.World.{resized};
ghost use Rattle.sis_table.specs.Changes.{size_of, write_of};
ghost use Rattle.sis_table.specs.Edits.{IfThere};
ghost use Rattle.sis_table.specs.Kinds.{plain_node};
ghost use Rattle.sis_table.specs.Volume.{IsTable, greatest_number, greatest_size, node_with};
ghost use Rattle.sis_volume.specs.View.{fresh};
ghost use Rattle.sis_copyclose.specs.Calls.{size_reads, write_reads};
ghost use Rattle.sis_copyclose.specs.Changed.{IsWithResize, with_bytes};
ghost use Rattle.sis_copyclose.specs.Inside.{GivesUp, IsChange, Readies, StagesChange, StagesTexts, Works, change_reads, cut_by, first_edits, resize_by, sized_by};
ghost use Rattle.sis_copyclose.specs.Operating.{Operates};
ghost use Rattle.sis_copyclose.specs.Reading.{HindersReading};

use crate::plan::{Plan, plan_in};
use crate::rooms::make_room;
use crate::staging::stage_blocks;
use crate::texts::{Texts, texts_of};
use sis_disk::{BLOCK_LEN, Disk};
use sis_model::{Hindrance, LimitKind};
use sis_table::{Edit, GREATEST_NUMBER};
use sis_volume::{Txn, Volume};
use std::alloc::{AllocError, Global};

// Takes the blocks behind a new size out of the file's map.
fn cut(txn: &mut Txn, file: u64, old: u64, size: u64) -> Result<(), AllocError>
    ensures ok { OnOk result (txn.new.edits ≡ txn.old.edits ++ cut_by file old size) }
{
    if size < old {
        let first = size.div_ceil(BLOCK_LEN);
        let count = old.div_ceil(BLOCK_LEN) - first;
        txn.push(Edit::Unmap {
            id: file,
            first,
            count,
        })?;
    }
    Ok(())
}

// Gives the file its new size.
fn give_size(txn: &mut Txn, file: u64, old: u64, size: u64) -> Result<(), AllocError>
    ensures ok { OnOk result (txn.new.edits ≡ txn.old.edits ++ sized_by file old size) }
{
    if size != old {
        txn.push(Edit::Size { id: file, size })?;
    }
    Ok(())
}

// The edits of a change that come before those that map blocks.
fn begin_change(alloc: Global, file: u64, plan: &Plan, size: u64) -> Result<Txn, AllocError>
    requires { plan.now.version < greatest_number }
    ensures { IfOk result (λ txn. txn.edits ≡ first_edits file plan.now size) }
{
    let mut txn = Txn::begin(alloc);
    cut(&mut txn, file, plan.old_size, size)?;
    give_size(&mut txn, file, plan.old_size, size)?;
    txn.push(Edit::Version {
        id: file,
        version: plan.version + 1,
    })?;
    Ok(txn)
}

// Writes the blocks to fresh places, and adds the edits that map them.
fn stage_texts<D: Disk>(
    volume: &mut Volume<D>,
    txn: &mut Txn,
    file: u64,
    plan: &Plan,
    texts: &Texts,
) -> Result<(), Hindrance>
    requires up { volume.old.down ≡ None }
    requires table { IsTable volume.old.table }
    requires end { length texts.now.end.items ≡ 4096 * plan.now.ends }
    requires touched { length texts.now.touched.items ≡ 4096 * plan.now.count }
    requires room { plan.now.ends + plan.now.count ≤ fresh volume.old txn.old }
    requires end_block { plan.now.old_size / 4096 + plan.now.ends ≤ 2 ^ 24 }
    requires blocks { plan.now.first + plan.now.count ≤ 2 ^ 24 }
    requires sized { IfSome (live_of volume.old.seen)
        (λ live. length live ≡ 4096 * volume.old.table.layout.total) }
    ensures staged { OnOk result (StagesTexts volume.old.table file plan.now
        texts.now.end.items texts.now.touched.items (live_of volume.new.seen)
        txn.old.edits txn.new.edits) }
    ensures cause { IfErr result (HindersReading (plan.now.ends + plan.now.count)
        volume.old.seen volume.new.seen) }
    ensures quiet { OnOk result (volume.new.seen.faults ≡ volume.old.seen.faults) }
    ensures works { Works (plan.now.ends + plan.now.count) volume.old volume.new }
{
    stage_blocks(volume, txn, file, plan.old_size / BLOCK_LEN, &texts.end)?;
    stage_blocks(volume, txn, file, plan.first, &texts.touched)
}

// Writes the blocks of a change to new places, and gives the edits that make it. Where there are too
// few places it commits first.
fn stage_change<D: Disk>(
    alloc: Global,
    volume: &mut Volume<D>,
    file: u64,
    size: u64,
    at: u64,
    bytes: &[u8],
) -> Result<Txn, Hindrance>
    requires up { volume.old.down ≡ None }
    requires change { IfThere (node_with volume.old.table file)
        (λ n. IsChange n size at (length bytes.now)) }
    ensures staged { IfOk result (λ txn. IfThere (node_with volume.old.table file)
        (λ n. StagesChange volume.old.table n size at bytes.now (live_of volume.new.seen)
        txn.edits)) }
    ensures quiet { OnOk result (volume.new.seen.faults ≡ volume.old.seen.faults) }
    ensures ready { OnOk result (IfThere (node_with volume.old.table file)
        (λ n. Readies (resize_need n (Some (resize_by n size at (length bytes.now))))
        (length (resize_by n size at (length bytes.now)).blocks
        + change_reads n size at (length bytes.now)) volume.old volume.new)) }
    ensures fails { IfErr result (λ by. IfThere (node_with volume.old.table file)
        (λ n. GivesUp (resize_need n (Some (resize_by n size at (length bytes.now))))
        (IsWithResize volume.old.table n (Some (resize_by n size at (length bytes.now))))
        (length (resize_by n size at (length bytes.now)).blocks
        + change_reads n size at (length bytes.now)) volume.old volume.new by)) }
{
    let plan = plan_in(volume, file, size, at, bytes.len() as u64);
    if plan.version >= GREATEST_NUMBER {
        return Err(Hindrance::Limit {
            kind: LimitKind::Versions,
        });
    }
    make_room(volume, plan.ends + plan.count)?;
    let texts = texts_of(alloc, volume, file, &plan, at, bytes)?;
    let mut txn = begin_change(alloc, file, &plan, size)?;
    stage_texts(volume, &mut txn, file, &plan, &texts)?;
    Ok(txn)
}

// The size of a file.
fn size_in<D: Disk>(volume: &Volume<D>, file: u64) -> u64
    requires { IfThere (node_with volume.now.table file) (λ n. plain_node n ≡ true) }
    ensures size { IfThere (node_with volume.now.table file) (λ n. result ≡ n.size) }
    ensures limit { result ≤ greatest_size }
    ensures table { IsTable volume.now.table }
    ensures sized { IfSome (live_of volume.now.seen)
        (λ live. length live ≡ 4096 * volume.now.table.layout.total) }
{
    volume.node(file).unwrap().size
}

/// Replaces bytes of a file from byte `at` on. A gap behind the file's end gets zeros.
pub fn write<D: Disk>(
    alloc: Global,
    volume: &mut Volume<D>,
    file: u64,
    at: u64,
    bytes: &[u8],
) -> Result<(), Hindrance>
    requires there { IfThere (node_with volume.old.table file) (λ n. plain_node n ≡ true) }
    requires end { at + length bytes.now ≤ greatest_size }
    ensures leaves { IfThere (node_with volume.old.table file) (λ n.
        Operates (resize_need n (write_of n at (length bytes.now)))
        (IsWithResize volume.old.table n (write_of n at (length bytes.now)))
        (with_bytes n.name (written at bytes.now)) (write_reads n at (length bytes.now))
        result volume.old volume.new) }
    ensures nothing { length bytes.now ≡ 0 → volume.old.down ≡ None
        → IsOk result × (volume.new ≡ volume.old) }
{
    if let Some(at) = volume.down() {
        return Err(Hindrance::Down { at });
    }
    let size = size_in(volume, file).max(at + bytes.len() as u64);
    if bytes.is_empty() {
        return Ok(());
    }
    let txn = stage_change(alloc, volume, file, size, at, bytes)?;
    volume.apply(&txn)
}

/// Gives a file another size: it is cut, or gets zeros behind its old end.
pub fn set_size<D: Disk>(
    alloc: Global,
    volume: &mut Volume<D>,
    file: u64,
    len: u64,
) -> Result<(), Hindrance>
    requires there { IfThere (node_with volume.old.table file) (λ n. plain_node n ≡ true) }
    requires limit { len ≤ greatest_size }
    ensures leaves { IfThere (node_with volume.old.table file) (λ n.
        Operates (resize_need n (size_of n len)) (IsWithResize volume.old.table n (size_of n len))
        (with_bytes n.name (resized len)) (size_reads n len) result volume.old volume.new) }
    ensures nothing { IfThere (node_with volume.old.table file) (λ n. n.size ≡ len
        → volume.old.down ≡ None → IsOk result × (volume.new ≡ volume.old)) }
{
    if let Some(at) = volume.down() {
        return Err(Hindrance::Down { at });
    }
    if size_in(volume, file) == len {
        return Ok(());
    }
    let txn = stage_change(alloc, volume, file, len, 0, &[])?;
    volume.apply(&txn)
}
