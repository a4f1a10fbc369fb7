//! The bytes of the blocks that a change of a file writes: new ones, and old ones around them.
ghost use Rattle.std.specs.Prelude.{◌≡◌, ◌+◌, ◌-◌, ◌*◌, ◌/◌, ◌%◌, ◌<◌, ◌≤◌, ◌^◌, true, None, drop, length, IfErr, IfOk, IfSome, OnOk, ◌++◌};
ghost use Rattle.sis_history.specs.Needs.{reads_in};
ghost use Rattle.sis_disk.specs.Record.{live_of};
ghost use Rattle.sis_model.specs.World.{resized};
ghost use Rattle.sis_table.specs.Content.{content_of};
ghost use Rattle.sis_table.specs.Edits.{IfThere};
ghost use Rattle.sis_table.specs.Kinds.{plain_node};
ghost use Rattle.sis_table.specs.Volume.{blocks_of, greatest_size, node_with};
ghost use Rattle.sis_copyclose.specs.Calls.{reads_around};
ghost use Rattle.sis_copyclose.specs.Inside.{AddsOld, AreTexts, Works, before_text, behind_text};
ghost use Rattle.sis_copyclose.specs.Reading.{HindersReading};

use crate::plan::Plan;
use crate::zeros::add_zeros;
use crate::{ByteRange, read};
use sis_disk::{BLOCK_LEN, Disk};
use sis_model::Hindrance;
use sis_volume::Volume;
use std::alloc::Global;

/// The bytes of the blocks that a change writes.
#[derive(Drop)]
pub(crate) struct Texts {
    /// The block at the old end, or nothing.
    pub(crate) end: Vec<u8>,
    /// The blocks that the new bytes touch.
    pub(crate) touched: Vec<u8>,
}

// Adds a range of a file to `out`, with zeros where the file has ended.
fn add_old<D: Disk>(
    volume: &mut Volume<D>,
    file: u64,
    range: ByteRange,
    out: &mut Vec<u8>,
) -> Result<(), Hindrance>
    requires up { volume.old.down ≡ None }
    requires there { IfThere (node_with volume.old.table file) (λ n. plain_node n ≡ true) }
    requires short { range.at % 4096 + range.len ≤ 4096 }
    ensures ok { OnOk result (IfThere (node_with volume.old.table file)
        (λ n. AddsOld volume.old.table n range (live_of volume.old.seen)
        out.old.items out.new.items)) }
    ensures cause { IfErr result (λ by. IfThere (node_with volume.old.table file)
        (λ n. HindersReading (reads_in range n) volume.old.seen volume.new.seen by)) }
    ensures quiet { OnOk result (volume.new.seen.faults ≡ volume.old.seen.faults) }
    ensures works { IfThere (node_with volume.old.table file)
        (λ n. Works (reads_in range n) volume.old volume.new) }
{
    let before = out.len();
    read(volume, file, range, out)?;
    let found = out.len() - before;
    add_zeros(out, range.len as usize - found)?;
    Ok(())
}

// The bytes of the block at the old end of a file, if it is written.
fn end_text<D: Disk>(
    alloc: Global,
    volume: &mut Volume<D>,
    file: u64,
    plan: &Plan,
) -> Result<Vec<u8>, Hindrance>
    requires up { volume.old.down ≡ None }
    requires there { IfThere (node_with volume.old.table file) (λ n. plain_node n ≡ true) }
    requires ends { plan.now.ends ≤ 1 }
    ensures size { IfOk result (λ text. length text.items ≡ 4096 * plan.now.ends) }
    ensures told { IfOk result (λ text. IfSome (live_of volume.old.seen)
        (λ live. IfThere (node_with volume.old.table file) (λ n. text.items
        ≡ resized (4096 * plan.now.ends) (drop (4096 * (plan.now.old_size / 4096))
        (content_of volume.old.table live n))))) }
    ensures cause { IfErr result
        (HindersReading plan.now.ends volume.old.seen volume.new.seen) }
    ensures quiet { OnOk result (volume.new.seen.faults ≡ volume.old.seen.faults) }
    ensures works { Works plan.now.ends volume.old volume.new }
{
    let mut text = Vec::new(alloc);
    let range = ByteRange {
        at: plan.old_size - plan.old_size % BLOCK_LEN,
        len: BLOCK_LEN * plan.ends,
    };
    add_old(volume, file, range, &mut text)?;
    Ok(text)
}

// The bytes of the blocks that new bytes touch.
fn touched_text<D: Disk>(
    alloc: Global,
    volume: &mut Volume<D>,
    file: u64,
    at: u64,
    bytes: &[u8],
) -> Result<Vec<u8>, Hindrance>
    requires up { volume.old.down ≡ None }
    requires there { IfThere (node_with volume.old.table file) (λ n. plain_node n ≡ true) }
    requires end { at + length bytes.now ≤ greatest_size }
    ensures size { IfOk result (λ text. length text.items
        ≡ 4096 * blocks_of (at + length bytes.now) - 4096 * (at / 4096)) }
    ensures told { IfOk result (λ text. IfSome (live_of volume.old.seen)
        (λ live. IfThere (node_with volume.old.table file) (λ n. text.items
        ≡ before_text at (content_of volume.old.table live n) ++ bytes.now
        ++ behind_text (at + length bytes.now) (content_of volume.old.table live n)))) }
    ensures cause { IfErr result (λ by. IfThere (node_with volume.old.table file)
        (λ n. HindersReading (reads_around n at (length bytes.now))
        volume.old.seen volume.new.seen by)) }
    ensures quiet { OnOk result (volume.new.seen.faults ≡ volume.old.seen.faults) }
    ensures works { IfThere (node_with volume.old.table file)
        (λ n. Works (reads_around n at (length bytes.now)) volume.old volume.new) }
{
    let end = at + bytes.len() as u64;
    let before = ByteRange {
        at: at - at % BLOCK_LEN,
        len: at % BLOCK_LEN,
    };
    let behind = ByteRange {
        at: end,
        len: BLOCK_LEN * end.div_ceil(BLOCK_LEN) - end,
    };
    let size = before.len + bytes.len() as u64 + behind.len;
    let mut text = Vec::with_capacity(alloc, size as usize)?;
    add_old(volume, file, before, &mut text)?;
    text.extend_from_slice(bytes)?;
    add_old(volume, file, behind, &mut text)?;
    Ok(text)
}

/// The bytes of the blocks that a change writes.
pub(crate) fn texts_of<D: Disk>(
    alloc: Global,
    volume: &mut Volume<D>,
    file: u64,
    plan: &Plan,
    at: u64,
    bytes: &[u8],
) -> Result<Texts, Hindrance>
    requires up { volume.old.down ≡ None }
    requires there { IfThere (node_with volume.old.table file) (λ n. plain_node n ≡ true) }
    requires old { IfThere (node_with volume.old.table file) (λ n. plan.now.old_size ≡ n.size) }
    requires ends { plan.now.ends ≤ 1 }
    requires count { plan.now.count ≡ blocks_of (at + length bytes.now) - at / 4096 }
    requires end { at + length bytes.now ≤ greatest_size }
    ensures texts { IfOk result (λ texts. IfThere (node_with volume.old.table file)
        (λ n. AreTexts volume.old.table n plan.now at bytes.now (live_of volume.old.seen)
        texts.end.items texts.touched.items)) }
    ensures cause { IfErr result (λ by. IfThere (node_with volume.old.table file)
        (λ n. HindersReading (plan.now.ends + reads_around n at (length bytes.now))
        volume.old.seen volume.new.seen by)) }
    ensures quiet { OnOk result (volume.new.seen.faults ≡ volume.old.seen.faults) }
    ensures works { IfThere (node_with volume.old.table file)
        (λ n. Works (plan.now.ends + reads_around n at (length bytes.now))
        volume.old volume.new) }
{
    let end = end_text(alloc, volume, file, plan)?;
    let touched = touched_text(alloc, volume, file, at, bytes)?;
    Ok(Texts { end, touched })
}
