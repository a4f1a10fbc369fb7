//! What a change of a file's bytes or size has to write.
ghost use Rattle.std.specs.Prelude.{◌≡◌, ◌+◌, ◌*◌, ◌<◌, ◌≤◌, ◌^◌, length, IfSome, IsSome};
ghost use Rattle.std.specs.List.{range_with_len};
ghost use Rattle.sis_disk.specs.Record.{live_of};
ghost use Rattle.sis_table.specs.Changes.{rewrites_end};
ghost use Rattle.sis_table.specs.Edits.{IfThere};
ghost use Rattle.sis_table.specs.Good.{is_among};
ghost use Rattle.sis_table.specs.Volume.{IsTable, greatest_size, node_with};
ghost use Rattle.sis_copyclose.specs.Inside.{IsPlan};

use sis_disk::{BLOCK_LEN, Disk};
use sis_table::Node;
use sis_volume::Volume;

/// What a change of a file has to write.
#[derive(Clone, Copy)]
pub(crate) struct Plan {
    /// The size that the file has.
    pub(crate) old_size: u64,
    /// The version that it has.
    pub(crate) version: u64,
    /// 1 where the block at the old end is written besides, else 0.
    pub(crate) ends: u64,
    /// The first block that the bytes touch.
    pub(crate) first: u64,
    /// How many blocks they touch.
    pub(crate) count: u64,
}

// Whether a block is one of so many, from one on.
fn is_within(first: u64, count: u64, block: u64) -> bool
    requires { first + count < 2 ^ 64 }
    ensures { result ≡ is_among (range_with_len first count) block }
{
    first <= block && block < first + count
}

// Whether the block at a file's old end has to be written, beside these blocks.
fn rewrites(node: &Node, size: u64, first: u64, count: u64) -> bool
    requires { first + count < 2 ^ 64 }
    ensures { result ≡ rewrites_end node.now size (range_with_len first count) }
{
    let end = node.size / BLOCK_LEN;
    node.size < size
        && node.size % BLOCK_LEN != 0
        && node.map.get(end).is_some()
        && !is_within(first, count, end)
}

// What a file's change to this size, with so many bytes at an offset, has to write.
fn plan_of(node: &Node, size: u64, at: u64, len: u64) -> Plan
    requires { at + len ≤ greatest_size }
    ensures { IsPlan node.now size at len result }
{
    let first = at / BLOCK_LEN;
    let count = (at + len).div_ceil(BLOCK_LEN) - first;
    Plan {
        old_size: node.size,
        version: node.version,
        ends: rewrites(node, size, first, count) as u64,
        first,
        count,
    }
}

/// The same of the file with this id.
pub(crate) fn plan_in<D: Disk>(volume: &Volume<D>, file: u64, size: u64, at: u64, len: u64) -> Plan
    requires there { IsSome (node_with volume.now.table file) }
    requires end { at + len ≤ greatest_size }
    ensures plan { IfThere (node_with volume.now.table file) (λ n. IsPlan n size at len result) }
    ensures table { IsTable volume.now.table }
    ensures sized { IfSome (live_of volume.now.seen)
        (λ live. length live ≡ 4096 * volume.now.table.layout.total) }
{
    plan_of(volume.node(file).unwrap(), size, at, len)
}
