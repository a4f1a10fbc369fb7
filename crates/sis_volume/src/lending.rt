//! Lends blocks of the disk, and what goes on at a byte of a file.
ghost use Rattle.std.specs.Prelude.{◌≡◌, ◌+◌, ◌-◌, ◌/◌, ◌<◌, ◌≤◌, length, slice_range, true, None, IfOk, IfSome, IsSome, OnErr};
ghost use Rattle.std.specs.FinMap.{get};
ghost use Rattle.sis_disk.specs.Layout.{first_place};
ghost use Rattle.sis_disk.specs.Record.{live_of};
ghost use Rattle.sis_table.specs.Content.{block_at, content_of, own_content};
ghost use Rattle.sis_table.specs.Edits.{IfThere};
ghost use Rattle.sis_table.specs.Kinds.{plain_node};
ghost use Rattle.sis_table.specs.Volume.{IsTable, greatest_size, node_with};
ghost use Rattle.sis_view.specs.Reading.{Fetched};
ghost use Rattle.sis_volume.specs.Lending.{AreZeros, HasShape, IsNextPart, IsPiece, IsStored, IsWithinDisk, Lends, Looks, calls_of_piece, piece_bytes, piece_len};

use crate::Volume;
use crate::kept_table::KeptTable;
use sis_disk::{BLOCK_LEN, Disk};
use sis_table::Node;
use sis_view::{Blocks, Pair, Piece, ViewFault};

/// What goes on at a byte of a file.
#[derive(Clone, Copy)]
enum Part {
    /// So many bytes of the block at a place, from one of them on.
    Stored { place: u64, from: usize, len: usize },
    /// So many zeros.
    Zeros { len: u64 },
}

// Where the zeros end that go on at a byte of a file.
fn zeros_end(node: &Node, at: u64) -> u64
    requires at { at < node.now.size }
    requires size { node.now.size ≤ greatest_size }
    requires unmapped { get node.now.map (at / 4096) ≡ None }
    ensures behind { at < result }
    ensures zeros { AreZeros node.now at (result - at) }
{
    let blocks = node.size.div_ceil(BLOCK_LEN);
    match node.map.next_mapped(at / BLOCK_LEN, blocks) {
        Some(next) => BLOCK_LEN * next,
        None => node.size,
    }
}

// What goes on at a byte of a file.
fn part_of(node: &Node, at: u64) -> Part
    requires at { at < node.now.size }
    requires size { node.now.size ≤ greatest_size }
    ensures { IsNextPart node.now at result }
{
    let from = at % BLOCK_LEN;
    match node.map.get(at / BLOCK_LEN) {
        Some(place) => Part::Stored {
            place,
            from: from as usize,
            len: (BLOCK_LEN - from).min(node.size - at) as usize,
        },
        None => Part::Zeros {
            len: zeros_end(node, at) - at,
        },
    }
}

// The same of the file with this id.
fn part_in(kept: &KeptTable, file: u64, at: u64) -> Part
    requires table { IsTable kept.now }
    requires there { IfThere (node_with kept.now file) (λ n. at < n.size) }
    ensures { IfThere (node_with kept.now file) (λ n. IsNextPart n at result) }
{
    part_of(kept.table.node(file).unwrap(), at)
}

// Some bytes of a block.
fn bytes_of(block: &[u8], from: usize, len: usize) -> &[u8]
    requires { from + len ≤ length block.now }
    ensures { result.now ≡ slice_range block.now from (from + len) }
{
    &block[from..from + len]
}

ghost use Rattle.std.specs.Borrow.{sem};
ghost use Rattle.std.specs.Io.BufRead.{Rests};
ghost use Rattle.sis_view.specs.contracts.blocks.Blocks.{the_row as blocks_row};

// Lends a part of a file.
fn lend<D: Disk>(disk: &mut Blocks<D>, part: Part) -> Result<Piece<'_>, ViewFault>
    requires { IsWithinDisk (D.seen disk.old).size part }
    ensures shape { IfOk result (λ piece. HasShape part piece) }
    ensures lent { IfOk result (λ piece. IfSome (live_of (D.seen disk.old))
        (λ live. Lends live part piece)) }
    ensures stored { OnErr result (IsStored part) }
    ensures* after { sem 𝓛 (Rests (blocks_row D.row D.Disk) disk.entry
        (λ now. Fetched (calls_of_piece result) result (D.seen disk.old) (D.seen now)
        × (calls_of_piece result ≡ 0 → D.seen now ≡ D.seen disk.old))) }
{
    match part {
        Part::Stored { place, from, len } => {
            let block = disk.fetch(place)?;
            Ok(Piece::Bytes(bytes_of(block, from, len)))
        }
        Part::Zeros { len } => Ok(Piece::Zeros(len)),
    }
}

impl<D: Disk> Volume<D> {
    ghost use Rattle.std.specs.Borrow.{sem};
    ghost use Rattle.std.specs.Io.BufRead.{Rests};
    ghost use Rattle.sis_volume.specs.contracts.volume.Volume.{the_row};

    /// Lends what goes on at a byte of a file: bytes up to the end of the block, or zeros up to the
    /// next mapped block; or up to the file's end.
    ///
    /// Takes no memory. The file must have a byte there.
    pub fn piece(&mut self, file: u64, at: u64) -> Result<Piece<'_>, ViewFault>
        requires up { self.old.down ≡ None }
        requires there { IfThere (node_with self.old.table file) (λ n. at < n.size) }
        // It is of bytes exactly where the block is mapped, and ends no sooner than it must.
        ensures piece { IfOk result
            (λ piece. IfThere (node_with self.old.table file) (λ n. IsPiece n at piece)) }

        // They are those of the file's own blocks, and so those of a plain file.
        ensures own { IfOk result (λ piece. IfSome (live_of self.old.seen)
            (λ live. IfThere (node_with self.old.table file) (λ n. piece_bytes piece
            ≡ slice_range (own_content live n) at (at + piece_len piece)))) }
        ensures content { IfOk result (λ piece. IfSome (live_of self.old.seen)
            (λ live. IfThere (node_with self.old.table file) (λ n. plain_node n ≡ true
            → piece_bytes piece
            ≡ slice_range (content_of self.old.table live n) at (at + piece_len piece)))) }

        // It fails only where it reads, and zeros take no call.
        ensures mapped { OnErr result (IfThere (node_with self.old.table file)
            (λ n. IsSome (get n.map (at / 4096)))) }

        // What it leaves, once the piece is no longer lent.
        ensures* after { sem 𝓛 (Rests (the_row D.row D.Disk) self.entry
            (λ now. Looks (calls_of_piece result) result self.old now)) }
    {
        let part = part_in(&self.kept, file, at);
        lend(&mut self.disk, part)
    }

    /// Lends the blocks at two places of data blocks, which may be one place. Takes no memory.
    pub fn pair(&mut self, a: u64, b: u64) -> Result<Pair<'_>, ViewFault>
        requires up { self.old.down ≡ None }
        requires first_low { first_place self.old.table.layout ≤ a }
        requires first_high { a < self.old.table.layout.total }
        requires second_low { first_place self.old.table.layout ≤ b }
        requires second_high { b < self.old.table.layout.total }
        ensures first { IfOk result (λ pair. IfSome (live_of self.old.seen)
            (λ live. pair.first.now ≡ block_at live a)) }
        ensures second { IfOk result (λ pair. IfSome (live_of self.old.seen)
            (λ live. pair.second.now ≡ block_at live b)) }
        ensures first_len { IfOk result (λ pair. length pair.first.now ≡ 4096) }
        ensures second_len { IfOk result (λ pair. length pair.second.now ≡ 4096) }

        // What it leaves, once the blocks are no longer lent.
        ensures* after { sem 𝓛 (Rests (the_row D.row D.Disk) self.entry
            (λ now. Looks 2 result self.old now)) }
    {
        self.disk.fetch_two(a, b)
    }
}
