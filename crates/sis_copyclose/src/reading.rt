//! Reads bytes of files, each of them copied once.
ghost use Rattle.std.specs.Prelude.{◌≡◌, ◌+◌, ◌*◌, ◌≤◌, true, None, length, take, Err, IfErr, IfOk, IfSome, OnErr, OnOk};
ghost use Rattle.sis_history.specs.Needs.{read_end, reads_between, reads_in};
ghost use Rattle.sis_disk.specs.Record.{live_of};
ghost use Rattle.sis_table.specs.Edits.{IfThere};
ghost use Rattle.sis_table.specs.Kinds.{plain_node};
ghost use Rattle.sis_table.specs.Volume.{IsTable, node_with};
ghost use Rattle.sis_volume.specs.Stopping.{StopsWell};
ghost use Rattle.sis_copyclose.specs.Inside.{AddsBytes, AddsPart, ReadsFew};
ghost use Rattle.sis_copyclose.specs.Reading.{Appends, HindersReading, OnlyLooks};

use crate::zeros::add_zeros;
use sis_disk::Disk;
use sis_model::{ByteRange, Hindrance};
use sis_view::Piece;
use sis_volume::Volume;

// Adds what goes on at a byte of a file, at most so many bytes. Answers how many it added.
fn add_piece<D: Disk>(
    volume: &mut Volume<D>,
    file: u64,
    at: u64,
    most: u64,
    out: &mut Vec<u8>,
) -> Result<u64, Hindrance>
    requires up { volume.old.down ≡ None }
    requires there { IfThere (node_with volume.old.table file)
        (λ n. (plain_node n ≡ true) × (at + most ≤ n.size)) }
    requires most { 1 ≤ most }
    ensures added { IfOk result (λ count. IfThere (node_with volume.old.table file)
        (λ n. AddsPart volume.old.table n at most count (live_of volume.old.seen)
        out.old.items out.new.items)) }
    ensures err { OnErr result (out.new.items ≡ out.old.items) }
    ensures cause { IfErr result (λ by. IfThere (node_with volume.old.table file)
        (λ n. HindersReading (reads_between n at (at + 1))
        volume.old.seen volume.new.seen by)) }
    ensures same { volume.new ≡ record volume.old { seen = volume.new.seen } }
    ensures reads { IfThere (node_with volume.old.table file)
        (λ n. ReadsFew (reads_between n at (at + 1)) volume.old.seen volume.new.seen) }
    ensures quiet { OnOk result (volume.new.seen.faults ≡ volume.old.seen.faults) }
{
    match volume.piece(file, at) {
        Ok(Piece::Bytes(bytes)) => {
            let count = most.min(bytes.len() as u64);
            out.extend_from_slice(&bytes[..count as usize])?;
            Ok(count)
        }
        Ok(Piece::Zeros(zeros)) => {
            let count = most.min(zeros);
            add_zeros(out, count as usize)?;
            Ok(count)
        }
        Err(_) => Err(Hindrance::Disk),
    }
}

// Adds the bytes of a file from one up to before another.
fn add_pieces<D: Disk>(
    volume: &mut Volume<D>,
    file: u64,
    at: u64,
    end: u64,
    out: &mut Vec<u8>,
) -> Result<(), Hindrance>
    requires up { volume.old.down ≡ None }
    requires there { IfThere (node_with volume.old.table file)
        (λ n. (plain_node n ≡ true) × (end ≤ n.size)) }
    ensures added { OnOk result (IfThere (node_with volume.old.table file)
        (λ n. AddsBytes volume.old.table n at end (live_of volume.old.seen)
        out.old.items out.new.items)) }
    ensures front { take (length out.old.items) out.new.items ≡ out.old.items }
    ensures cause { IfErr result (λ by. IfThere (node_with volume.old.table file)
        (λ n. HindersReading (reads_between n at end) volume.old.seen volume.new.seen by)) }
    ensures same { volume.new ≡ record volume.old { seen = volume.new.seen } }
    ensures reads { IfThere (node_with volume.old.table file)
        (λ n. ReadsFew (reads_between n at end) volume.old.seen volume.new.seen) }
    ensures quiet { OnOk result (volume.new.seen.faults ≡ volume.old.seen.faults) }
{
    let mut next = at;
    while next < end {
        next += add_piece(volume, file, next, end - next, out)?;
    }
    Ok(())
}

// The end of a range in a file, and the range's start where that is later.
fn end_in<D: Disk>(volume: &Volume<D>, file: u64, range: ByteRange) -> u64
    requires { IfThere (node_with volume.now.table file) (λ n. plain_node n ≡ true) }
    ensures end { IfThere (node_with volume.now.table file) (λ n. result ≡ read_end n range) }
    ensures table { IsTable volume.now.table }
    ensures sized { IfSome (live_of volume.now.seen)
        (λ live. length live ≡ 4096 * volume.now.table.layout.total) }
{
    let node = volume.node(file).unwrap();
    range.at.saturating_add(range.len).min(node.size)
}

/// Adds the bytes of a range of a file to `out`, as far as the file goes.
pub fn read<D: Disk>(
    volume: &mut Volume<D>,
    file: u64,
    range: ByteRange,
    out: &mut Vec<u8>,
) -> Result<(), Hindrance>
    requires { IfThere (node_with volume.old.table file) (λ n. plain_node n ≡ true) }
    ensures ok { OnOk result (IfThere (node_with volume.old.table file)
        (λ n. Appends volume.old.table n range (live_of volume.old.seen)
        out.old.items out.new.items)) }
    ensures err { OnErr result (out.new.items ≡ out.old.items) }
    ensures looks { IfThere (node_with volume.old.table file)
        (λ n. OnlyLooks (reads_in range n) result volume.old volume.new) }
    ensures stops { StopsWell volume.old volume.new }
{
    if let Some(at) = volume.down() {
        return Err(Hindrance::Down { at });
    }
    let end = end_in(volume, file, range);
    let before = out.len();
    out.reserve(end.saturating_sub(range.at) as usize)?;
    let added = add_pieces(volume, file, range.at, end, out);
    if added.is_err() {
        out.truncate(before);
    }
    added
}
