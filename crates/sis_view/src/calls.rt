//! The calls of a disk by which one block is read or written.
ghost use Rattle.std.specs.Prelude.{◌≡◌, ◌+◌, ◌*◌, ◌≤◌, length, IfSome, OnErr, OnOk};
ghost use Rattle.std.specs.Option.{option_map};
ghost use Rattle.sis_disk.specs.Record.{Rose, Went, Writes, laid, live_of};
ghost use Rattle.sis_view.specs.Reading.{OnlyReads, block_of};

use crate::ViewFault;
use crate::buffers::Buffers;
use sis_disk::{BLOCK_LEN, Disk};

/// Where a block begins, in bytes.
fn start_of<D: Disk>(disk: &D, block: u64) -> u64
    requires { 4096 * block + 4096 ≤ (D.seen disk.now).size }
    ensures { result ≡ 4096 * block }
{
    prove!(block < disk.len() / BLOCK_LEN);
    BLOCK_LEN * block
}

/// Reads one block.
#[tactic(auto, using(crate::proofs::ReadLemmas::one_read))]
pub fn read_block<D: Disk>(disk: &mut D, block: u64, into: &mut [u8]) -> Result<(), ViewFault>
    requires block { 4096 * block + 4096 ≤ (D.seen disk.old).size }
    requires len { length into.old ≡ 4096 }
    ensures live { OnOk result (IfSome (live_of (D.seen disk.old))
        (λ live. into.new ≡ block_of live block)) }
    ensures reads { OnlyReads 1 (D.seen disk.old) (D.seen disk.new) }
    ensures cause { OnErr result (Rose (D.seen disk.old).faults (D.seen disk.new).faults) }
    ensures once { OnErr result ((D.seen disk.new).faults ≤ (D.seen disk.old).faults + 1) }
    ensures quiet { OnOk result ((D.seen disk.new).faults ≡ (D.seen disk.old).faults) }
{
    let at = start_of(disk, block);
    disk.read(at, into)?;
    Ok(())
}

/// Reads two blocks.
pub fn read_two<D: Disk>(
    disk: &mut D,
    a: u64,
    b: u64,
    buffers: &mut Buffers,
) -> Result<(), ViewFault>
    requires first { 4096 * a + 4096 ≤ (D.seen disk.old).size }
    requires second { 4096 * b + 4096 ≤ (D.seen disk.old).size }
    ensures first { OnOk result (IfSome (live_of (D.seen disk.old))
        (λ live. buffers.new.first.items ≡ block_of live a)) }
    ensures second { OnOk result (IfSome (live_of (D.seen disk.old))
        (λ live. buffers.new.second.items ≡ block_of live b)) }
    ensures reads { OnlyReads 2 (D.seen disk.old) (D.seen disk.new) }
    ensures cause { OnErr result (Rose (D.seen disk.old).faults (D.seen disk.new).faults) }
    ensures once { OnErr result ((D.seen disk.new).faults ≤ (D.seen disk.old).faults + 1) }
    ensures quiet { OnOk result ((D.seen disk.new).faults ≡ (D.seen disk.old).faults) }
{
    read_block(disk, a, &mut buffers.first)?;
    read_block(disk, b, &mut buffers.second)
}

/// Writes one block.
pub fn write_block<D: Disk>(disk: &mut D, block: u64, bytes: &[u8]) -> Result<(), ViewFault>
    requires block { 4096 * block + 4096 ≤ (D.seen disk.old).size }
    requires bytes { length bytes.now ≡ 4096 }
    ensures call { Went (Writes (4096 * block) bytes.now) result
        (D.seen disk.old) (D.seen disk.new) }
    ensures live { OnOk result (live_of (D.seen disk.new)
        ≡ option_map (λ live. laid live (4096 * block) bytes.now) (live_of (D.seen disk.old))) }
{
    let at = start_of(disk, block);
    disk.write(at, bytes)?;
    Ok(())
}
