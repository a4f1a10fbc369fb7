//! Blocks of a disk in memory: six blocks of zeros, one of bytes 6 and one of bytes 7.
ghost use Rattle.std.specs.Prelude.{◌≡◌, ◌+◌, ◌*◌, ◌≤◌, ◌↔◌, length, take, IfOk, IfSome, IsTrue, OnErr};
ghost use Rattle.sis_disk.specs.Memory.{seen_of};
ghost use Rattle.sis_disk.specs.Record.{Rose, live_of};
ghost use Rattle.sis_view.specs.Reading.{OnlyReads, block_of};

use crate::{Blocks, ViewFault};
use sis_disk::{Disk, DiskFault, Memory};
use std::alloc::{AllocError, Global};
use std::test::Fail;

/// The blocks.
fn eight_blocks(alloc: Global) -> Result<Vec<u8>, AllocError>
    ensures { IfOk result (λ bytes. length bytes.items ≡ 32768) }
{
    let mut bytes = vec![in alloc; 0; 24_576]?;
    bytes.resize(28_672, 6)?;
    bytes.resize(32_768, 7)?;
    Ok(bytes)
}

/// The disk, which fails at these calls.
fn disk_of(alloc: Global, fails: Vec<u64>) -> Result<Memory, AllocError>
    ensures { IfOk result (λ disk. (seen_of disk).size ≡ 32768) }
{
    let bytes = eight_blocks(alloc)?;
    Memory::new(alloc, bytes, fails, 100_000)
}

/// The first ten bytes of a block.
fn front_of<D: Disk>(blocks: &mut Blocks<D>, block: u64) -> Result<[u8; 10], ViewFault>
    requires { 4096 * block + 4096 ≤ (D.seen blocks.old).size }
    ensures front { IfOk result (λ front. IfSome (live_of (D.seen blocks.old))
        (λ live. front ≡ take 10 (block_of live block))) }
    ensures reads { OnlyReads 1 (D.seen blocks.old) (D.seen blocks.new) }
    ensures cause { OnErr result (Rose (D.seen blocks.old).faults (D.seen blocks.new).faults) }
{
    let mut front = [0; 10];
    front.copy_from_slice(&blocks.fetch(block)?[..10]);
    Ok(front)
}

/// Whether two blocks are equal.
fn are_equal<D: Disk>(blocks: &mut Blocks<D>, a: u64, b: u64) -> Result<bool, ViewFault>
    requires first { 4096 * a + 4096 ≤ (D.seen blocks.old).size }
    requires second { 4096 * b + 4096 ≤ (D.seen blocks.old).size }
    ensures equal { IfOk result (λ equal. IfSome (live_of (D.seen blocks.old))
        (λ live. IsTrue equal ↔ (block_of live a ≡ block_of live b))) }
    ensures reads { OnlyReads 2 (D.seen blocks.old) (D.seen blocks.new) }
    ensures cause { OnErr result (Rose (D.seen blocks.old).faults (D.seen blocks.new).faults) }
{
    let pair = blocks.fetch_two(a, b)?;
    Ok(pair.first == pair.second)
}

/// The two bytes round the place where block 7 begins, which are then 1 and 2, and stable.
fn replaced<D: Disk>(disk: &mut D) -> Result<[u8; 2], DiskFault>
    requires { 28673 ≤ (D.seen disk.old).size }
    ensures { (D.seen disk.new).size ≡ (D.seen disk.old).size }
{
    let mut got = [0; 2];
    disk.read(28_671, &mut got)?;
    disk.write(28_671, &[1, 2])?;
    disk.sync()?;
    Ok(got)
}

#[test]
fn the_blocks_that_were_asked_for_are_lent(rt: HostRuntime) -> Result<(), Fail> {
    let alloc = rt.alloc();
    let mut blocks = Blocks::new(alloc, disk_of(alloc, Vec::new(alloc))?)?;
    assert_eq!(rt; blocks.fetch(6)?, [6; 4096].as_slice());
    let pair = blocks.fetch_two(5, 7)?;
    assert_eq!(rt;
        (pair.first, pair.second),
        ([0; 4096].as_slice(), [7; 4096].as_slice())
    );
    assert_eq!(rt;
        (blocks.len(), blocks.calls(), blocks.faults()),
        (32_768, 3, 0)
    );
    Ok(())
}

#[test]
fn one_block_is_lent_twice_at_once(rt: HostRuntime) -> Result<(), Fail> {
    let alloc = rt.alloc();
    let mut blocks = Blocks::new(alloc, disk_of(alloc, Vec::new(alloc))?)?;
    let pair = blocks.fetch_two(6, 6)?;
    assert_eq!(rt;
        (pair.first, pair.second),
        ([6; 4096].as_slice(), [6; 4096].as_slice())
    );
    assert!(rt; are_equal(&mut blocks, 6, 6)?);
    assert!(rt; !are_equal(&mut blocks, 6, 7)?);
    Ok(())
}

#[test]
fn a_part_of_a_block_is_copied(rt: HostRuntime) -> Result<(), Fail> {
    let alloc = rt.alloc();
    let mut blocks = Blocks::new(alloc, disk_of(alloc, Vec::new(alloc))?)?;
    assert_eq!(rt; front_of(&mut blocks, 7)?, [7; 10]);
    Ok(())
}

#[test]
fn what_was_put_is_lent(rt: HostRuntime) -> Result<(), Fail> {
    let alloc = rt.alloc();
    let mut blocks = Blocks::new(alloc, disk_of(alloc, Vec::new(alloc))?)?;
    assert_eq!(rt; blocks.fetch(6)?, [6; 4096].as_slice());
    blocks.put(6, &[9; 4096])?;
    assert_eq!(rt; blocks.fetch(6)?, [9; 4096].as_slice());
    let disk = blocks.into_disk();
    assert_eq!(rt; disk.bytes().get(24_575..24_577), Some([0, 9].as_slice()));
    Ok(())
}

#[test]
fn a_fetch_behind_one_that_failed_is_right(rt: HostRuntime) -> Result<(), Fail> {
    let alloc = rt.alloc();
    let fails = vec![in alloc; 1, 4, 6]?;
    let mut blocks = Blocks::new(alloc, disk_of(alloc, fails)?)?;
    assert_eq!(rt; blocks.fetch(7)?, [7; 4096].as_slice());
    assert_eq!(rt; blocks.fetch(6).err(), Some(ViewFault::Disk));
    assert_eq!(rt; blocks.fetch(6)?, [6; 4096].as_slice());
    assert!(rt; blocks.fetch_two(7, 6).is_err());
    assert_eq!(rt; blocks.fetch(6)?, [6; 4096].as_slice());
    assert_eq!(rt; blocks.put(6, &[9; 4096]), Err(ViewFault::Disk));
    assert_eq!(rt; blocks.fetch(6)?, [6; 4096].as_slice());
    assert_eq!(rt; (blocks.calls(), blocks.faults()), (8, 3));
    Ok(())
}

#[test]
fn blocks_are_a_disk(rt: HostRuntime) -> Result<(), Fail> {
    let alloc = rt.alloc();
    let fails = vec![in alloc; 3]?;
    let mut blocks = Blocks::new(alloc, disk_of(alloc, fails)?)?;
    assert_eq!(rt; replaced(&mut blocks)?, [6, 7]);
    assert_eq!(rt; blocks.sync(), Err(DiskFault));
    let pair = blocks.fetch_two(6, 7)?;
    assert_eq!(rt;
        (pair.first.last(), pair.second.first()),
        (Some(&1), Some(&2))
    );
    Ok(())
}
