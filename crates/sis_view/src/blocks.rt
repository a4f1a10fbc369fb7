//! Blocks of a disk, lent from two buffers.
ghost use Rattle.std.specs.Prelude.{◌≡◌, ◌+◌, ◌*◌, ◌≤◌, length, IfErr, IfOk, IfSome, OnOk};
ghost use Rattle.std.specs.Option.{option_map};
ghost use Rattle.sis_disk.specs.Record.{Went, Writes, laid, live_of};
ghost use Rattle.sis_view.specs.Reading.{Fetched, block_of};

use crate::buffers::Buffers;
use crate::calls::{read_block, read_two, write_block};
use crate::{BlocksRefused, Pair, ViewFault};
use sis_disk::{Disk, DiskFault};
use std::alloc::Global;
use std::marker::Model;

/// A disk whose blocks are lent.
///
/// It is that disk: what is called on it is called on the disk. Its two buffers are made by `new`,
/// and no call takes memory after that.
#[derive(Drop)]
pub struct Blocks<D: Disk> {
    disk: D,
    buffers: Buffers,
}

impl<D: Disk> Model for Blocks<D> {
    ghost Value = { D };

    ghost view = { λ b. b.disk };
}

impl<D: Disk> Blocks<D> {
    ghost use Rattle.std.specs.Borrow.{sem};
    ghost use Rattle.std.specs.Io.BufRead.{Rests};
    ghost use Rattle.sis_view.specs.contracts.blocks.Blocks.{the_row};

    /// The blocks of this disk.
    pub fn new(alloc: Global, disk: D) -> Result<Blocks<D>, BlocksRefused<D>>
        ensures ok { IfOk result (λ blocks. blocks ≡ disk) }
        ensures err { IfErr result (λ refused. refused.disk ≡ disk) }
    {
        match Buffers::new(alloc) {
            Ok(buffers) => Ok(Blocks { disk, buffers }),
            Err(_) => Err(BlocksRefused { disk }),
        }
    }

    /// The disk.
    pub fn into_disk(self) -> D
        ensures { result ≡ self }
    {
        self.disk
    }

    /// Lends the live bytes of one block.
    pub fn fetch(&mut self, block: u64) -> Result<&[u8], ViewFault>
        requires { 4096 * block + 4096 ≤ (D.seen self.old).size }
        ensures live { IfOk result (λ bytes. IfSome (live_of (D.seen self.old))
            (λ live. bytes.now ≡ block_of live block)) }
        ensures len { IfOk result (λ bytes. length bytes.now ≡ 4096) }

        // What it leaves, once the bytes are no longer lent.
        ensures* after { sem 𝓛 (Rests (the_row D.row D.Disk) self.entry
            (λ now. Fetched 1 result (D.seen self.old) (D.seen now))) }
    {
        read_block(&mut self.disk, block, &mut self.buffers.first)?;
        Ok(&self.buffers.first)
    }

    /// Lends the live bytes of two blocks at once.
    pub fn fetch_two(&mut self, a: u64, b: u64) -> Result<Pair<'_>, ViewFault>
        requires first { 4096 * a + 4096 ≤ (D.seen self.old).size }
        requires second { 4096 * b + 4096 ≤ (D.seen self.old).size }
        ensures first { IfOk result (λ pair. IfSome (live_of (D.seen self.old))
            (λ live. pair.first.now ≡ block_of live a)) }
        ensures second { IfOk result (λ pair. IfSome (live_of (D.seen self.old))
            (λ live. pair.second.now ≡ block_of live b)) }
        ensures first_len { IfOk result (λ pair. length pair.first.now ≡ 4096) }
        ensures second_len { IfOk result (λ pair. length pair.second.now ≡ 4096) }

        // What it leaves, once the bytes are no longer lent.
        ensures* after { sem 𝓛 (Rests (the_row D.row D.Disk) self.entry
            (λ now. Fetched 2 result (D.seen self.old) (D.seen now))) }
    {
        read_two(&mut self.disk, a, b, &mut self.buffers)?;
        Ok(self.buffers.pair())
    }

    /// Writes one block.
    pub fn put(&mut self, block: u64, bytes: &[u8]) -> Result<(), ViewFault>
        requires block { 4096 * block + 4096 ≤ (D.seen self.old).size }
        requires bytes { length bytes.now ≡ 4096 }
        ensures call { Went (Writes (4096 * block) bytes.now) result
            (D.seen self.old) (D.seen self.new) }
        ensures live { OnOk result (live_of (D.seen self.new)
            ≡ option_map (λ live. laid live (4096 * block) bytes.now) (live_of (D.seen self.old))) }
        ensures calls { (D.seen self.new).calls ≤ (D.seen self.old).calls + 1 }
    {
        write_block(&mut self.disk, block, bytes)
    }
}

impl<D: Disk> Disk for Blocks<D> {
    ghost seen = { λ d. D.seen d };

    ghost counted = { λ d. D.counted d };

    ghost sized = { λ d. D.sized d };

    fn len(&self) -> u64 {
        self.disk.len()
    }

    fn calls(&self) -> u64 {
        self.disk.calls()
    }

    fn faults(&self) -> u64 {
        self.disk.faults()
    }

    fn read(&mut self, at: u64, into: &mut [u8]) -> Result<(), DiskFault> {
        self.disk.read(at, into)
    }

    fn write(&mut self, at: u64, bytes: &[u8]) -> Result<(), DiskFault> {
        self.disk.write(at, bytes)
    }

    fn sync(&mut self) -> Result<(), DiskFault> {
        self.disk.sync()
    }
}
