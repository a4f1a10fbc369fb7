//! Room for two blocks, which is there before the first one is read.
ghost use Rattle.std.specs.Prelude.{◌≡◌, length, IfOk};

use crate::Pair;
use sis_disk::BLOCK_LEN;
use std::alloc::{AllocError, Global};

/// Room for two blocks.
#[derive(Drop)]
pub struct Buffers {
    pub first: Vec<u8>,
    pub second: Vec<u8>,
    ghost first_len: { length first.items ≡ 4096 },
    ghost second_len: { length second.items ≡ 4096 },
}

impl Buffers {
    /// Takes the room.
    pub fn new(alloc: Global) -> Result<Buffers, AllocError> {
        Ok(Buffers {
            first: buffer(alloc)?,
            second: buffer(alloc)?,
        })
    }

    /// Lends both.
    pub fn pair(&self) -> Pair<'_>
        ensures first { result.first.now ≡ self.now.first.items }
        ensures second { result.second.now ≡ self.now.second.items }
        ensures first_len { length result.first.now ≡ 4096 }
        ensures second_len { length result.second.now ≡ 4096 }
    {
        Pair {
            first: &self.first,
            second: &self.second,
        }
    }
}

/// Room for one block.
fn buffer(alloc: Global) -> Result<Vec<u8>, AllocError>
    ensures { IfOk result (λ bytes. length bytes.items ≡ 4096) }
{
    vec![in alloc; 0; BLOCK_LEN as usize]
}
