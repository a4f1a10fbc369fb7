//! Reads backpointers from left to right.
ghost use Rattle.std.specs.Prelude.{◌≡◌, ◌≤◌, length, IfOk};
ghost use Rattle.sis_reading.specs.Steps.{Gives};
ghost use Rattle.sis_backpointer.specs.Backs.{IsRising, back_at, backs_at, named};

use crate::back::{BACK_LEN, FILE_AT};
use crate::searching::is_above;
use crate::{Back, BackFault};
use byteorder::{ByteOrder, LittleEndian};
use std::alloc::Global;

/// The backpointer that the bytes begin with.
fn back_at(bytes: &[u8]) -> Back
    requires { 16 ≤ length bytes.now }
    ensures { result ≡ back_at bytes.now }
{
    Back {
        index: LittleEndian::read_u64(bytes),
        file: LittleEndian::read_u64(&bytes[FILE_AT..]),
    }
}

/// The backpointers that the bytes spell, all of the bytes.
#[tactic(auto, unfolding(crate::specs::Backs::backs_at))]
pub fn list_at(alloc: Global, bytes: &[u8]) -> Result<Vec<Back>, BackFault>
    ensures value { Gives named (λ backs. backs.items) result (backs_at bytes.now) }
    ensures rising { IfOk result (λ backs. IsRising backs.items) }
{
    if bytes.len() % BACK_LEN != 0 {
        return Err(BackFault::Length {
            have: bytes.len() as u64,
        });
    }
    let mut backs = Vec::with_capacity(alloc, bytes.len() / BACK_LEN)?;
    let mut rest = bytes;
    while !rest.is_empty() {
        let back = back_at(rest);
        if !is_above(&backs, back.index) {
            return Err(BackFault::Order {
                at: (bytes.len() - rest.len()) as u64,
            });
        }
        backs.push(back)?;
        rest = &rest[BACK_LEN..];
    }
    Ok(backs)
}
