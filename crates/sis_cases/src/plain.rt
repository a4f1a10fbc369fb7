//! A value that a journal keeps: bytes that are spelled as they are.
use sis_disk::Layout;
use sis_journal::{Kept, KeptFault};
use std::alloc::{AllocError, Global};
use std::marker::Model;

/// Bytes that are spelled as they are.
#[derive(Drop)]
pub struct Plain {
    pub bytes: Vec<u8>,
}

impl Model for Plain {
    ghost use Rattle.std.specs.Prelude.{ℕ, List};

    ghost Value = { List ℕ };

    ghost view = { λ p. p.bytes.items };
}

impl Kept for Plain {
    ghost use Rattle.std.specs.Prelude.{Ok};
    ghost use Rattle.std.proofs.Common.{rules};

    ghost text = { λ bytes. bytes };

    ghost read = { λ layout bytes. Ok bytes };

    ghost spelled = { Prim.search rules };

    fn encode(&self, out: &mut Vec<u8>) -> Result<(), AllocError> {
        out.reserve(self.bytes.len())?;
        let _ = out.extend_from_slice(&self.bytes);
        Ok(())
    }

    fn encoded_len(&self) -> u64 {
        self.bytes.len() as u64
    }

    fn decode(alloc: Global, bytes: &[u8], _layout: Layout) -> Result<Plain, KeptFault> {
        match bytes.to_vec(alloc) {
            Ok(bytes) => Ok(Plain { bytes }),
            Err(_) => Err(KeptFault::Memory),
        }
    }
}
