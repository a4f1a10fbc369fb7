//! What a journal keeps: a value with one spelling.
ghost use Rattle.std.specs.Prelude.{◌≡◌, ◌+◌, ◌^◌, ◌<◌, ◌≤◌, ℕ, List, ◌++◌, length, slice_index, vec_capacity, IfOk, OnOk, OnErr, IsOk, IfErr, Result, Ok};
ghost use Rattle.sis_disk.specs.Areas.{TextFault};
ghost use Rattle.sis_disk.specs.Layout.{IsLayout, table_cap};
ghost use Rattle.sis_disk.specs.declared.layout.Layout.{Layout as ALayout};
ghost use Rattle.sis_journal.specs.View.{FailsText, IsWithin};

use sis_disk::{Layout, TableKind};
use std::alloc::{AllocError, Global};
use thiserror::Error;

/// Why some bytes were not read as a value.
#[derive(Clone, Copy, Debug, PartialEq, Eq, Error)]
pub enum KeptFault {
    /// They spell none.
    #[error("byte {at}: {kind}")]
    At {
        /// The offset of the first field whose rule fails.
        at: u64,
        /// The rule.
        kind: TableKind,
    },
    /// There was no memory.
    #[error("out of memory")]
    Memory,
}

/// A value with one spelling, which an area of the image keeps.
pub trait Kept: Drop {
    /// Its one spelling.
    ghost text: { Self → List ℕ };

    /// What bytes of an area are read as, or the first fault.
    ghost read: { ALayout → List ℕ → Result Self TextFault };

    /// Adds the spelling. Where there is room, it takes no memory.
    fn encode(&self, out: &mut Vec<u8>) -> Result<(), AllocError>
        ensures ok { OnOk result (out.new.items ≡ out.old.items ++ text self.now) }
        ensures err { OnErr result (out.new.items ≡ out.old.items) }
        ensures capacity { vec_capacity out.old ≤ vec_capacity out.new }
        ensures room { length out.old.items + length (text self.now) ≤ vec_capacity out.old
            → IsOk result };

    /// The length of the spelling.
    fn encoded_len(&self) -> u64
        ensures { result ≡ length (text self.now) };

    /// The value that the bytes spell.
    fn decode(alloc: Global, bytes: &[u8], layout: Layout) -> Result<Self, KeptFault>
        requires layout { IsLayout layout }
        requires fits { length bytes.now ≤ table_cap layout }
        ensures value { IfOk result (λ value. read layout bytes.now ≡ Ok value) }
        ensures fault { IfErr result (λ fault. FailsText fault (read layout bytes.now)) }
        ensures within { IfErr result (IsWithin (length bytes.now)) };

    /// Bytes that are read as a value are its spelling.
    ghost spelled: { (layout : ALayout) (bytes : List ℕ) (value : Self) → IsLayout layout
        → ((i : ℕ) → slice_index bytes i < 256) → read layout bytes ≡ Ok value
        → text value ≡ bytes };
}
