//! Why a backpointer was refused, or some bytes are no backpointers.
use std::alloc::{AllocError, AllocFailed};
use thiserror::Error;

/// Why a backpointer was refused, or some bytes were not read as backpointers.
#[derive(Clone, Copy, Debug, PartialEq, Eq, Error)]
pub enum BackFault {
    /// The link index is in the list already.
    #[error("link index {index} is in the list already")]
    Present {
        /// The refused index.
        index: u64,
    },
    /// The number of bytes is no multiple of 16.
    #[error("the backpointers have {have} bytes, which is no multiple of 16")]
    Length {
        /// How many bytes there are.
        have: u64,
    },
    /// A link index isn't above the one before.
    #[error("the backpointers' byte {at}: an index that isn't above the one before")]
    Order {
        /// The first byte of the first such backpointer, counted from 0.
        at: u64,
    },
    /// There was no memory.
    #[error("out of memory")]
    Memory,
}

impl From<AllocError> for BackFault {
    ghost use Rattle.std.specs.Prelude.{◌≡◌};
    ghost use Rattle.sis_backpointer.specs.declared.fault.BackFault.TheVariants.{Memory};

    ghost from_gives = { λ _ e. e ≡ Memory };

    fn from(_e: AllocError) -> BackFault {
        BackFault::Memory
    }
}

impl<T: Drop> From<AllocFailed<T>> for BackFault {
    ghost use Rattle.std.specs.Prelude.{◌≡◌};
    ghost use Rattle.sis_backpointer.specs.declared.fault.BackFault.TheVariants.{Memory};

    ghost from_gives = { λ _ e. e ≡ Memory };

    fn from(_e: AllocFailed<T>) -> BackFault {
        BackFault::Memory
    }
}
