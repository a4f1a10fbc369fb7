//! What can be wrong with the units of a name, and which fault is found first.
ghost use Rattle.std.specs.Prelude.{◌≡◌};
ghost use Rattle.sis_name.specs.Name.{name_fault};
ghost use Rattle.sis_name.specs.declared.fault.NameFault.TheVariants.{Memory};

use crate::units::{first_barred, first_unpaired};
use std::alloc::AllocError;
use thiserror::Error;

/// How many units a name may have.
const MAX_UNITS: usize = 255;

/// Why some units are no name, or could not become one.
///
/// An offset `at` counts units from 0.
#[derive(Clone, Copy, Debug, PartialEq, Eq, Error)]
pub enum NameFault {
    /// There is no unit.
    #[error("the name is empty")]
    Empty,
    /// There are more than 255 units.
    #[error("the name has {units} units, and 255 are allowed")]
    TooLong {
        /// How many units there are.
        units: u64,
    },
    /// A control character or a quotation mark.
    #[error("the name's unit {at}: a control character or a quotation mark")]
    Barred {
        /// Where the first such unit stands.
        at: u64,
    },
    /// Half of a surrogate pair without its other half.
    #[error("the name's unit {at}: a surrogate without its partner")]
    Surrogate {
        /// Where the first such unit stands.
        at: u64,
    },
    /// There was no memory.
    #[error("out of memory")]
    Memory,
}

impl From<AllocError> for NameFault {
    ghost from_gives = { λ _ fault. fault ≡ Memory };

    fn from(_: AllocError) -> NameFault {
        NameFault::Memory
    }
}

/// The first fault of some units as a name. Takes no memory.
pub(crate) fn first_fault(units: &[u16]) -> Option<NameFault>
    ensures { result ≡ name_fault units.now }
{
    if units.is_empty() {
        return Some(NameFault::Empty);
    }
    if units.len() > MAX_UNITS {
        return Some(NameFault::TooLong {
            units: units.len() as u64,
        });
    }
    if let Some(at) = first_barred(units) {
        return Some(NameFault::Barred { at: at as u64 });
    }
    if let Some(at) = first_unpaired(units) {
        return Some(NameFault::Surrogate { at: at as u64 });
    }
    None
}
