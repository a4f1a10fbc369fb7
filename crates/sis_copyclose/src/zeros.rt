//! Zeros behind bytes.
ghost use Rattle.std.specs.Prelude.{◌≡◌, ◌++◌, replicate, OnErr, OnOk};

use std::alloc::AllocError;

/// Adds so many zeros.
pub(crate) fn add_zeros(out: &mut Vec<u8>, count: usize) -> Result<(), AllocError>
    ensures ok { OnOk result (out.new.items ≡ out.old.items ++ replicate count 0) }
    ensures err { OnErr result (out.new.items ≡ out.old.items) }
{
    match out.len().checked_add(count) {
        Some(len) => out.resize(len, 0),
        None => Err(AllocError),
    }
}
