//! A source over a reader of std. It tells nothing of the bytes that come.
ghost use Rattle.std.specs.Prelude.{◌≡◌, ◌≤◌, length, None, IfSome};

use crate::{Source, SourceFault};
use std::io::{ErrorKind, Read};

/// A source over a reader.
#[derive(Drop)]
pub struct StdSource<R: Read + Drop> {
    reader: R,
    faults: u64,
}

impl<R: Read + Drop> StdSource<R> {
    /// A source that has not failed yet.
    pub fn new(reader: R) -> StdSource<R>
        ensures { result.faults ≡ 0 }
    {
        StdSource { reader, faults: 0 }
    }
}

// Reads again where a signal interrupted the call.
fn read_some<R: Read>(reader: &mut R, into: &mut [u8]) -> Option<usize>
    ensures { IfSome result (λ n. n ≤ length into.old) }
{
    for _ in 0..u64::MAX {
        match reader.read(into) {
            Ok(count) => return Some(count),
            Err(error) if error.kind() == ErrorKind::Interrupted => {}
            Err(_) => return None,
        }
    }
    None
}

impl<R: Read + Drop> Source for StdSource<R> {
    ghost left = { λ _. None };

    ghost faults = { λ s. s.faults };

    fn read(&mut self, into: &mut [u8]) -> Result<usize, SourceFault> {
        match read_some(&mut self.reader, into) {
            Some(count) => Ok(count),
            None => {
                self.faults = self.faults.saturating_add(1);
                Err(SourceFault)
            }
        }
    }
}
