//! GUIDs that count up, for tests.
ghost use Rattle.std.specs.Prelude.{◌≡◌, ◌+◌, ◌%◌, ◌^◌};
ghost use Rattle.sis_disk.specs.Guid.{guid_of};

use crate::Guids;
use byteorder::{BigEndian, ByteOrder};
use std::marker::Model;

/// Gives a number as eight zero bytes and the number in big-endian order, then the next number.
#[derive(Drop)]
pub struct CounterGuids {
    next: u64,
}

impl Model for CounterGuids {
    ghost use Rattle.std.specs.Prelude.{ℕ};

    ghost Value = { ℕ };

    ghost view = { λ a. a.next };
}

impl CounterGuids {
    /// A supply whose first GUID has this number.
    pub fn new(next: u64) -> CounterGuids
        ensures { result ≡ next }
    {
        CounterGuids { next }
    }
}

impl Guids for CounterGuids {
    fn next(&mut self) -> [u8; 16]
        ensures value { result ≡ guid_of self.old }
        ensures after { self.new ≡ (self.old + 1) % 2 ^ 64 }
    {
        let mut guid = [0; 16];
        BigEndian::write_u64(&mut guid[8..], self.next);
        self.next = self.next.wrapping_add(1);
        guid
    }
}
