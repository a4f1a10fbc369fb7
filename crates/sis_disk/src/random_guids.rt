//! GUIDs from a source of random bytes.
ghost use Rattle.std.specs.Prelude.{◌≡◌, ◌⊎◌, ◌/◌, replicate, slice_index};

use crate::Guids;
use std::marker::Model;
use std::random::RandomSource;
use uuid::Uuid;

/// Gives random GUIDs of version 4, whose first three fields stand in little-endian order.
///
/// Where the source fails it gives its last GUID again, and at first sixteen zero bytes.
#[derive(Drop)]
pub struct RandomGuids<S: RandomSource + Drop> {
    source: S,
    last: [u8; 16],
}

impl<S: RandomSource + Drop> Model for RandomGuids<S> {
    ghost use Rattle.std.specs.Prelude.{ℕ, List};

    ghost Value = { List ℕ };

    ghost view = { λ a. a.last };
}

impl<S: RandomSource + Drop> RandomGuids<S> {
    /// A supply over this source.
    pub fn new(source: S) -> RandomGuids<S>
        ensures { result ≡ replicate 16 0 }
    {
        RandomGuids {
            source,
            last: [0; 16],
        }
    }
}

impl<S: RandomSource + Drop> Guids for RandomGuids<S> {
    fn next(&mut self) -> [u8; 16]
        ensures last { self.new ≡ result }
        ensures version { (slice_index result 7 / 16 ≡ 4) ⊎ (result ≡ self.old) }
    {
        if let Ok(uuid) = Uuid::try_new_v4(&self.source) {
            self.last = uuid.to_bytes_le();
        }
        self.last
    }
}
