//! Neighbouring blocks at neighbouring places.
ghost use Rattle.std.specs.Prelude.{◌≡◌, ◌<◌, nat_le};
ghost use Rattle.sis_ranges.specs.Extents.{block_end, can_join, IsWithin};
ghost use Rattle.sis_ranges.specs.Inside.{from_block};

/// Neighbouring blocks at neighbouring places: `first ..` at `place ..`.
#[derive(Clone, Copy, Debug, PartialEq, Eq)]
pub struct Run {
    /// The first block's index.
    pub first: u64,
    /// How many blocks there are, at least 1.
    pub count: u64,
    /// The place of the first block.
    pub place: u64,
}

impl Run {
    /// Whether the next run goes on where this one ends, in blocks and in places.
    pub(crate) fn joins(&self, next: &Run) -> bool
        ensures { result ≡ can_join self.now next.now }
    {
        self.first <= next.first
            && next.first - self.first == self.count
            && self.place <= next.place
            && next.place - self.place == self.count
    }

    /// Whether each of its blocks is below this one.
    pub(crate) fn ends_by(&self, block: u64) -> bool
        ensures { result ≡ nat_le (block_end self.now) block }
    {
        self.first <= block && self.count <= block - self.first
    }

    /// Its blocks from this one on, at least one.
    pub(crate) fn from_block(&self, block: u64) -> Run
        requires ends { block < block_end self.now }
        requires within { IsWithin self.now }
        ensures { result ≡ from_block block self.now }
    {
        if block <= self.first {
            return *self;
        }
        let skipped = block - self.first;
        Run {
            first: block,
            count: self.count - skipped,
            place: self.place + skipped,
        }
    }
}
