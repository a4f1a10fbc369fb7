//! Neighbouring places.

/// Neighbouring places: `start ..`.
#[derive(Clone, Copy, Debug, PartialEq, Eq)]
pub struct Stretch {
    /// The first place.
    pub start: usize,
    /// How many there are.
    pub count: usize,
}
