//! What edits do to the places of the image.

/// Neighbouring places that are mapped, or that aren't any longer.
#[derive(Clone, Copy, Debug, PartialEq, Eq)]
pub struct PlaceUse {
    /// The first place.
    pub place: u64,
    /// How many places there are, at least 1.
    pub count: u64,
    /// They are mapped from now on, and else free.
    pub is_taken: bool,
}
