//! Where new GUIDs come from.

/// A supply of GUIDs.
///
/// Nothing is promised of the values, not even that they differ: whoever needs one that is free
/// looks for the next that is.
pub trait Guids: Drop {
    /// The next GUID, as its sixteen bytes stand in the formats.
    fn next(&mut self) -> [u8; 16];
}
