//! What a file leaves that was a link.

/// The note of a store file that names a link which is gone.
#[derive(Clone, Copy, Debug, PartialEq, Eq)]
pub struct Stale {
    /// The store file's id.
    pub store: u64,
    /// The index that the link had.
    pub index: u64,
}
