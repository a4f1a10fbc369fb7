//! A range of a file's bytes.

/// A range of a file's bytes. It may pass the file's end.
#[derive(Clone, Copy, Debug, PartialEq, Eq)]
pub struct ByteRange {
    /// The first byte.
    pub at: u64,
    /// How many bytes.
    pub len: u64,
}
