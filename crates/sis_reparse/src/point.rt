//! What a SIS link's reparse buffer says.

/// What a SIS link's reparse buffer says: which link it is, and which store file it names.
///
/// Source: the reparse data buffer of [MS-FSCC]. What stands behind its first eight bytes is this
/// project's own.
#[derive(Clone, Copy, Debug, PartialEq, Eq)]
pub struct SisPoint {
    /// The store file's GUID, in the order of bytes in which `Guids` gives it.
    pub guid: [u8; 16],
    /// The link's index.
    pub index: u64,
    /// The id of the link's file.
    pub file: u64,
    /// The id of the store file.
    pub store: u64,
    /// The signature of the store file's bytes.
    pub signature: [u8; 8],
}
