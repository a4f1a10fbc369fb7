//! Bytes that are lent.

/// A part of a file's bytes.
#[derive(Clone, Copy, Debug)]
pub enum Piece<'a> {
    /// These bytes.
    Bytes(&'a [u8]),
    /// So many zeros, which stand nowhere.
    Zeros(u64),
}

/// Two blocks, which may be the same one.
#[derive(Clone, Copy, Debug)]
pub struct Pair<'a> {
    /// The block that was asked for first.
    pub first: &'a [u8],
    /// The other one.
    pub second: &'a [u8],
}
