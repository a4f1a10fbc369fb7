//! One backpointer.

/// One backpointer of a store file: a link that stands for its bytes, and the file that is it.
#[derive(Clone, Copy, Debug, PartialEq, Eq)]
pub struct Back {
    /// The link's index, which no other link of the volume has had.
    pub index: u64,
    /// The id of the file that is the link.
    pub file: u64,
}

/// The length of one backpointer in bytes.
pub(crate) const BACK_LEN: usize = 16;

/// Where its file stands, in bytes from its first one.
pub(crate) const FILE_AT: usize = 8;

const _: () = prove!(FILE_AT + 8 == BACK_LEN);
