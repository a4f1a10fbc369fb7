//! Why some bytes are no reparse buffer of a SIS link.
use thiserror::Error;

/// Why some bytes were not read as a SIS link's reparse buffer.
#[derive(Clone, Copy, Debug, PartialEq, Eq, Error)]
pub enum PointFault {
    /// The bytes end before the buffer does.
    #[error("the reparse buffer has {have} bytes, and 64 are needed")]
    Short {
        /// How many bytes there are.
        have: u64,
    },
    /// Bytes stand behind the buffer.
    #[error("the reparse buffer has {have} bytes, and 64 are the most")]
    Long {
        /// How many bytes there are.
        have: u64,
    },
    /// The tag is another.
    #[error("the reparse buffer's tag {value:08x} is not 80000007")]
    Tag {
        /// The tag that stands there.
        value: u32,
    },
    /// The length of the data is another.
    #[error("the reparse buffer's data length {value} is not 56")]
    Length {
        /// The length that stands there, in bytes.
        value: u16,
    },
    /// A field that has to be 0 isn't.
    #[error("the reparse buffer's reserved field at byte {at} is not 0")]
    Reserved {
        /// Where the field stands, in bytes from 0.
        at: u64,
    },
    /// The version of the format is another.
    #[error("the reparse buffer's version {value} is not 1")]
    Version {
        /// The version that stands there.
        value: u32,
    },
}
