//! Where the fields of a reparse buffer stand, in bytes from 0, and what some of them have to be.

/// How many bytes a SIS link's reparse buffer has.
pub const POINT_LEN: usize = 64;

pub(crate) const TAG_AT: usize = 0;

pub(crate) const DATA_LEN_AT: usize = 4;

pub(crate) const RESERVED_AT: usize = 6;

pub(crate) const VERSION_AT: usize = 8;

pub(crate) const ZERO_AT: usize = 12;

pub(crate) const GUID_AT: usize = 16;

pub(crate) const INDEX_AT: usize = 32;

pub(crate) const FILE_AT: usize = 40;

pub(crate) const STORE_AT: usize = 48;

pub(crate) const SIGNATURE_AT: usize = 56;

/// What kind of reparse buffer it is: IO_REPARSE_TAG_SIS.
pub(crate) const TAG: u32 = 0x8000_0007;
/// The bytes behind the tag, this length and the reserved field.
pub(crate) const DATA_LEN: u16 = 56;
/// The version of the fields behind these.
pub(crate) const VERSION: u32 = 1;
