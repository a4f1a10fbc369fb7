//! How large the numbers of a volume may get.

/// The greatest id, index and version.
pub const GREATEST_NUMBER: u64 = 9_223_372_036_854_775_807;

/// The most files of a volume, those of the common store included.
pub const MOST_FILES: u64 = 65_536;
/// The greatest size of a file, in bytes.
pub const GREATEST_SIZE: u64 = 68_719_476_736;
