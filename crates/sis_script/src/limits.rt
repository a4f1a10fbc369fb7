//! How much a script may hold.

/// The greatest length of a script, in bytes.
pub const MOST_SCRIPT_BYTES: usize = 16_777_216;

/// The greatest number of its lines. Skipped lines count too.
pub const MOST_LINES: u64 = 4096;

/// The greatest client. The least one is 1.
pub const LAST_CLIENT: u64 = 16;
