//! A refusal that hands the disk back.

/// A refusal that hands the disk back.
#[derive(Drop)]
pub struct Refused<D, F> {
    /// The disk that was handed in.
    pub disk: D,
    /// Why it was refused.
    pub fault: F,
}
