//! A disk whose blocks are lent: what is lent are the live bytes, and lending changes none.
#![tactic(auto)]

mod blocks;
mod buffers;
mod calls;
mod fault;
mod piece;
#[cfg(test)]
mod tests;

pub use blocks::Blocks;
pub use fault::{BlocksRefused, ViewFault};
pub use piece::{Pair, Piece};
