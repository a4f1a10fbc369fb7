//! The backpointers of a store file: which links stand for its bytes, by rising indexes. `specs/`
//! says what is added and taken out, and how they are spelled and read.
#![tactic(auto)]

mod back;
mod backpointers;
mod fault;
pub mod laws;
mod reading;
mod searching;
#[cfg(test)]
mod tests;
mod writing;

pub use back::Back;
pub use backpointers::Backpointers;
pub use fault::BackFault;
