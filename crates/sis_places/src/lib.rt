//! Which places the current table maps, and which the committed one. Callers see two lists of
//! `Bool`, and `specs/Places.antt` says when a place is spare.
#![tactic(auto)]

mod places;
mod stretch;
#[cfg(test)]
mod tests;
mod words;

pub use places::Places;
pub use stretch::Stretch;
