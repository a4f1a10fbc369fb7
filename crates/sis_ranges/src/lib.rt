//! A finite map from blocks to places, kept as runs. Callers see the map alone, and
//! `specs/Extents.antt` says for which map runs stand, and which runs a map has.
#![tactic(auto)]

mod cutting;
mod extents;
mod joining;
mod run;
#[cfg(test)]
mod tests;

pub use extents::Extents;
pub use run::Run;
