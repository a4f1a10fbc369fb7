//! Words for readers. A reader is a function on lists that gives a value or the first fault, and the
//! code's contract says that it gives the same; beside these words stands the one form of numbers.
#![tactic(auto)]

mod number;
#[cfg(test)]
mod tests;
mod text;

pub use number::{is_plain_number, plain_number};
pub use text::text_of;
