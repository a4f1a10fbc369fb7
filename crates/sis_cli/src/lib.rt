//! The top calls: the words of the command line, and `run`.
#![tactic(auto)]

mod ending;
mod exit;
mod fault_line;
mod laws;
mod top;
mod usage;
mod words;

pub use exit::{Exit, Outcome};
pub use laws::stopped_image_opens_again;
pub use top::run;
pub use usage::{Plan, UsageFault, UsageKind, Verb};
pub use words::plan;
