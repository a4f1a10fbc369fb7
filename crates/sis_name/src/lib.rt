//! Names of files as lists of UTF-16 units, and the numbers of the statuses that calls answer.
#![tactic(auto)]

mod fault;
mod laws;
mod name;
mod status;
mod store;
#[cfg(test)]
mod tests;
mod units;

pub use fault::NameFault;
pub use laws::{
    each_guid_has_its_own_name, only_store_names_have_a_guid, store_name_has_its_guid,
    store_name_is_a_name,
};
pub use name::Name;
pub use status::Status;
