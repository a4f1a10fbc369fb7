//! Histories of a run, and in `specs/` what a stop of the disk may leave of them. The functions say
//! how that goes on while the disk is called and entries are added.
#![tactic(auto)]

mod answers;
mod cases;
mod cuts;
mod durable;
mod laws;
mod loops;
mod row_cases;
mod runs;

pub use answers::{
    client_is_answered_once, faults_are_answered, hindrance_is_answered,
    late_answer_changes_nothing_else, nothing_is_hindered_by_no_need, refusal_is_answered,
};
pub use cases::{cases_of_cuts, cases_of_durable_entries, cases_of_numbers};
pub use cuts::{cut_has_each_sure_entry, cut_has_only_decided_entries};
pub use durable::durable_entries;
pub use laws::{
    calls_go_by, durable_entry_is_added, entry_is_added, every_stop_is_survived, history_begins,
    order_goes_on,
};
pub use loops::{
    committed_files_go_on, images_are_safe, images_of_committed_files_are_safe,
    last_image_has_all_entries,
};
pub use row_cases::{
    case_of_a_close, case_of_a_disk_fault, case_of_a_failed_commit, case_of_a_needless_sync,
    case_of_a_put, case_of_a_rename, case_of_a_second_command, case_of_a_write, case_of_an_end,
    case_of_an_unserved_command, case_of_client_17, case_of_hindrances,
};
pub use runs::{
    clients_are_in_range, disk_is_left_alone, down_is_told, each_command_is_decided_once,
    each_fault_is_told_once, entries_go_on, failed_commit_stays, row_keeps_shown_files,
    row_survives_stops, rows_leave_the_world, run_goes_on, run_is_extended, run_is_in_order,
    run_is_legal, step_is_a_run,
};
