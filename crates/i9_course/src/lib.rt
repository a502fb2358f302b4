//! Runs whose results land late: what each record needs, at which turn it issues, and when it lands.
#![tactic(auto)]

mod laws;
mod machine_laws;
mod pipelined_laws;

pub use laws::{
    a_course_begins, a_course_settles, a_fence_is_set, a_record_issues, a_turn_moves,
    agreeing_states_need_alike, alike_states_need_alike, barriers_wait_for_all,
    courses_are_orderly, events_wait_for_their_turn, nothing_issues_earlier,
    overtaken_faults_are_imprecise, what_waits_settles, written_frames_are_counted,
};
pub use machine_laws::{
    a_check_waits_for_all, memory_acts_at_once, needs_cover_actions, needs_take_turns,
    needs_tell_what_acts, nothing_issues_later, requests_land_in_order,
    turns_are_those_of_the_board, what_is_done_has_landed,
};
pub use pipelined_laws::{
    a_length_cuts_the_pipelined_run, every_pipelined_run_ends, lateness_does_not_depend_on_sets,
    lateness_does_not_depend_on_the_plan, one_pipelined_run, pipelined_runs_are_runs,
};
