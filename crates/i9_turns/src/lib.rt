//! Laws of turns, of results that land late, and of needs.
#![tactic(auto)]

mod late_laws;
mod need_laws;
mod turn_laws;

pub use late_laws::{
    landing_settles, requests_wait_in_order, shown_records_stay_shown, turns_keep_order,
    what_is_due_lands,
};
pub use need_laws::{actions_keep_to_their_needs, needs_have_costs, others_write_no_memory};
pub use turn_laws::{
    barriers_decide_no_overtaking, barriers_forget, barriers_issue_alike, fences_wait,
    open_records_decide, three_issue_in_a_turn, turns_are_least, turns_exist,
};
