//! Lines: the frames that stations send, the session that answers them, and the register that it keeps.
#![tactic(auto)]

mod answering;
pub mod fault_numbers;
mod fault_words;
mod job_lines;
mod kind_words;
pub mod kinds;
pub mod line_fault;
mod new_session;
mod next_line;
mod opening;
pub mod operation;
mod operations;
mod plan;
mod plan_order;
mod planned_order;
mod planning;
mod replies;
pub mod served;
mod serving;
pub mod session;
mod set_up_frames;
mod stage;
pub mod supplied;
pub mod told_faults;
