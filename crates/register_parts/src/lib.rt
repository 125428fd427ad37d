//! The parts of a register that need no lent memory: bays, clock, item counts, and the faults of calls and set-up.
#![tactic(auto)]

pub mod bay;
mod class_floor;
pub mod class_setup;
pub mod class_state;
pub mod clock;
mod clock_calls;
mod count_items;
pub mod declaration;
mod fault_words;
pub mod item_counts;
pub mod job_fault;
pub mod job_kind;
pub mod late;
mod pending_items;
pub mod setup_fault;
mod setup_numbers;
