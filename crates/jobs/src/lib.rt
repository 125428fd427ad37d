//! The register: its calls over memory that the caller lends, proved against the definition and its laws.
#![tactic(auto)]

mod bay_access;
mod bay_id;
mod begin;
mod calls;
mod cell_values;
mod commit;
mod door;
mod end_job;
mod fill;
mod fill_memory;
mod first_cell;
mod floor;
mod give_up;
pub mod memory;
mod pending_items;
mod pending_memory;
mod pending_value;
mod read;
pub mod register;
mod rule_access;
mod set_up;
mod store_pending;
mod sweep;
mod tick;
mod write;

pub use register_parts::{
    bay, class_setup, class_state, clock, declaration, item_counts, job_fault, setup_fault,
};
