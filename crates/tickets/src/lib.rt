//! Tickets: the right to a running job as a value that has to be handed in, over the calls of the register.
#![tactic(auto)]

mod calls;
pub mod job_kind;
pub mod theorems;
pub mod ticket;
