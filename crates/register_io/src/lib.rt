//! The register at standard input and output: lines come in, replies go out.
#![tactic(auto)]

pub mod input;
pub mod memory;
pub mod replies;

pub use crate::input::{LIMIT, read_input, read_within};
pub use crate::memory::{CELLS, PENDING, RULES};
pub use crate::replies::run;
