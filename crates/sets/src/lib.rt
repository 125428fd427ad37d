//! Sets of numbers below 64, one bit a number.
#![tactic(auto)]

pub mod small_set;
