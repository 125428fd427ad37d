//! A class order written outside the crate that states the trait: a chain, in which each class dominates all smaller ones.
#![tactic(auto)]

pub mod chain_order;
#[cfg(test)]
mod tests;
