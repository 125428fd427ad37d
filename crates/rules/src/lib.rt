//! Local rules: how a class schedules its own jobs (transactions). Everything above is proved from what a rule means, for every rule that keeps the laws.
#![tactic(auto)]

pub mod access;
pub mod bay_claims;
pub mod check;
pub mod chosen_rule;
pub mod claim_policy;
pub mod claim_table;
pub mod local_rule;
pub mod locks;
pub mod rule_fault;
mod rule_words;
pub mod table_rule;
#[cfg(test)]
mod tests;
