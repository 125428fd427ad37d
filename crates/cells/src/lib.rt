//! Kinds of value, and the version store: cells that keep the last versions of an item.
#![tactic(auto)]

pub mod cell;
pub mod cell_versions;
pub mod faults;
pub mod older;
pub mod slip;
mod slip_words;
#[cfg(test)]
mod tests;
pub mod value;
pub mod version;
pub mod version_store;
pub mod word;
