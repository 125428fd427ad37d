//! Orders of classes: what an order answers and owes, and two ways to make one.
#![tactic(auto)]

pub mod chosen_order;
pub mod class_order;
pub mod drawn_order;
pub mod label;
pub mod labelled_order;
pub mod order_fault;
#[cfg(test)]
mod tests;
pub mod top_grade;
