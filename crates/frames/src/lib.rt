//! The text of the line protocol: how input is cut into lines, which bytes a line of digits stands for, and how bytes are written as a line.
#![tactic(auto)]

pub mod decode;
mod digits;
pub mod first_line;
pub mod frame;
#[cfg(test)]
mod tests;
pub mod write_line;
