//! A local rule written against the trait alone: an item that a bay has claimed is that bay's until it settles or is forgotten.
#![tactic(auto)]

pub mod exclusive;
pub mod hold;
