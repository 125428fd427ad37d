//! The register: jobs in partially ordered classes, its definition and its laws.
#![tactic(auto)]

pub mod theorems;
