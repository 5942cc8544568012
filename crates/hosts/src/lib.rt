//! Hosts: what answers the questions of native methods.
#![tactic(auto)]

pub mod cells;
pub mod host;
pub mod laws;
pub mod numbers;
pub mod script;
pub mod switch;
