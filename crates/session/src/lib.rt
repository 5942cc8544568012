//! Lists of calls on one card and one host, with what is promised of them.
#![tactic(auto)]

pub mod call;
pub mod perform;
