//! Filling: the least rows of a method's labels, found by sweeps over its points.
#![tactic(auto)]

pub mod fill;
mod labels;
mod rows;
pub mod sweep;
