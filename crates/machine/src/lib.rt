//! The machine: frames, one step of a run, and a go of some steps, over any table of classes and any host.
#![tactic(auto)]

pub mod frame;
pub mod operations;
pub mod run;
pub mod store;
