//! Lookup, the rules for a new method row, and the check of a method, over any table of classes.
#![tactic(auto)]

pub mod check;
pub mod env;
pub mod labels;
pub mod lookup;
pub mod rules;
pub mod tests;
