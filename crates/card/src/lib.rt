//! The card and its calls.
#![tactic(auto)]

pub mod card;
mod numbers;
pub mod rows;
mod values;
