//! Reads the text of a method, and tells whether the method is well formed.
#![tactic(auto)]

pub mod form;
mod item;
mod label;
mod list;
mod number;
mod operation;
mod part;
pub mod read;
mod reader;
