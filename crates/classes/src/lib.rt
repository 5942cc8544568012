//! Tables of classes: what fits what, and where two classes join.
#![tactic(auto)]

pub mod climbing;
pub mod common;
pub mod masks;
pub mod rows;
pub mod table;
