//! The shared types of the card, with their meaning in specs/.
#![tactic(auto)]

pub mod array_vec;
pub mod body;
pub mod call;
pub mod check_laws;
pub mod demand;
pub mod ending;
pub mod entry;
pub mod fill_laws;
pub mod laws;
pub mod method;
pub mod misfit;
pub mod operation;
pub mod refusal;
pub mod told;
pub mod tree_laws;
pub mod value;
pub mod worked;
