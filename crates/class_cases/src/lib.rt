//! Tests of the class tables: both are driven through the same additions and compared.
#![tactic(auto)]

#[cfg(test)]
mod tests;
