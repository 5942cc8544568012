//! Tests of lists of calls, over both class tables.
#![tactic(auto)]

#[cfg(test)]
mod tests;
