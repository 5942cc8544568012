//! Tables of texts: read, vetted and written back, and filled; and their refusals.
#![tactic(auto)]

#[cfg(test)]
mod case;
#[cfg(test)]
mod fills;
#[cfg(test)]
mod tests;
