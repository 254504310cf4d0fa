//! Tests of what makes a shop's files into files that RECEIVE takes. There is no code here but tests.
#![tactic(auto)]

#[cfg(test)]
mod cards;
#[cfg(test)]
mod carry;
#[cfg(test)]
mod commands;
#[cfg(test)]
mod narrow_items;
#[cfg(test)]
mod narrow_lines;
#[cfg(test)]
mod program;
#[cfg(test)]
mod wide;
#[cfg(test)]
mod wide_spelled;
#[cfg(test)]
mod wide_splits;
