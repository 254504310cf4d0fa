//! Tests of how a list of a zone is read. There is no code here but tests.
#![tactic(auto)]

#[cfg(test)]
mod lists;
