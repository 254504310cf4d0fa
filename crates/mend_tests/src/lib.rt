//! Tests of the smallest repair, over global zones that were received from files. There is no code here but tests.
#![tactic(auto)]

#[cfg(test)]
mod repairs;
