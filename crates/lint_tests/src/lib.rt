//! Tests of what `smpe lint` answers about the files of a service stream. There is no code here but tests.
#![tactic(auto)]

#[cfg(test)]
mod answers;
