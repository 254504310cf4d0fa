//! First and refused jobs, RECEIVE, REJECT, LIST and REPORT, lists of jobs, disks that fail and come back, rows that
//! stand for no state, and the program's words and lines. The crate contains only tests.
#![tactic(auto)]

#[cfg(test)]
mod bad_rows;
#[cfg(test)]
mod checked;
#[cfg(test)]
mod failing;
#[cfg(test)]
mod firsts;
#[cfg(test)]
mod limited;
#[cfg(test)]
mod listings;
#[cfg(test)]
mod lists;
#[cfg(test)]
mod messages;
#[cfg(test)]
mod receives;
#[cfg(test)]
mod words;
#[cfg(test)]
mod writers;
