//! Jobs of APPLY, ACCEPT and RESTORE, line by line; hostile files, and long chains of SYSMODs. The crate contains only
//! tests.
#![tactic(auto)]

#[cfg(test)]
mod accepted;
#[cfg(test)]
mod chains;
#[cfg(test)]
mod elements;
#[cfg(test)]
mod functions;
#[cfg(test)]
mod generated;
#[cfg(test)]
mod holds;
#[cfg(test)]
mod hostile;
#[cfg(test)]
mod limits;
#[cfg(test)]
mod requisites;
#[cfg(test)]
mod restored;
#[cfg(test)]
mod selection;
#[cfg(test)]
mod several;
