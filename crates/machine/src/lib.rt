//! The abstract machine: states, steps, reports and how runs end, as definitions that contracts cite. It has no code.
//! `Machine` says what jobs and their commands do to a state, `Outcome` and `Report` what they print, and `Runs` how
//! they end.
#![tactic(auto)]
