//! Laws on a clean stream of service. Each is the contract of a function that does nothing, and there is no other code
//! here.
//!
//! A stream is clean if three rules hold of its SYSMODs (`terms/specs/Stream`). In a zone of a clean stream all that a
//! supplied SYSMOD is over is supplied (`Below`). So no candidate regresses an element of its owner, and no two
//! candidates clash by one (`NoRegression`). APPLY and ACCEPT leave the zone of the stream (`StaysOfStream`) and lose
//! no fix (`AllFixes`, `Installed`). If no SYSMOD has two `++VER`s for one SREL (`OneVer`), RECEIVE (`Received`),
//! REJECT (`Rejected`) and RESTORE (`Restored`) do so too, and so do all commands and definitions of zones, one after
//! the other, from the state without zones on (`Served`).
#![tactic(auto)]

mod laws;

pub use laws::{
    install_loses_no_fix, install_stays_of_stream, never_clashes_by_element, never_regresses,
    served_zones_pass, service_serves_all,
};
