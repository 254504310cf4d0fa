//! The package: what a shop's files come to, as a check of these files asks about it. `carry_package` makes items of
//! what the files state, so that no hold is lost; `package_ids` are the ids of its SYSMODs; `free_source` finds a
//! source by which a command can choose just the SYSMODs of the package; `with_source` gives it to them; and
//! `package_records` makes the records that RECEIVE reads. Nothing here knows a host or a database. Every call that
//! allocates fails with `AllocError`, or a fault that says so, if memory runs out.
#![tactic(auto)]

mod carried;
mod fault;
mod records;
mod remarks;
mod source;

pub use carried::{Package, carry_package, has_sysmod, package_ids};
pub use fault::PackageFault;
pub use intake_service::GivenFile;
pub use records::{PackageRecords, package_records};
pub use source::{free_source, package_command, with_source};
