//! A package that is ready to be asked about.
use fields::IdList;
use smpe_answer::Digest;
use smpe_rehearsal::{Prepared, System};

/// The system, the jobs that rehearse the package in it, and what is known of the package.
#[derive(Drop)]
pub(crate) struct Settled<'a> {
    pub(crate) system: System,
    pub(crate) prepared: Prepared,
    /// The ids of its SYSMODs.
    pub(crate) ids: IdList,
    /// Those of which it is not sure that they can be installed.
    pub(crate) unsure: IdList,
    pub(crate) remarks: Vec<u8>,
    /// The status that the remarks bring.
    pub(crate) status: u8,
    /// How many holds were read beside its SYSMODs.
    pub(crate) holds_read: usize,
    /// The files from which the package and the system come.
    pub(crate) inputs: Vec<Digest<'a>>,
}
