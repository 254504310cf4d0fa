//! The files of a job.

use std::marker::Model;

/// The files that RECEIVE reads: PTFIN and the hold file.
#[derive(Drop)]
pub struct Files<'a> {
    pub ptfin: &'a [u8],
    pub holds: &'a [u8],
}

impl<'a> Model for Files<'a> {
    ghost use Rattle.machine.specs.Machine as machine;

    ghost Value = { machine.Files };

    ghost view = { λ a. record { ptfin = a.ptfin.now; holds = a.holds.now } };
}
