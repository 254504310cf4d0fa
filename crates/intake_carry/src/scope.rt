//! What decides how SYSMODs are carried.

use crate::copies::OtherCopies;
use intake_sysmod::{Options, Users};

/// What decides how each SYSMOD of the files is carried, besides its own statements.
#[derive(Clone, Copy)]
pub(crate) struct CarryScope<'a> {
    pub options: &'a Options,
    /// Which SYSMODs change an element.
    pub users: &'a Users<'a>,
    /// The copies of SYSMODs that are not carried.
    pub copies: &'a OtherCopies,
}
