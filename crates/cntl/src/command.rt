//! The values of the commands: what each one asks for.
use fields::{Bypass, IdList, ReceiveOperands, RestoreList, Selection, ZoneName};
use std::marker::Model;

/// The operands of APPLY or ACCEPT.
#[derive(Drop)]
pub struct Install {
    pub selection: Selection,
    pub bypass: Bypass,
    pub check: bool,
}

impl Model for Install {
    ghost use Rattle.terms.specs.Types as terms;

    ghost Value = { terms.Install };

    ghost view = { λ a. record { selection = a.selection; bypass = a.bypass; check = a.check } };
}

/// A command.
#[derive(Drop)]
pub enum Command {
    Set(ZoneName),
    Receive(ReceiveOperands),
    Reject(IdList),
    Apply(Install),
    Accept(Install),
    Restore { list: RestoreList, check: bool },
    /// With TEXT, LIST prints the texts of elements too.
    List { text: bool },
    /// REPORT ERRSYSMODS.
    Report,
}
