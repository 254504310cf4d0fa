//! What earlier commands of a job receive.

use intake_asked::WideCommand;

/// What the commands before a command receive.
#[derive(Clone, Copy, Debug)]
pub(crate) struct Received {
    /// They receive SYSMODs.
    pub(crate) sysmods: bool,
    /// They give SYSMODs a source id.
    pub(crate) source: bool,
}

impl Received {
    /// What is received before the first command.
    pub(crate) const NOTHING: Received = Received {
        sysmods: false,
        source: false,
    };

    /// What is received after this command.
    pub(crate) fn after(self, wide: &WideCommand) -> Received {
        if wide.head.name.as_slice() != b"RECEIVE".as_slice() || !receives_sysmods(wide) {
            return self;
        }
        Received {
            sysmods: true,
            source: self.source || has_operand(wide, b"SOURCEID"),
        }
    }
}

// Whether a RECEIVE takes SYSMODs: it has SYSMODS, or lacks HOLDDATA.
fn receives_sysmods(wide: &WideCommand) -> bool {
    has_operand(wide, b"SYSMODS") || has_operand(wide, b"SYSMOD") || !has_operand(wide, b"HOLDDATA")
}

// Whether the command has an operand of this name.
fn has_operand(wide: &WideCommand, name: &[u8]) -> bool {
    wide.operands
        .iter()
        .any(|operand| operand.name.as_slice() == name)
}
