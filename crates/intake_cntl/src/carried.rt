//! Commands as they are written into the command file.

use intake_read::CardPlace;

/// A command as it is written.
#[derive(Drop)]
pub(crate) struct CarriedCommand {
    pub(crate) place: CardPlace,
    pub(crate) word: &'static [u8],
    pub(crate) operands: Vec<CarriedOperand>,
}

impl CarriedCommand {
    /// Whether it has SELECT or GROUP.
    pub(crate) fn has_select_or_group(&self) -> bool {
        self.operands
            .iter()
            .any(|operand| operand.is_select_or_group())
    }
}

/// An operand as it is written.
#[derive(Drop)]
pub(crate) struct CarriedOperand {
    pub(crate) word: &'static [u8],
    pub(crate) value: CarriedValue,
}

impl CarriedOperand {
    /// Whether it chooses SYSMODs by their ids.
    pub(crate) fn is_select_or_group(&self) -> bool {
        matches!(self.word, b"SELECT" | b"GROUP")
    }

    /// The members of its list, or none if it has no list or is a BYPASS.
    pub(crate) fn list(&self) -> &[Vec<u8>] {
        match &self.value {
            CarriedValue::List(members) => members.as_slice(),
            CarriedValue::Nothing | CarriedValue::BypassMembers(_) => &[],
        }
    }
}

/// What follows the word of an operand.
#[derive(Drop)]
pub(crate) enum CarriedValue {
    Nothing,
    List(Vec<Vec<u8>>),
    BypassMembers(Vec<CarriedMember>),
}

/// A member of BYPASS, with the reasons or classes that it names.
#[derive(Drop)]
pub(crate) struct CarriedMember {
    pub(crate) word: &'static [u8],
    pub(crate) listed: Option<Vec<Vec<u8>>>,
}

/// Whether an operand has this word.
pub(crate) fn has_word(operands: &[CarriedOperand], word: &[u8]) -> bool {
    operands.iter().any(|operand| operand.word == word)
}
