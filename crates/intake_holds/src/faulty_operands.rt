//! Faulty operands: those that cannot be read as their names demand.

use intake_read::FaultyOperand;

/// Whether one of the faulty operands has this name.
pub fn has_faulty_operand(faulty: &[FaultyOperand], name: &[u8]) -> bool {
    faulty
        .iter()
        .any(|entry| entry.operand.name.as_slice() == name)
}
