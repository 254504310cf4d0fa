//! A sink for a report that nobody reads.
ghost use Rattle.std.specs.Prelude.{None, false};

use report::{Sink, WriteFault};

/// Takes all bytes, and keeps none.
#[derive(Clone, Copy)]
pub(crate) struct NoReport;

impl Sink for NoReport {
    ghost taken = { λ _. None };

    ghost has_failed = { λ _. false };

    fn write(&mut self, piece: &[u8]) -> Result<usize, WriteFault> {
        Ok(piece.len())
    }
}
