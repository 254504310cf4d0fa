//! What takes the bytes of a report, until a write fails.
ghost use Rattle.std.specs.Prelude.{◌≡◌, ◌<◌, ◌≤◌, List, ℕ, Bool, Option, true, false, length, take, IfOk, OnOk, OnErr};
ghost use Rattle.std.specs.Prelude.{is_err};
ghost use Rattle.std.specs.Io.KnownBytes.{Appends, Keeps};

use std::io::Write;
use thiserror::Error;

/// The sink takes no more bytes.
#[derive(Clone, Copy, Debug, PartialEq, Eq, Error)]
#[error("write")]
pub struct WriteFault;

/// Takes bytes until a write fails, and none from then on.
pub trait Sink {
    /// The bytes taken, if the sink reveals them.
    ghost taken: { Self → Option (List ℕ) };

    /// Whether a write has failed.
    ghost has_failed: { Self → Bool };

    /// Takes the first bytes of a piece, at least one if it has any, and returns how many. Fails if the write does, and
    /// at each call from then on.
    fn write(&mut self, piece: &[u8]) -> Result<usize, WriteFault>
        ensures some { 0 < length piece.now → IfOk result (λ n. 0 < n) }
        ensures within { IfOk result (λ n. n ≤ length piece.now) }
        ensures bytes { IfOk result (λ n. Appends (taken self.old) (taken self.new) (take n piece.now)) }
        ensures none { OnErr result (Keeps (taken self.old) (taken self.new)) }
        ensures before { OnOk result (has_failed self.old ≡ false) }
        ensures after { has_failed self.new ≡ is_err result };
}

/// A sink over any writer. It knows of its bytes what the writer reveals. An error, or a write that takes 0 bytes, is a
/// failure.
// No contract says that a failure was the writer's. `Write` of std reveals only the bytes that the writer holds, and
// some writers, as standard output, do not even reveal those (`contents`). Nothing relates a writer before and after a
// write that failed. If the bytes are revealed, a piece that was taken is no failure here (`none`), and after a failure
// the writer is left alone (`still`). But a sink that fails without asking its writer would meet the contract.
#[derive(Drop)]
pub struct Out<W> {
    writer: W,
    failed: bool,
}

impl<W> Out<W> {
    /// A sink that has not failed.
    pub fn new(writer: W) -> Out<W>
        ensures { result ≡ record { writer = writer; failed = false } }
    {
        Out {
            writer,
            failed: false,
        }
    }

    /// The writer.
    pub(crate) fn writer(&self) -> &W
        ensures { result.now ≡ self.now.writer }
    {
        &self.writer
    }
}

impl<W: Write> Sink for Out<W> {
    ghost taken = { λ o. W.contents o.writer };

    ghost has_failed = { λ o. o.failed };

    fn write(&mut self, piece: &[u8]) -> Result<usize, WriteFault>
        ensures some { 0 < length piece.now → IfOk result (λ n. 0 < n) }
        ensures within { IfOk result (λ n. n ≤ length piece.now) }
        ensures bytes { IfOk result (λ n. Appends (W.contents self.old.writer) (W.contents self.new.writer)
            (take n piece.now)) }
        ensures none { OnErr result (Keeps (W.contents self.old.writer) (W.contents self.new.writer)) }
        ensures before { OnOk result (self.old.failed ≡ false) }
        ensures after { self.new.failed ≡ is_err result }
        ensures still { self.old.failed ≡ true → self.new ≡ self.old }
    {
        if self.failed {
            return Err(WriteFault);
        }
        if piece.is_empty() {
            return Ok(0);
        }
        match self.writer.write(piece) {
            Ok(n) if n > 0 => Ok(n),
            _ => {
                self.failed = true;
                Err(WriteFault)
            }
        }
    }
}
