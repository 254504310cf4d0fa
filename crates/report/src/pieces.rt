//! The pieces of a text.
ghost use Rattle.std.specs.Prelude.{◌≡◌, ◌<◌, length, OnErr, is_err};
ghost use Rattle.report.specs.Sent.{Sent};

use crate::sink::{Sink, WriteFault};

/// Writes all of a piece, in as many writes as the sink needs. After an error a beginning has gone out.
pub fn write_all<W: Sink>(piece: &[u8], w: &mut W) -> Result<(), WriteFault>
    ensures sends { Sent W.Sink w.old w.new piece.now }
    ensures after { 0 < length piece.now → W.has_failed w.new ≡ is_err result }
    ensures some { OnErr result (0 < length piece.now) }
{
    let mut rest = piece;
    while !rest.is_empty() {
        let n = w.write(rest)?;
        rest = &rest[n..];
    }
    Ok(())
}

/// Writes a piece of a text without saying whether that failed. The caller learns it from the sink's next write, since
/// a sink that has failed takes no more.
pub fn print<W: Sink>(piece: &[u8], w: &mut W)
    ensures { Sent W.Sink w.old w.new piece.now }
{
    let _ = write_all(piece, w);
}
