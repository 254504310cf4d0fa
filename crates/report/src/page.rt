//! The page on which a report waits before it goes out.
ghost use Rattle.std.specs.Prelude.{◌≡◌, ◌<◌, ◌≤◌, [], length, is_err};
ghost use Rattle.report.specs.Paged.{Paged};

use crate::pieces::write_all;
use crate::sink::{Sink, WriteFault};
use arrayvec::ArrayVec;

/// A sink, and the bytes that wait to go there.
#[derive(Drop)]
pub(crate) struct Page<'a, W> {
    sink: &'a mut W,
    waiting: ArrayVec<u8, 8192>,
}

impl<'a, W: Sink> Page<'a, W> {
    /// An empty page, whose bytes go to the sink.
    pub(crate) fn new(sink: &'a mut W) -> Page<'a, W>
        ensures same_reference { result.sink.ghost_name ≡ sink.entry.ghost_name }
        ensures sink { result.sink.now ≡ sink.old }
        ensures waiting { result.waiting.items ≡ [] }
    {
        Page {
            sink,
            waiting: ArrayVec::new(),
        }
    }

    /// Puts a piece of a text on the page. If it does not fit, what waits goes out first. A piece that is longer than a
    /// page follows directly. Does not say whether a write failed: the caller learns it from `flush`, since a failed
    /// sink takes no more.
    pub(crate) fn print(&mut self, piece: &[u8])
        ensures paged { Paged W.Sink self.old self.new piece.now }
        ensures some { 0 < length piece.now → length piece.now ≤ 8192 → 0 < length self.new.waiting.items }
    {
        if self.waiting.try_extend_from_slice(piece).is_ok() {
            return;
        }
        let _ = self.flush();
        if self.waiting.try_extend_from_slice(piece).is_err() {
            let _ = write_all(piece, self.sink);
        }
    }

    /// Sends what waits to the sink.
    pub(crate) fn flush(&mut self) -> Result<(), WriteFault>
        ensures paged { Paged W.Sink self.old self.new [] }
        ensures waiting { self.new.waiting.items ≡ [] }
        ensures fault { 0 < length self.old.waiting.items → W.has_failed self.new.sink.now ≡ is_err result }
    {
        let sent = write_all(self.waiting.as_slice(), self.sink);
        self.waiting.clear();
        sent
    }
}
