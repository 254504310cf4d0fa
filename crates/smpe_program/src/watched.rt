//! A sink that looks at its bytes as they go by.
ghost use Rattle.std.specs.Prelude.{◌≡◌, ◌<◌, ◌≤◌, false, length, take, IfOk, OnOk, OnErr, is_err};
ghost use Rattle.std.specs.Io.KnownBytes.{Appends, Keeps};

use report::{Sink, WriteFault};
use smpe_warnings::ReportWatch;
use std::alloc::Global;
use std::io::IsTerminal;
use std::time::Instant;

/// Says on a terminal how long a command took, if it took a second or more.
#[derive(Drop)]
pub(crate) struct Progress<'a> {
    rt: &'a HostRuntime,
    /// When the last command ended, or the first one began.
    start: Instant,
    /// How many commands have ended.
    command_count: usize,
}

impl Progress<'_> {
    /// Begins to take times. Returns `None` if standard error is not a terminal or there is no clock.
    pub(crate) fn new<'a>(rt: &'a HostRuntime) -> Option<Progress<'a>> {
        if !rt.stderr().is_terminal() {
            return None;
        }
        let start = Instant::now(rt).ok()?;
        Some(Progress {
            rt,
            start,
            command_count: 0,
        })
    }

    // If a command has ended since the last call, prints how long it took.
    fn print_time_of_ended_command(&mut self, watch: &ReportWatch) {
        if watch.ended_commands() == self.command_count {
            return;
        }
        self.command_count = watch.ended_commands();
        if let Ok(now) = Instant::now(self.rt) {
            let seconds = now.duration_since(self.start).as_secs();
            self.start = now;
            if seconds > 0 {
                let header = watch.header();
                let _ = eprintln!(self.rt; "smpe: {header}: {seconds} s");
            }
        }
    }
}

/// A sink, with a watch over what it took.
#[derive(Drop)]
pub(crate) struct Watched<'a, S> {
    sink: S,
    pub(crate) watch: ReportWatch,
    progress: Option<Progress<'a>>,
}

impl<'a, S> Watched<'a, S> {
    /// A sink that has taken nothing yet. Without `progress`, it prints no times.
    pub(crate) fn new(alloc: Global, sink: S, progress: Option<Progress<'a>>) -> Watched<'a, S> {
        Watched {
            sink,
            watch: ReportWatch::new(alloc),
            progress,
        }
    }
}

impl<S: Sink> Sink for Watched<'_, S> {
    ghost taken = { λ w. S.taken w.sink };

    ghost has_failed = { λ w. S.has_failed w.sink };

    // If memory runs out for the watch, nothing is said about the report.
    fn write(&mut self, piece: &[u8]) -> Result<usize, WriteFault> {
        let count = self.sink.write(piece)?;
        self.watch.feed(piece.get(..count).unwrap_or(b""));
        if let Some(progress) = &mut self.progress {
            progress.print_time_of_ended_command(&self.watch);
        }
        Ok(count)
    }
}
