//! How the kept set of a system is found.
ghost use Rattle.std.specs.Prelude.{IfOk};
ghost use Rattle.solve.specs.System.{AreKept};

use crate::sets::Kept;
use crate::system::System;
use std::alloc::{AllocError, Global};

/// A way to find the kept set of a system.
pub trait Solver {
    /// The union of all self-supporting sets.
    fn greatest(&self, alloc: Global, system: &System) -> Result<Kept, AllocError>
        ensures { IfOk result (λ kept. AreKept system.now kept) };
}
