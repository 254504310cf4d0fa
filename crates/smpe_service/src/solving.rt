//! Which candidates are kept.
ghost use Rattle.std.specs.Prelude.{IfOk};
ghost use Rattle.judge_system.specs.Judged.{HasParts};
ghost use Rattle.smpe_service.specs.Solved.{IsSolved};

use judge_system::{Decided, Judged};
use solve::{Solver, Worklist};
use std::alloc::{AllocError, Global};

/// Decides which candidates are kept, namely the union of all self-supporting sets, and why each of the others is not.
pub(crate) fn decide(alloc: Global, judged: &Judged<'_>) -> Result<Decided, AllocError>
    requires { HasParts judged.now }
    ensures { IfOk result (λ d. IsSolved judged.now d.kept d.failed.items) }
{
    let set = Worklist.greatest(alloc, &judged.system)?;
    judged.decided(alloc, &set)
}
