//! The kept candidates and the failures of the others.
ghost use Rattle.std.specs.Prelude.{IfOk};
ghost use Rattle.solve.specs.System.{AreKept};
ghost use Rattle.judge_system.specs.ByNumber.{IsDecidedBy};
ghost use Rattle.judge_system.specs.Judged.{HasParts};

use crate::failure::Failure;
use crate::failures::{Findings, failures};
use crate::judged::Judged;
use crate::kept::kept_ids;
use crate::needs::open_needs;
use fields::{Id, IdList};
use solve::{Kept, causers};
use std::alloc::{AllocError, Global};

/// The kept candidates, and each other one with its failure, in their order.
#[derive(Drop)]
pub struct Decided {
    pub kept: IdList,
    pub failed: Vec<(Id, Failure)>,
}

impl Judged<'_> {
    /// Turns numbers back into ids: the kept candidates, and why each other one is not kept. Its argument is the set of
    /// kept numbers, as a `Solver` returns it. From it the causers of each number are found.
    pub fn decided(&self, alloc: Global, kept: &Kept) -> Result<Decided, AllocError>
        requires parts { HasParts self.now }
        requires kept { AreKept self.now.system kept.now }
        ensures { IfOk result (λ d. IsDecidedBy self.now kept.now d.kept d.failed.items) }
    {
        let ids = self.ids.as_slice();
        let unserved = open_needs(alloc, &self.system, self.needs.as_slice(), kept)?;
        let causers = causers(alloc, &self.system, kept)?;
        let kept = kept_ids(alloc, ids, kept.flags())?;
        let findings = Findings {
            tests: self.tests.as_slice(),
            unserved: unserved.as_slice(),
            causers: causers.as_slice(),
        };
        let failed = failures(alloc, ids, &kept, &findings)?;
        Ok(Decided { kept, failed })
    }
}
