//! Answers about ids in zones that were loaded.
ghost use Rattle.std.specs.Prelude.{Ok};
ghost use Rattle.smpe_rehearsal.specs.Told.{TellsFound};

use report::{Sink, write_all};
use smpe::JobError;
use smpe_why::{LoadedZones, Question, answer_question};
use std::alloc::Global;

/// Answers the question by the zones that were loaded, writes the answer, and returns its status. The whole answer is
/// made before any of it is written. Returns `Memory` if memory runs out, and `Write` if the answer cannot be written.
pub fn answer_and_write<O: Sink>(
    alloc: Global,
    zones: &LoadedZones,
    question: &Question<'_>,
    out: &mut O,
) -> Result<u8, JobError>
    ensures { TellsFound O.Sink out.old out.new question.now (Ok zones.now) result }
{
    let answer = answer_question(alloc, zones, question)?;
    write_all(answer.text.as_slice(), out)?;
    Ok(answer.status)
}
