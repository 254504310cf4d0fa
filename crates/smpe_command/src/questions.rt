//! Questions about ids in a zone, and their answers.
ghost use Rattle.std.specs.Prelude.{◌≡◌, IfOk, IfErr};
ghost use Rattle.std.specs.String.{string_bytes};
ghost use Rattle.smpe_jobs.specs.declared.error.JobError.TheVariants.{Memory};
ghost use Rattle.smpe_command.specs.Serving.{AsksZone, IsGiven, ServesWhy, inquiry};

use crate::database::load_zones_of_database;
use crate::host::Host;
use fields::Bypass;
use report::Sink;
use smpe::{ArgFault, DatabaseFile, Fault, JobError};
use smpe_invocation::WhyOptions;
use smpe_rehearsal::{answer_and_write, status_or_fault};
use smpe_why::{Question, read_bypass};
use std::alloc::Global;

/// Asks about the ids in a zone of the database, as the words say, writes the answer, and returns its status. Returns
/// `Arg` if ACCEPT would refuse the list of BYPASS, and `Job` for a fault of the database, memory or the output.
pub(crate) fn serve_why<'a, H: Host, O: Sink>(
    alloc: Global,
    host: &mut H,
    db: &DatabaseFile,
    options: &WhyOptions,
    out: &mut O,
) -> Result<u8, Fault<'a>>
    ensures { ServesWhy H.Host H.Disk.Store O.Sink host.old (string_bytes db.now.name) out.old options.now result
        host.new out.new }
{
    let Some(bypass) = stated_bypass(alloc, options)? else {
        return Err(Fault::Arg(ArgFault::BadOperand));
    };
    status_or_fault(answer_why(alloc, host, db, options, &bypass, out))
}

// The BYPASS that the words state, an empty one if they state none, or `None` if ACCEPT would refuse its list. Returns
// `Memory` if memory runs out.
fn stated_bypass(alloc: Global, options: &WhyOptions) -> Result<Option<Bypass>, JobError>
    ensures ok { IfOk result (IsGiven options.now) }
    ensures err { IfErr result (λ error. error ≡ Memory) }
{
    match &options.bypass {
        Some(list) => Ok(read_bypass(alloc, list.as_bytes())?),
        None => Ok(Some(Bypass::none(alloc))),
    }
}

// Asks about the ids with this BYPASS: loads the zones from the database, writes the answer, and returns its status.
fn answer_why<H: Host, O: Sink>(
    alloc: Global,
    host: &mut H,
    db: &DatabaseFile,
    options: &WhyOptions,
    bypass: &Bypass,
    out: &mut O,
) -> Result<u8, JobError>
    ensures { AsksZone H.Host H.Disk.Store O.Sink host.old (string_bytes db.now.name) out.old options.now.zone
        (inquiry options.now bypass.now) result host.new out.new }
{
    let question = Question {
        ids: options.ids.as_slice(),
        together: options.together,
        groupextend: options.group,
        bypass,
    };
    let zones = load_zones_of_database(alloc, host, db, options.zone)?;
    answer_and_write(alloc, &zones, &question, out)
}
