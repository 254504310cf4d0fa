//! The system in which something is asked about.
ghost use Rattle.smpe_command.specs.Systems.{ReadsSystem};

use crate::copied::read_database_bytes;
use crate::host::Host;
use smpe::JobError;
use smpe_invocation::CheckedSystem;
use smpe_rehearsal::System;

/// The system for a rehearsal. For an empty one nothing is asked of the surroundings, and of a database the files are
/// read. Returns `Store` if they cannot be read.
pub(crate) fn read_system<H: Host>(host: &mut H, system: &CheckedSystem) -> Result<System, JobError>
    ensures { ReadsSystem H.Host host.old system.now result host.new }
{
    match system {
        CheckedSystem::Empty(srel) => Ok(System::Empty(*srel)),
        CheckedSystem::Copied(copy) => {
            let bytes = read_database_bytes(host, &copy.db)?;
            Ok(System::Copied {
                bytes,
                zone: copy.zone,
            })
        }
    }
}
