//! What the definitions say about a rehearsal.
ghost use Rattle.smpe_rehearsal.specs.Laws.{LoadsReceived};

use sqlite::Alter;

/// If the disk does not fail, the zones that a rehearsal has loaded are those of the state to which the machine's
/// RECEIVE leads from the state that was found, and the status is the machine's.
pub fn loads_received<S: Alter>()
    ensures { LoadsReceived S.Store }
{}
