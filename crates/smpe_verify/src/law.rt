//! What the answer promises.
ghost use Rattle.smpe_verify.specs.Laws.{VerifiedIsClosed, ToldIsBroken};

/// The status is 0 if and only if all zones are closed. A job that begins with closed zones leaves them closed.
pub fn verified_is_closed()
    ensures { VerifiedIsClosed }
{}

/// Each breach that the answer reports is one: the zone breaks that rule of a closed zone.
pub fn told_is_broken()
    ensures { ToldIsBroken }
{}
