//! What the reasons below a verdict witness.
ghost use Rattle.why_laws.specs.Reasons.{ReasonsWitness};

/// Each reason that is told of a failure witnesses it, and no failed test and no open need lacks one.
pub fn reasons_witness()
    ensures { ReasonsWitness }
{}
