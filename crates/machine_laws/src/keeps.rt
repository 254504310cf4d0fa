//! What the definitions say about the states that steps make, and about the `++VER` that counts in them.
ghost use Rattle.machine_laws.specs.Storable.{StepStaysStorable, JobStaysStorable, JobsStayStorable};
ghost use Rattle.machine_laws.specs.Choices.{InstallKeepsChoice, StepKeepsChoice};
ghost use Rattle.machine_laws.specs.Singles.{OneCounts, NeverSeveralFit, FirstInstalls, LevelAsksApplied};

/// Whatever a step, a job or a list of jobs makes of a state that can be stored, can be stored again.
pub fn stays_storable()
    ensures step { StepStaysStorable }
    ensures job { JobStaysStorable }
    ensures jobs { JobsStayStorable }
{}

/// For an applied SYSMOD the `++VER` counts that counted in its install, whatever is applied later.
pub fn choice_is_kept()
    ensures install { InstallKeepsChoice }
    ensures step { StepKeepsChoice }
{}

/// If no SYSMOD has two `++VER`s of one SREL, everything is as if none could have two.
pub fn one_ver_counts()
    ensures counts { OneCounts }
    ensures installs { FirstInstalls }
    ensures several { NeverSeveralFit }
    ensures returns { LevelAsksApplied }
{}
