//! What the definitions say about the machine's answers.
ghost use Rattle.machine_laws.specs.Answers.{PtfinReadOnce, HoldFileReadOnce, CommandFileReadOnce};
ghost use Rattle.machine_laws.specs.Answers.{StepOnce, JobOnce, JobsOnce};
ghost use Rattle.machine_laws.specs.Answers.{PtfinRead, HoldFileRead, CommandFileRead};
ghost use Rattle.machine_laws.specs.Answers.{PlainStepAnswered, DecisionInstalled, StepAnswered, JobAnswered};
ghost use Rattle.machine_laws.specs.Answers.{JobsAnswered};
ghost use Rattle.machine_laws.specs.Causers.{InstallFailuresCaused, RestoreFailuresCaused};
ghost use Rattle.machine_laws.specs.Greatest.{InstallsGreatest, RestoresGreatest};

/// A file has at most one meaning, and from a state that can be stored a step, a job and a list of jobs have at most
/// one answer.
pub fn one_answer()
    ensures ptfin { PtfinReadOnce }
    ensures hold_file { HoldFileReadOnce }
    ensures command_file { CommandFileReadOnce }
    ensures step { StepOnce }
    ensures job { JobOnce }
    ensures jobs { JobsOnce }
{}

/// A file consists of items or has a fault, and from a state that can be stored a step, a job and a list of jobs have
/// an answer. A step that installs and restores nothing plainly has one, and each decision of APPLY and ACCEPT plainly
/// has its zone. For the others, it can be refuted that there is none.
pub fn some_answer()
    ensures ptfin { PtfinRead }
    ensures hold_file { HoldFileRead }
    ensures command_file { CommandFileRead }
    ensures plain { PlainStepAnswered }
    ensures decision { DecisionInstalled }
    ensures step { StepAnswered }
    ensures job { JobAnswered }
    ensures jobs { JobsAnswered }
{}

/// What APPLY and ACCEPT keep, and what RESTORE takes off, is the greatest set that supports itself.
pub fn greatest_is_kept()
    ensures install { InstallsGreatest }
    ensures restore { RestoresGreatest }
{}

/// Each failed id has a cause, and the lines lead to it.
pub fn failures_are_caused()
    ensures install { InstallFailuresCaused }
    ensures restore { RestoreFailuresCaused }
{}
