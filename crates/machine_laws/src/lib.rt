//! Laws on the machine. Each is the contract of a function that does nothing, and there is no other code here.
//!
//! What the machine's steps keep (`keeps`): the forms and invariants of all that is stored, the closed zone, and the
//! `++VER` that counts for what is applied. RECEIVE (`take_forms`), REJECT (`reject_forms`), installs (`apply_kept`),
//! RESTORE (`restore_kept`), new entries and elements (`zone_kept`) and the definition of a zone (`definition_kept`)
//! lead from an inventory to an inventory. That each step, job and list of jobs does so is a law, `stays_storable`.
//! APPLY and ACCEPT (`apply_keeps_closed`), RESTORE (`restore_keeps_closed`), RECEIVE (`receive_keeps_closed`) and
//! REJECT (`reject_keeps_closed`) leave closed zones closed, and new zones are closed (`empty_closed`). So each act
//! (`step_keeps`), each job (`job_keeps`) and each list of jobs (`jobs_keep`) leads from an inventory whose zones are
//! closed to such a one. That the `++VER` of an install keeps counting is a law, `choice_is_kept`. Another law says
//! that nothing differs if no SYSMOD has two `++VER`s of one SREL, `one_ver_counts`.
//!
//! What the machine answers (`answers`). There is at most one answer: of each file (`FileAnswers`), of RECEIVE
//! (`ReceiveAnswers`), REPORT (`ReportAnswers`), APPLY and ACCEPT (`InstallLines`) and RESTORE (`RestoreAnswers`), and
//! so of each step, job and list of jobs from a state that can be stored (`StepAnswers`).
//!
//! There is some answer: that a step (`StepAnswered`), a job or a list of jobs (`JobsAnswered`) has none can be
//! refuted. This rests on the files that are read (`FileRead`, `CommandFileRead`), on what RESTORE makes of a zone
//! (`RestoreAnswered`), on what APPLY and ACCEPT decide and print (`DecisionAnswered`, `DecisionLines`), and on the
//! zone that each such decision leads to (`InstallRuns`, `ZoneAnswered`): its entries (`MadeEntries`,
//! `EntriesAnswered`), and its elements (`ElementAnswered`), each by the SYSMODs that change it, in the order of over
//! (`InOver`), with the merge of texts (`Merged`).
//!
//! What is kept is the greatest set that supports itself, for installs and for RESTORE (`Greatest`). Each failed id has
//! a cause, to which the lines lead (`Causers`).
//!
//! What an APPLY or ACCEPT of given ids prints (`verdicts`): the same lines on any date (`AnyDate`). An id that no fact
//! about it blocks is applied (`ClearInstall`).
#![tactic(auto)]

mod answers;
mod keeps;
mod verdicts;

pub use answers::{failures_are_caused, greatest_is_kept, one_answer, some_answer};
pub use keeps::{choice_is_kept, one_ver_counts, stays_storable};
pub use verdicts::{clear_is_applied, prints_same_on_any_date};
