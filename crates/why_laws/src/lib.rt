//! Laws on what `smpe why` tells. Each is the contract of a function that does nothing, and there is no other code
//! here.
//!
//! What is told below the verdict of an id that failed (`reasons`): each reason witnesses the test or the need that it
//! is told of, and no failed test and no open need lacks one (`ReasonsWitness`). This rests on what each fact of an id
//! says (`FactsSay`), on the facts of a failed test (`TestsTold`), on the conflicts with other candidates
//! (`ConflictsTold`) and on the answers to needs (`NeedsTold`).
#![tactic(auto)]

mod reasons;

pub use reasons::reasons_witness;
