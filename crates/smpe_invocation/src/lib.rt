//! What the words of the command line of `smpe` ask for. If `clap` takes the words, `invocation` returns the subcommand
//! and the values that it found, each of its form. It returns `clap`'s error exactly if the contract names a fault of
//! the words, and a bad operand only if no invocation has the values. `read_date` reads a date exactly if the calendar
//! has it. No contract says anything about `clap`'s texts.
#![tactic(auto)]

mod answer_form;
mod asked;
mod checked;
mod command;
mod date;
mod fault;
mod invocation_reading;
mod option_values;

pub use asked::{
    CheckAnswer, CheckForm, CheckedSystem, CommandJob, DatabaseFile, Invocation, LintForm,
    LintOptions, MendOptions, RunOptions, ServiceSet, SetFiles, SystemCopy, WhyOptions,
    ZoneDefinition,
};
pub use date::read_date;
pub use fault::ArgFault;
pub use invocation_reading::invocation;
pub use option_values::read_seconds;
