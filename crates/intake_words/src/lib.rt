//! The words of `smpe-intake`: what its command line asks for, how a run ends without output, and what is told of a
//! run. Nothing here reads or writes a file. If `clap` takes the words, `read_options` returns the values that it
//! found, each of its form. It returns `clap`'s error only if the contract names that fault of the words. Every call
//! that allocates fails with `AllocError`, or a fault that says so, if memory runs out.
#![tactic(auto)]

mod command_line;
mod fault;
mod fault_line;
mod inputs;
mod option_values;
mod options;
mod relfile;
mod remarks;
mod shown;
mod stand_ins;
mod summary;
mod summary_json;

pub use fault::IntakeFault;
pub use fault_line::earlier_files_line;
pub use inputs::InputFiles;
pub use options::{CardOptions, IntakeOptions, WordsFault, read_options, text_views};
pub use relfile::{RelfileElement, relfile_elements};
pub use remarks::{append_remark_line, append_remark_lines, refusal_fault, refused_command_lines};
pub use stand_ins::stand_ins_file;
pub use summary::{command_summary, refused_command_summary, service_summary};
