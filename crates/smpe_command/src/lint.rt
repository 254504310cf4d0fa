//! A service stream is checked against the rules of a clean one.
ghost use Rattle.std.specs.Prelude.{length};
ghost use Rattle.smpe_command.specs.Linting.{ServesLint, TellsLint};

use crate::carry::given_files;
use crate::host::Host;
use crate::job_files::read_each;
use report::{Sink, write_all};
use smpe::{Fault, JobError};
use smpe_invocation::LintOptions;
use smpe_lint::lint_files;
use smpe_rehearsal::status_or_fault;
use std::alloc::Global;

/// Writes what breaks the rules in the stream of these files, and returns the status of that answer. All files are read
/// before. Returns `CannotRead` if one of them cannot be read, and `Job` for a fault of memory or of the output.
pub(crate) fn serve_lint<'a, H: Host, O: Sink>(
    alloc: Global,
    host: &mut H,
    options: &'a LintOptions,
    out: &mut O,
) -> Result<u8, Fault<'a>>
    ensures { ServesLint H.Host O.Sink host.old out.old options.entry.now result host.new out.new }
{
    let files = read_each(alloc, host, options.files.as_slice())?;
    status_or_fault(lint_and_write(alloc, options, files.as_slice(), out))
}

// Writes the answer about the files with these bytes, and returns its status. The whole answer is made before any of it
// is written.
fn lint_and_write<O: Sink>(
    alloc: Global,
    options: &LintOptions,
    files: &[Vec<u8>],
    out: &mut O,
) -> Result<u8, JobError>
    ensures { TellsLint O.Sink out.old (length files.now) options.now.srel result out.new }
{
    let given = given_files(alloc, options.files.as_slice(), files)?;
    let answer = lint_files(alloc, given.as_slice(), options.srel, options.form)?;
    write_all(answer.text.as_slice(), out)?;
    Ok(answer.status)
}
