//! The lines of a command.
ghost use Rattle.std.specs.Prelude.{◌≡◌, IfOk, map};
ghost use Rattle.machine.specs.Outcome.{or_nothing};
ghost use Rattle.report.specs.Views.{line_view};

use report::ReportLine;
use std::alloc::AllocError;

/// The lines, or one that says that there is none.
pub fn lines_or_nothing(mut lines: Vec<ReportLine>) -> Result<Vec<ReportLine>, AllocError>
    ensures { IfOk result (λ all. map line_view all.items ≡ or_nothing (map line_view lines.items)) }
{
    if lines.is_empty() {
        lines.push(ReportLine::Nothing)?;
    }
    Ok(lines)
}
