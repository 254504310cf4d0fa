//! Lists of facts, one after the other.
ghost use Rattle.std.specs.Prelude.{◌≡◌, ◌++◌, IfOk};

use report::Fact;
use std::alloc::AllocError;

/// The facts of both lists. It consumes both, so a caller that joins several lists owns only one at a time.
pub(crate) fn join_facts<'a>(
    first: Vec<Fact<'a>>,
    second: Vec<Fact<'a>>,
) -> Result<Vec<Fact<'a>>, AllocError>
    ensures { IfOk result (λ facts. facts.items ≡ first.entry.items ++ second.entry.items) }
{
    let mut facts = first;
    let mut more = second;
    facts.append(&mut more)?;
    Ok(facts)
}
