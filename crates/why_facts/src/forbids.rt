//! What an id forbids by NPRE, and which functions forbid it.
ghost use Rattle.std.specs.Prelude.{◌≡◌, ◌&&◌, [], filter, map, IfOk};
ghost use Rattle.terms.specs.Lookups.{is_applied};
ghost use Rattle.report.specs.Facts.{forbids, npre_facts};
ghost use Rattle.why_facts.specs.Asking.{setting_in, view_in};
ghost use Rattle.report.specs.FactViews.{fact_view};

use crate::asking::Asking;
use fields::Id;
use report::Fact;
use std::alloc::{AllocError, Global};

// Whether `by` is a function whose NPRE names the id.
fn is_forbidden_by(asking: &Asking<'_, '_>, by: Id) -> bool
    ensures { result ≡ forbids (setting_in asking.now) asking.now.id by }
{
    asking.scope.global().is_function(by) && asking.scope.vers.npre(by).contains(&asking.id)
}

// The applied functions, in the view of the id in question, whose NPRE names the id.
fn forbidding_functions(alloc: Global, asking: &Asking<'_, '_>) -> Result<Vec<Id>, AllocError>
    ensures { IfOk result (λ ids. ids.items ≡ filter (forbids (setting_in asking.now) asking.now.id)
        (filter (is_applied (view_in asking.now)) asking.now.functions.now)) }
{
    asking
        .functions
        .iter()
        .filter(|by| asking.is_applied_in_view(**by))
        .filter(|by| is_forbidden_by(asking, **by))
        .copied()
        .collect(alloc)
}

/// The ids that the NPRE of the SYSMOD names, and the applied functions whose NPRE names the SYSMOD.
pub(crate) fn npre_facts(
    alloc: Global,
    asking: &Asking<'_, '_>,
) -> Result<Vec<Fact<'static>>, AllocError>
    ensures { IfOk result (λ facts. map fact_view facts.items ≡ npre_facts (setting_in asking.now) asking.now.id) }
{
    let named = asking.scope.vers.npre(asking.id);
    let forbidding = forbidding_functions(alloc, asking)?;
    let mut facts = Vec::new(alloc);
    for id in named {
        facts.push(Fact::Npre {
            id: *id,
            applied: asking.is_applied_in_view(*id),
        })?;
    }
    for by in forbidding.as_slice() {
        facts.push(Fact::Forbidden(*by))?;
    }
    Ok(facts)
}
