//! What a SYSMOD of the stream names.
ghost use Rattle.std.specs.Prelude.{◌≡◌, IfOk};
ghost use Rattle.terms.specs.Over.{names};
ghost use Rattle.sysmods.specs.Choices.{choice};

use fields::Id;
use std::alloc::{AllocError, Global};
use sysmods::VerChoice;

/// The ids that the `++VER` of the SYSMOD names in PRE, SUP and FMID.
pub(crate) fn named_ids(alloc: Global, vers: &VerChoice<'_>, id: Id) -> Result<Vec<Id>, AllocError>
    ensures { IfOk result (λ ids. ids.items ≡ names (choice vers.now) id) }
{
    let mut named = Vec::new(alloc);
    if let Some(ver) = vers.ver(id) {
        ver.append_named(&mut named)?;
    }
    Ok(named)
}
