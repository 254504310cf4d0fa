//! What chooses a package.
ghost use Rattle.std.specs.Prelude.{◌≡◌, ◌∷◌, [], IfOk};
ghost use Rattle.smpe_answer.specs.Asked.{package_selection};

use fields::{IdList, Selection, Source, SourceList};
use std::alloc::{AllocError, Global};

/// The selection of all SYSMODs that have the source, and of what GROUPEXTEND brings in.
pub(crate) fn package_selection(alloc: Global, source: Source) -> Result<Selection, AllocError>
    ensures { IfOk result (λ selection. selection ≡ package_selection source) }
{
    let sourceid = one_source(alloc, source)?;
    let select = IdList::new(alloc);
    let exclude = IdList::new(alloc);
    let forfmid = IdList::new(alloc);
    let group = IdList::new(alloc);
    Ok(Selection {
        functions: true,
        ptfs: true,
        apars: true,
        usermods: true,
        select,
        exclude,
        sourceid,
        forfmid,
        group,
        groupextend: true,
    })
}

// The list of this source.
fn one_source(alloc: Global, source: Source) -> Result<SourceList, AllocError>
    ensures { IfOk result (λ list. list ≡ source ∷ []) }
{
    let mut list = SourceList::new(alloc);
    list.insert(source)?;
    Ok(list)
}
