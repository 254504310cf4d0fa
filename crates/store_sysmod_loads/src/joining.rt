//! Heads of SYSMODs joined with their sources, which are in a table of their own.

ghost use Rattle.std.specs.Prelude.{◌≡◌, List, IfOk, IsErrOf};
ghost use Rattle.terms.specs.Types as terms;
ghost use Rattle.store_sysmods.specs.declared.head.HeadRow.{HeadRow as HeadLine};
ghost use Rattle.store_sysmods.specs.declared.source.SourceRow.{SourceRow as SourceLine};
ghost use Rattle.store_sysmod_loads.specs.Runs.{HasSources};
ghost use Rattle.store_sysmod_loads.specs.Joined.{AreJoined};

use crate::gathering::{pop_row, pop_row_of};
use fields::{Id, SourceList};
use std::alloc::Global;
use std::collections::VecDeque;
use store_rows::ReadError;
use store_sysmods::{BareHead, HeadRow, SourceRow};

// The sources of a SYSMOD, whose rows it takes off the front of the list. Returns `BadRow` if they do not rise, and
// `Memory` if memory runs out.
fn take_sources(
    alloc: Global,
    rows: &mut VecDeque<SourceRow>,
    id: Id,
) -> Result<SourceList, ReadError>
    ensures taken { IfOk result (λ names. HasSources id rows.old.items names rows.new.items) }
    ensures only { IfOk result (λ names. (others : List terms.Text) (rest : List SourceLine)
        → HasSources id rows.old.items others rest → (others ≡ names) × (rest ≡ rows.new.items)) }
    ensures none { IsErrOf result ReadError.BadRow → (others : List terms.Text) (rest : List SourceLine)
        → ¬ HasSources id rows.old.items others rest }
    ensures fault { IsErrOf result ReadError.Fault → ⊥ }
{
    let mut names = SourceList::new(alloc);
    while let Some(row) = pop_row_of(rows, id) {
        if !names.push_last(row.name)? {
            return Err(ReadError::BadRow);
        }
    }
    Ok(names)
}

/// The heads with their sources. Returns `BadRow` if the sources of a head do not rise, or if rows of sources are left
/// after the last head, and `Memory` if memory runs out.
pub(crate) fn join_sources(
    alloc: Global,
    mut bare: VecDeque<BareHead>,
    mut sources: VecDeque<SourceRow>,
) -> Result<Vec<HeadRow>, ReadError>
    ensures joined { IfOk result (λ heads. AreJoined bare.items sources.items heads.items) }
    ensures only { IfOk result (λ heads. (others : List HeadLine) → AreJoined bare.items sources.items others
        → others ≡ heads.items) }
    ensures none { IsErrOf result ReadError.BadRow → (others : List HeadLine)
        → ¬ AreJoined bare.items sources.items others }
    ensures fault { IsErrOf result ReadError.Fault → ⊥ }
{
    let mut heads = Vec::with_capacity(alloc, bare.len())?;
    while let Some(head) = pop_row(&mut bare) {
        let names = take_sources(alloc, &mut sources, head.id)?;
        let whole = HeadRow {
            id: head.id,
            kind: head.kind,
            sources: names,
        };
        if heads.push(whole).is_err() {
            return Err(ReadError::Memory);
        }
    }
    if !sources.is_empty() {
        return Err(ReadError::BadRow);
    }
    Ok(heads)
}
