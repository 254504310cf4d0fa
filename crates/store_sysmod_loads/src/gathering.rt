//! The statements of a SYSMOD, taken off the front of sorted rows.

ghost use Rattle.std.specs.Prelude.{◌≡◌, ◌≤◌, ◌<◌, ◌↔◌, List, [], ◌∷◌, length, IsTrue, IfOk, IfSome, IfNone};
ghost use Rattle.std.specs.Prelude.{IsErrOf};
ghost use Rattle.store_schema.specs.Rows.{number_behind};
ghost use Rattle.terms.specs.Types as terms;
ghost use Rattle.store_sysmods.specs.declared.ver.VerRow.{VerRow as VerLine};
ghost use Rattle.store_sysmods.specs.declared.ifreq.IfRow.{IfRow as IfLine};
ghost use Rattle.store_sysmods.specs.declared.elem.ElemRow.{ElemRow as ElemLine};
ghost use Rattle.store_sysmod_loads.specs.Runs.{AreBare, Begins, StandsApart, HasIfs, HasVers, HasChanges};

use fields::{Id, Srel};
use sorted::Keyed;
use std::alloc::{AllocError, Global};
use std::collections::VecDeque;
use store_rows::ReadError;
use store_sysmods::{ElemRow, IfRow, SourceRow, VerRow, number_after};
use sysmods_values::{ElemChange, IfReq, Ver};

/// How many `++VER`s a SYSMOD has at most.
const MOST_VERS: usize = 8;

/// A row that belongs to another row.
pub(crate) trait Child: Drop {
    type Parent: Copy;

    ghost parent_of: { Self → Self.Parent };

    /// Whether it belongs to this parent.
    fn belongs_to(&self, parent: Self::Parent) -> bool
        ensures { IsTrue result ↔ (parent_of self.now ≡ parent) };
}

impl Child for SourceRow {
    ghost use Rattle.store_sysmod_loads.specs.Runs.{parent_of_source};

    type Parent = Id;

    ghost parent_of = { parent_of_source };

    fn belongs_to(&self, parent: Id) -> bool {
        self.id == parent
    }
}

impl Child for VerRow {
    ghost use Rattle.store_sysmod_loads.specs.Runs.{parent_of_ver};

    type Parent = Id;

    ghost parent_of = { parent_of_ver };

    fn belongs_to(&self, parent: Id) -> bool {
        self.id == parent
    }
}

impl Child for IfRow {
    ghost use Rattle.store_sysmod_loads.specs.Runs.{parent_of_if};

    type Parent = (Id, Srel, u64);

    ghost parent_of = { parent_of_if };

    fn belongs_to(&self, parent: (Id, Srel, u64)) -> bool {
        self.id == parent.0 && self.srel == parent.1 && self.place == parent.2
    }
}

impl Child for ElemRow {
    ghost use Rattle.store_sysmod_loads.specs.Runs.{parent_of_elem};

    type Parent = Id;

    ghost parent_of = { parent_of_elem };

    fn belongs_to(&self, parent: Id) -> bool {
        self.id == parent
    }
}

/// The first row, which it takes off the list, or `None` if there is no row. Loops over the rows need `pop_front` with
/// this contract.
pub(crate) fn pop_row<T: Drop>(rows: &mut VecDeque<T>) -> Option<T>
    ensures some { IfSome result (λ row. rows.old.items ≡ row ∷ rows.new.items) }
    ensures none { IfNone result (rows.old.items ≡ []) }
{
    rows.pop_front()
}

// Whether there is a first row and it belongs to the parent.
fn first_belongs_to<T: Child>(rows: &VecDeque<T>, parent: T::Parent) -> bool
    ensures { IsTrue result ↔ Begins T.parent_of parent rows.now.items }
{
    match rows.front() {
        Some(row) => row.belongs_to(parent),
        None => false,
    }
}

/// The first row, which it takes off the list, or `None` if there is no row or the first belongs to another parent.
pub(crate) fn pop_row_of<T: Child>(rows: &mut VecDeque<T>, parent: T::Parent) -> Option<T>
    ensures some { IfSome result (λ row. (rows.old.items ≡ row ∷ rows.new.items) × (T.parent_of row ≡ parent)) }
    ensures none { IfNone result ((rows.new.items ≡ rows.old.items) × StandsApart T.parent_of parent rows.old.items) }
{
    if !first_belongs_to(rows, parent) {
        return None;
    }
    rows.pop_front()
}

/// The `++IF`s of a `++VER`, whose rows it takes off the front of the list. `place` is the number of the `++VER` among
/// those of its SREL. Returns `BadRow` if the numbers of the `++IF`s do not count from 1, and `Memory` if memory runs
/// out.
pub(crate) fn take_ifs(
    alloc: Global,
    rows: &mut VecDeque<IfRow>,
    id: Id,
    srel: Srel,
    place: u64,
) -> Result<Vec<IfReq>, ReadError>
    ensures taken { IfOk result (λ ifs. HasIfs id srel place 1 rows.old.items ifs.items rows.new.items) }
    ensures only { IfOk result (λ ifs. (others : List terms.IfReq) (rest : List IfLine)
        → HasIfs id srel place 1 rows.old.items others rest → (others ≡ ifs.items) × (rest ≡ rows.new.items)) }
    ensures none { IsErrOf result ReadError.BadRow → (others : List terms.IfReq) (rest : List IfLine)
        → ¬ HasIfs id srel place 1 rows.old.items others rest }
    ensures fault { IsErrOf result ReadError.Fault → ⊥ }
{
    let mut ifs = Vec::new(alloc);
    while let Some(row) = pop_row_of(rows, (id, srel, place)) {
        if row.number != ifs.len() as u64 + 1 {
            return Err(ReadError::BadRow);
        }
        if ifs.push(row.ifreq).is_err() {
            return Err(ReadError::Memory);
        }
    }
    ifs.shrink_to_fit();
    Ok(ifs)
}

// The `++VER` with these `++IF`s in place of its own.
fn with_ifs(ver: Ver, ifs: Vec<IfReq>) -> Ver
    ensures { result ≡ record ver { ifs = ifs.items } }
{
    Ver {
        srel: ver.srel,
        fmid: ver.fmid,
        pre: ver.pre,
        req: ver.req,
        sup: ver.sup,
        npre: ver.npre,
        del: ver.del,
        ifs,
    }
}

// The `++VER` of the row with its `++IF`s, whose rows it takes off the front of `ifs`. Returns `BadRow` if their
// numbers do not count from 1, and `Memory` if memory runs out.
fn fill_ver(alloc: Global, ifs: &mut VecDeque<IfRow>, id: Id, row: VerRow) -> Result<Ver, ReadError>
    ensures same { IfOk result (λ ver. ver ≡ record row.ver { ifs = ver.ifs }) }
    ensures taken { IfOk result (λ ver. HasIfs id row.ver.srel row.number 1 ifs.old.items ver.ifs ifs.new.items) }
    ensures only { IfOk result (λ ver. (others : List terms.IfReq) (rest : List IfLine)
        → HasIfs id row.ver.srel row.number 1 ifs.old.items others rest → (others ≡ ver.ifs) × (rest ≡ ifs.new.items)) }
    ensures none { IsErrOf result ReadError.BadRow → (others : List terms.IfReq) (rest : List IfLine)
        → ¬ HasIfs id row.ver.srel row.number 1 ifs.old.items others rest }
    ensures fault { IsErrOf result ReadError.Fault → ⊥ }
{
    let srel = row.ver.key();
    let found = take_ifs(alloc, ifs, id, srel, row.number)?;
    Ok(with_ifs(row.ver, found))
}

// Whether a SYSMOD with these `++VER`s may have another one, and the row has the next number for its SREL.
fn may_come_next(vers: &[Ver], row: &VerRow) -> bool
    ensures { IsTrue result ↔ (length vers.now < 8) × (row.now.number ≡ number_behind vers.now row.now.ver) }
{
    vers.len() < MOST_VERS && row.number == number_after(vers, &row.ver) as u64
}

/// The `++VER`s of a SYSMOD with their `++IF`s, whose rows it takes off the front of the lists. Returns `BadRow` if
/// there are more than `MOST_VERS`, if one does not have the next number of its SREL, or if the numbers of its `++IF`s
/// do not count from 1. Returns `Memory` if memory runs out.
pub(crate) fn take_vers(
    alloc: Global,
    rows: &mut VecDeque<VerRow>,
    ifs: &mut VecDeque<IfRow>,
    id: Id,
) -> Result<Vec<Ver>, ReadError>
    requires { AreBare rows.old.items }
    ensures bare { AreBare rows.new.items }
    ensures most { IfOk result (λ vers. length vers.items ≤ 8) }
    ensures taken { IfOk result (λ vers. HasVers id rows.old.items ifs.old.items vers.items rows.new.items
        ifs.new.items) }
    ensures only { IfOk result (λ vers. (others : List terms.Ver) (rest : List VerLine) (more : List IfLine)
        → HasVers id rows.old.items ifs.old.items others rest more
        → (others ≡ vers.items) × (rest ≡ rows.new.items) × (more ≡ ifs.new.items)) }
    ensures none { IsErrOf result ReadError.BadRow → (others : List terms.Ver) (rest : List VerLine)
        (more : List IfLine) → length others ≤ 8 → ¬ HasVers id rows.old.items ifs.old.items others rest more }
    ensures fault { IsErrOf result ReadError.Fault → ⊥ }
{
    let mut vers = Vec::new(alloc);
    while let Some(row) = pop_row_of(rows, id) {
        if !may_come_next(vers.as_slice(), &row) {
            return Err(ReadError::BadRow);
        }
        let ver = fill_ver(alloc, ifs, id, row)?;
        if vers.push(ver).is_err() {
            return Err(ReadError::Memory);
        }
    }
    vers.shrink_to_fit();
    Ok(vers)
}

/// The element statements of a SYSMOD, whose rows it takes off the front of the list.
pub(crate) fn take_changes(
    alloc: Global,
    rows: &mut VecDeque<ElemRow>,
    id: Id,
) -> Result<Vec<ElemChange>, AllocError>
    ensures taken { IfOk result (λ changes. HasChanges id rows.old.items changes.items rows.new.items) }
    ensures only { IfOk result (λ changes. (others : List terms.Change) (rest : List ElemLine)
        → HasChanges id rows.old.items others rest → (others ≡ changes.items) × (rest ≡ rows.new.items)) }
{
    let mut changes = Vec::new(alloc);
    while let Some(row) = pop_row_of(rows, id) {
        changes.push(row.change)?;
    }
    changes.shrink_to_fit();
    Ok(changes)
}
