//! All rows of SYSMODs, and the SYSMODs for which they stand. What loads them returns `BadRow` if the rows stand for
//! none, `Memory` if memory runs out, and `Fault` if the disk fails or the tables are others.

ghost use Rattle.std.specs.Prelude.{◌≡◌, List, IfOk, IsErrOf};
ghost use Rattle.terms.specs.Types.{Sysmod as SysmodTerm};
ghost use Rattle.store_sysmod_loads.specs.Runs.{AreBare};
ghost use Rattle.store_sysmod_loads.specs.Flats.{AreWhole};
ghost use Rattle.store_sysmod_loads.specs.Gathered.{HaveForms, HoldRows, HasRows, IsGathered};
ghost use Rattle.store_sysmod_loads.specs.Parts.{LoadsPart};

use crate::building::take_all_sysmods;
use crate::heads::load_heads;
use crate::loading::load_firsts_and_furthers;
use sorted::are_rising;
use sqlite::{Alter, Connection};
use std::alloc::Global;
use std::collections::VecDeque;
use store_rows::ReadError;
use store_schema::Schema;
use store_sysmods::{ElemRow, Elems, HeadRow, IfRow, VerRow, load_sorted};
use sysmods_values::Sysmod;

/// The rows of SYSMODs and of their statements, each by their keys.
#[derive(Drop)]
pub(crate) struct FlatRows {
    pub heads: Vec<HeadRow>,
    pub vers: Vec<VerRow>,
    pub ifs: Vec<IfRow>,
    pub elems: Vec<ElemRow>,
}

/// All rows of SYSMODs and of their statements, from the tables of the schema.
pub(crate) fn load_rows<S: Alter>(
    alloc: Global,
    conn: &mut Connection<S>,
    schema: Schema,
) -> Result<FlatRows, ReadError>
    ensures part { LoadsPart S.Store schema (HoldRows schema) HasRows conn.old conn.new result }
    ensures forms { IfOk result (HaveForms schema) }
{
    let heads = load_heads(alloc, conn, schema)?;
    let vers = load_firsts_and_furthers::<S, VerRow>(alloc, conn, schema)?;
    let ifs = load_firsts_and_furthers::<S, IfRow>(alloc, conn, schema)?;
    let elems = load_sorted::<S, Elems>(alloc, conn)?;
    Ok(FlatRows {
        heads,
        vers,
        ifs,
        elems,
    })
}

/// The SYSMODs whose rows these are. Returns `BadRow` if two SYSMODs have one id, if the rows of one stand for no
/// SYSMOD, or if a row belongs to none, and `Memory` if memory runs out. It never returns `Fault`.
pub(crate) fn gather_sysmods(alloc: Global, rows: FlatRows) -> Result<Vec<Sysmod>, ReadError>
    requires { AreBare rows.vers.items }
    ensures taken { IfOk result (λ sysmods. IsGathered rows sysmods.items) }
    ensures only { IfOk result (λ sysmods. (others : List SysmodTerm) → AreWhole others → HasRows rows others
        → others ≡ sysmods.items) }
    ensures none { IsErrOf result ReadError.BadRow → (others : List SysmodTerm) → AreWhole others
        → ¬ HasRows rows others }
    ensures fault { IsErrOf result ReadError.Fault → ⊥ }
{
    if !are_rising(rows.heads.as_slice()) {
        return Err(ReadError::BadRow);
    }
    let mut heads = VecDeque::from(rows.heads);
    let mut vers = VecDeque::from(rows.vers);
    let mut ifs = VecDeque::from(rows.ifs);
    let mut elems = VecDeque::from(rows.elems);
    take_all_sysmods(alloc, &mut heads, &mut vers, &mut ifs, &mut elems)
}
