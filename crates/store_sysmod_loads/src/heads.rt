//! SYSMODs without their statements, under each schema. What loads them returns `BadRow` if the rows stand for none,
//! `Memory` if memory runs out, and `Fault` if the disk fails or the tables are others.

ghost use Rattle.std.specs.Prelude.{◌≡◌, ◌≢◌, map, IfOk};
ghost use Rattle.std.specs.List.{AllByRecursion};
ghost use Rattle.store_schema.specs.declared.schema.Schema.{Schema as ARelease};
ghost use Rattle.store_schema.specs.declared.schema.Schema.TheVariants.{First};
ghost use Rattle.store_sysmods.specs.Heads.{HasHeadForms, HasFormsUnder};
ghost use Rattle.store_sysmod_loads.specs.Flats.{head_of};
ghost use Rattle.store_sysmod_loads.specs.Gathered.{HoldHeads};
ghost use Rattle.store_sysmod_loads.specs.Parts.{LoadsPart};

use crate::joining::join_sources;
use sqlite::{Alter, Connection};
use std::alloc::Global;
use std::collections::VecDeque;
use store_rows::ReadError;
use store_schema::Schema;
use store_sysmods::{BareHeads, HeadRow, Heads, Sources, load_sorted};

// The heads with their sources. Schemas 2 and 3 keep these in a table of their own, and the rows of heads have an empty
// column in their place.
fn load_and_join_heads<S: Alter>(
    alloc: Global,
    conn: &mut Connection<S>,
) -> Result<Vec<HeadRow>, ReadError>
    ensures part { (r : ARelease) → r ≢ First → LoadsPart S.Store r
        (λ heads contents. HoldHeads r heads.items contents)
        (λ heads sysmods. heads.items ≡ map head_of sysmods) conn.old conn.new result }
    ensures forms { IfOk result (λ heads. AllByRecursion HasHeadForms heads.items) }
{
    let bare = load_sorted::<S, BareHeads>(alloc, conn)?;
    let sources = load_sorted::<S, Sources>(alloc, conn)?;
    join_sources(alloc, VecDeque::from(bare), VecDeque::from(sources))
}

/// The heads of all SYSMODs with their sources, from the tables of the schema. Under schema 1 the rows of heads have
/// the sources.
pub(crate) fn load_heads<S: Alter>(
    alloc: Global,
    conn: &mut Connection<S>,
    schema: Schema,
) -> Result<Vec<HeadRow>, ReadError>
    ensures part { LoadsPart S.Store schema
        (λ heads contents. HoldHeads schema heads.items contents)
        (λ heads sysmods. heads.items ≡ map head_of sysmods) conn.old conn.new result }
    ensures forms { IfOk result (λ heads. AllByRecursion (HasFormsUnder schema) heads.items) }
{
    match schema {
        Schema::First => load_sorted::<S, Heads>(alloc, conn),
        Schema::Second | Schema::Third => load_and_join_heads(alloc, conn),
    }
}
