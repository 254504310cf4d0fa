//! SYSMODs as in their own rows.

ghost use Rattle.std.specs.Prelude.{◌≡◌, map, IfOk};
ghost use Rattle.store_migration.specs.Moved.{head_of as the_head};
ghost use Rattle.store_migration.specs.TakenOver.{moved_heads};

use fields::{Id, SourceList};
use std::alloc::{AllocError, Global};
use store_schema::Schema;
use sysmods_values::Sysmod;
use terms::Kind;

/// A SYSMOD as in its own row of schema 1.
#[derive(Drop)]
pub struct Head {
    pub id: Id,
    pub kind: Kind,
    pub sources: SourceList,
}

// The SYSMOD as in its own row, with a copy of its sources.
fn copy_head(alloc: Global, sysmod: &Sysmod) -> Result<Head, AllocError>
    ensures { IfOk result (λ head. head ≡ the_head sysmod.now) }
{
    Ok(Head {
        id: sysmod.id,
        kind: sysmod.kind,
        sources: sysmod.sources.try_clone(alloc)?,
    })
}

// Each SYSMOD as in its own row, in their order.
fn copy_heads(alloc: Global, sysmods: &[Sysmod]) -> Result<Vec<Head>, AllocError>
    ensures { IfOk result (λ heads. heads.items ≡ map the_head sysmods.now) }
{
    let mut heads = Vec::with_capacity(alloc, sysmods.len())?;
    for sysmod in sysmods {
        let head = copy_head(alloc, sysmod)?;
        heads.push(head)?;
    }
    Ok(heads)
}

/// The heads of these SYSMODs whose sources move to a table of their own: all of schema 1, and none of a later schema.
pub fn heads_with_moving_sources(
    alloc: Global,
    schema: Schema,
    sysmods: &[Sysmod],
) -> Result<Vec<Head>, AllocError>
    ensures { IfOk result (λ heads. heads.items ≡ moved_heads schema sysmods.now) }
{
    match schema {
        Schema::First => copy_heads(alloc, sysmods),
        _ => Ok(Vec::new(alloc)),
    }
}
