//! The needs that no kept candidate serves.
ghost use Rattle.std.specs.Prelude.{◌≡◌, ◌↔◌, ◌<◌, ◌++◌, ℕ, Contains, IfOk, OnOk, length, map};
ghost use Rattle.solve.specs.NeedView.{numbered};
ghost use Rattle.solve.specs.Rows.{row_at};
ghost use Rattle.judge_system.specs.Views.{need_view};
ghost use Rattle.judge_system.specs.Numbered.{need_of};
ghost use Rattle.judge_system.specs.Open.{open_of, AreEachOnce, HaveOpen, AreNeedsOf};

use crate::failure::OpenNeed;
use crate::items::item_at;
use crate::stated::RequisiteOf;
use fields::Id;
use solve::{Kept, Need, System, empty_rows};
use std::alloc::{AllocError, Global};
use terms::NeedKind;

// Adds the need's kind and id to the row of its candidate, unless a kept candidate serves the need.
fn push_unless_served(
    rows: &mut [Vec<(NeedKind, Id)>],
    kept: &Kept,
    need: &Need,
    kind_and_id: (NeedKind, Id),
) -> Result<(), AllocError>
    requires { need.now.of < length rows.old }
    ensures { OnOk result ((x : ℕ) → row_at rows.new x
        ≡ row_at rows.old x ++ open_of kept.now (numbered need.now) (kind_and_id.0, kind_and_id.1) x) }
{
    if !kept.serves(need) {
        rows[need.of as usize].push(kind_and_id)?;
    }
    Ok(())
}

/// For each candidate, the kinds and ids of its needs that no kept candidate serves.
pub(crate) fn open_needs(
    alloc: Global,
    system: &System,
    stated: &[RequisiteOf],
    kept: &Kept,
) -> Result<Vec<Vec<(NeedKind, Id)>>, AllocError>
    requires kept { length kept.now ≡ system.now.size }
    requires stated { length stated.now ≡ length system.now.needs }
    ensures size { IfOk result (λ rows. length rows.items ≡ system.now.size) }
    ensures unserved { IfOk result (λ rows. HaveOpen kept.now system.now.needs (map need_of stated.now)
        (length stated.now) rows.items) }
{
    let mut rows = empty_rows(alloc, system.size())?;
    let needs = system.needs();
    for i in 0..needs.len() {
        let need = item_at(stated, i);
        push_unless_served(&mut rows, kept, &needs[i], (need.kind, need.id))?;
    }
    Ok(rows)
}

// The needs sorted by kind and id, each once.
fn sorted_without_doubles(mut needs: Vec<(NeedKind, Id)>) -> Vec<(NeedKind, Id)>
    ensures { AreEachOnce needs.items result.items }
{
    needs.sort_unstable();
    needs.dedup();
    needs
}

/// The needs as a failure lists them: sorted by kind and id, each once.
pub(crate) fn sorted_open_needs(
    alloc: Global,
    unserved: &[(NeedKind, Id)],
) -> Result<Vec<OpenNeed>, AllocError>
    ensures { IfOk result (λ needs. AreNeedsOf unserved.now (map need_view needs.items)) }
{
    sorted_without_doubles(Vec::from_slice(alloc, unserved)?)
        .into_iter()
        .map(|(kind, id)| OpenNeed { kind, id })
        .collect(alloc)
}
