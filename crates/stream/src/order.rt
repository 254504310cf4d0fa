//! The SYSMODs of the stream in an order in which each comes after all that it names.
ghost use Rattle.std.specs.Prelude.{◌≡◌, ◌++◌, [], ◌∷◌, List, ℕ, find, Contains, All, IfOk, IfSome, IfNone, OnOk};
ghost use Rattle.terms.specs.Over.{names};
ghost use Rattle.terms.specs.Stream.{IsInStream};
ghost use Rattle.sysmods.specs.Choices.{choice};
ghost use Rattle.stream.specs.Ordering.{is_open, IsOrder, IsPlacing, GoesOn};

use crate::first_vers::is_in_stream;
use crate::naming::named_ids;
use fields::{Attest, Id};
use indexmap::IndexSet;
use std::alloc::{AllocError, Global};
use sysmods::VerChoice;

/// Whether the id is a SYSMOD of the stream without a place among these.
pub(crate) fn is_open(vers: &VerChoice<'_>, placed: &IndexSet<Id>, id: Id) -> bool
    ensures { result ≡ is_open (choice vers.now) placed.now.keys id }
{
    !placed.contains(&id) && is_in_stream(vers, id)
}

// The first of these ids that is a SYSMOD of the stream without a place.
fn first_open(vers: &VerChoice<'_>, placed: &IndexSet<Id>, ids: &[Id]) -> Option<Id>
    ensures { result ≡ find (is_open (choice vers.now) placed.now.keys) ids.now }
{
    for id in ids {
        if is_open(vers, placed, *id) {
            return Some(*id);
        }
    }
    None
}

// The first SYSMOD of the stream without a place that this one names.
fn next_to_place(
    alloc: Global,
    vers: &VerChoice<'_>,
    placed: &IndexSet<Id>,
    id: Id,
) -> Result<Option<Id>, AllocError>
    ensures { IfOk result (λ next. next ≡ find (is_open (choice vers.now) placed.now.keys)
        (names (choice vers.now) id)) }
{
    let named = named_ids(alloc, vers, id)?;
    Ok(first_open(vers, placed, named.as_slice()))
}

// Takes the last id off the path.
fn take_last(path: &mut Vec<Id>) -> Option<Id>
    ensures last { IfSome result (λ x. path.old.items ≡ path.new.items ++ x ∷ []) }
    ensures none { IfNone result (path.old.items ≡ []) }
{
    path.pop()
}

// Gives the id, which was the last one of the path, its place, if all that it names has one. Otherwise the path goes on
// after it with an id that has none.
fn place_or_go_on(
    alloc: Global,
    vers: &VerChoice<'_>,
    last: Id,
    path: &mut Vec<Id>,
    placed: &mut IndexSet<Id>,
) -> Result<(), AllocError>
    requires { IsPlacing (choice vers.now) placed.old.keys (path.old.items ++ last ∷ []) }
    ensures { OnOk result (GoesOn (choice vers.now) placed.old.keys (path.old.items ++ last ∷ []) placed.new.keys
        path.new.items) }
{
    vers.global().attest();
    match next_to_place(alloc, vers, placed, last)? {
        Some(next) => {
            path.push(last)?;
            path.push(next)?;
            Ok(())
        }
        None => {
            placed.insert(last)?;
            Ok(())
        }
    }
}

// Gives the SYSMOD its place, after all those of the stream to which it leads. No id is on the path twice, because
// SYSMODs make no loop.
fn place_with_named(
    alloc: Global,
    vers: &VerChoice<'_>,
    id: Id,
    placed: &mut IndexSet<Id>,
) -> Result<(), AllocError>
    requires stream { IsInStream (choice vers.now) id }
    requires order { IsOrder (choice vers.now) placed.old.keys }
    ensures order { OnOk result (IsOrder (choice vers.now) placed.new.keys) }
    ensures placed { OnOk result (Contains placed.new.keys id) }
    ensures kept { OnOk result ((x : List ℕ) → Contains placed.old.keys x → Contains placed.new.keys x) }
{
    if placed.contains(&id) {
        return Ok(());
    }
    vers.global().attest();
    let mut path = vec![in alloc; id]?;
    // It takes two turns at most for each SYSMOD, so the bound is never reached.
    for _turn in 0..u64::MAX {
        let Some(last) = take_last(&mut path) else {
            return Ok(());
        };
        place_or_go_on(alloc, vers, last, &mut path, placed)?;
    }
    unreachable!()
}

/// These SYSMODs of the stream, and all those to which they lead, in an order in which none is over a later one.
pub(crate) fn in_order(
    alloc: Global,
    vers: &VerChoice<'_>,
    ids: &[Id],
) -> Result<IndexSet<Id>, AllocError>
    requires { All (IsInStream (choice vers.now)) ids.now }
    ensures order { IfOk result (λ placed. IsOrder (choice vers.now) placed.keys) }
    ensures all { IfOk result (λ placed. All (Contains placed.keys) ids.now) }
{
    let mut placed = IndexSet::new(alloc);
    for id in ids {
        place_with_named(alloc, vers, *id, &mut placed)?;
    }
    Ok(placed)
}
