//! What APPLY and ACCEPT choose.
ghost use Rattle.std.specs.Prelude.{◌≡◌, ◌≢◌, [], ◌∷◌, IsTrue, IfOk, All, None, codes, map};
ghost use Rattle.intake_asked.specs.Words.{has, listed, selected, grouped, excluded, sources, sources_of};
ghost use Rattle.intake_asked.specs.Words.{groupextend_names};
ghost use Rattle.intake_asked.specs.Said.{known_in, AreThese, SaysLists, SaysSelection};

use crate::known::KnownSysmod;
use crate::lists::{excluded_ids, grouped_ids, groupextend_names, selected_ids};
use crate::operands::{has_operand, members_of_operands};
use crate::same::are_wanted_texts;
use crate::sources::sources_of_members;
use fields::{Id, Selection, Source};
use intake_read::WideOperand;
use std::alloc::{AllocError, Global};

// The known SYSMODs, or an empty list if none are given.
fn known_sysmods(known: &Option<Vec<KnownSysmod>>) -> &[KnownSysmod]
    ensures { result.now ≡ known_in known.now }
{
    match known {
        Some(known) => known.as_slice(),
        None => &[],
    }
}

// Whether each type, and GROUPEXTEND, is chosen if and only if an operand asks for it.
fn says_types(operands: &[WideOperand], selection: &Selection) -> bool
    ensures functions { IsTrue result
        → selection.now.functions ≡ has (codes "FUNCTIONS" ∷ codes "FUNCTION" ∷ []) operands.now }
    ensures ptfs { IsTrue result → selection.now.ptfs ≡ has (codes "PTFS" ∷ codes "PTF" ∷ []) operands.now }
    ensures apars { IsTrue result → selection.now.apars ≡ has (codes "APARS" ∷ codes "APAR" ∷ []) operands.now }
    ensures usermods { IsTrue result
        → selection.now.usermods ≡ has (codes "USERMODS" ∷ codes "USERMOD" ∷ []) operands.now }
    ensures groupextend { IsTrue result → selection.now.groupextend ≡ has groupextend_names operands.now }
{
    selection.functions == has_operand(&[b"FUNCTIONS", b"FUNCTION"], operands)
        && selection.ptfs == has_operand(&[b"PTFS", b"PTF"], operands)
        && selection.apars == has_operand(&[b"APARS", b"APAR"], operands)
        && selection.usermods == has_operand(&[b"USERMODS", b"USERMOD"], operands)
        && selection.groupextend == has_operand(groupextend_names(), operands)
}

// Whether the ids are exactly those of SELECT, or there are none because a GROUP without a list takes them.
fn says_select(alloc: Global, operands: &[WideOperand], ids: &[Id]) -> Result<bool, AllocError>
    ensures { IfOk result (λ are. IsTrue are → AreThese ids.now (selected operands.now)) }
{
    let wanted = selected_ids(alloc, operands)?;
    are_wanted_texts(alloc, ids, &wanted)
}

// Whether the ids are exactly those of GROUP, with those of SELECT if GROUP has no list.
fn says_group(alloc: Global, operands: &[WideOperand], ids: &[Id]) -> Result<bool, AllocError>
    ensures { IfOk result (λ are. IsTrue are → AreThese ids.now (grouped operands.now)) }
{
    let wanted = grouped_ids(alloc, operands)?;
    are_wanted_texts(alloc, ids, &wanted)
}

// Whether the ids are exactly those that EXCLUDE names or GROUPEXTEND keeps out.
fn says_exclude(
    alloc: Global,
    known: &[KnownSysmod],
    operands: &[WideOperand],
    ids: &[Id],
) -> Result<bool, AllocError>
    ensures { IfOk result (λ are. IsTrue are → AreThese ids.now (excluded known.now operands.now)) }
{
    let wanted = excluded_ids(alloc, known, operands)?;
    are_wanted_texts(alloc, ids, &wanted)
}

// Whether the ids are exactly those of FORFMID.
fn says_forfmid(alloc: Global, operands: &[WideOperand], ids: &[Id]) -> Result<bool, AllocError>
    ensures { IfOk result (λ are. IsTrue are → AreThese ids.now (listed (codes "FORFMID" ∷ []) operands.now)) }
{
    let wanted = members_of_operands(alloc, &[b"FORFMID"], operands)?;
    are_wanted_texts(alloc, ids, &wanted)
}

// Whether the source ids are exactly those that SOURCEID names, and each member of SOURCEID names some.
fn says_sources(
    alloc: Global,
    known: &[KnownSysmod],
    operands: &[WideOperand],
    source_ids: &[Source],
) -> Result<bool, AllocError>
    ensures same { IfOk result (λ are. IsTrue are → AreThese source_ids.now (sources known.now operands.now)) }
    ensures known { IfOk result (λ are. IsTrue are → All (λ m. sources_of known.now m ≢ [])
        (listed (codes "SOURCEID" ∷ []) operands.now)) }
{
    let members = members_of_operands(alloc, &[b"SOURCEID"], operands)?;
    let Some(wanted) = sources_of_members(alloc, known, &members)? else {
        return Ok(false);
    };
    are_wanted_texts(alloc, source_ids, &wanted)
}

// Whether it is known which SYSMODs GROUPEXTEND keeps out: a list of known SYSMODs is given, or GROUPEXTEND has no
// member and keeps none out.
fn knows_kept_out_ids(
    alloc: Global,
    known: &Option<Vec<KnownSysmod>>,
    operands: &[WideOperand],
) -> Result<bool, AllocError>
    ensures { IfOk result (λ knows. IsTrue knows → (known.now ≡ None) → listed groupextend_names operands.now ≡ []) }
{
    if known.is_some() {
        return Ok(true);
    }
    Ok(members_of_operands(alloc, groupextend_names(), operands)?.is_empty())
}

// Whether SELECT, GROUP, EXCLUDE and FORFMID of the selection have exactly the ids that the operands ask for.
fn says_lists(
    alloc: Global,
    known: &[KnownSysmod],
    operands: &[WideOperand],
    selection: &Selection,
) -> Result<bool, AllocError>
    ensures { IfOk result (λ are. IsTrue are → SaysLists known.now operands.now selection.now) }
{
    if !says_select(alloc, operands, selection.select.as_slice())? {
        return Ok(false);
    }
    if !says_group(alloc, operands, selection.group.as_slice())? {
        return Ok(false);
    }
    if !says_exclude(alloc, known, operands, selection.exclude.as_slice())? {
        return Ok(false);
    }
    says_forfmid(alloc, operands, selection.forfmid.as_slice())
}

/// Whether the selection chooses exactly what the operands ask for.
pub(crate) fn says_selection(
    alloc: Global,
    known: &Option<Vec<KnownSysmod>>,
    operands: &[WideOperand],
    selection: &Selection,
) -> Result<bool, AllocError>
    ensures { IfOk result (λ says. IsTrue says → SaysSelection known.now operands.now selection.now) }
{
    let list = known_sysmods(known);
    if !says_lists(alloc, list, operands, selection)? {
        return Ok(false);
    }
    if !says_sources(alloc, list, operands, selection.sourceid.as_slice())? {
        return Ok(false);
    }
    if !knows_kept_out_ids(alloc, known, operands)? {
        return Ok(false);
    }
    Ok(says_types(operands, selection))
}
