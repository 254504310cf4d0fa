//! What stands in for a SYSMOD that is ordered.
ghost use Rattle.std.specs.Prelude.{◌≡◌, Ok, Err, IfOk, IsTrue, IsFalse, false, is_some};
ghost use Rattle.sysmods.specs.Refused.{fault_of};
ghost use Rattle.terms.specs.Global.{Receives, ReceiveFault};
ghost use Rattle.smpe_mend.specs.Runs.{kind_for, stand_in};

use fields::{Id, IdList, SourceList, Srel};
use std::alloc::{AllocError, Global};
use sysmods::{GlobalZone, Refused};
use sysmods_values::{Sysmod, Ver};
use terms::Kind;

// The kind of what is ordered: a function if a received SYSMOD names it as one, and otherwise a PTF.
fn kind_for(alloc: Global, global: &GlobalZone, id: Id) -> Result<Kind, AllocError>
    ensures { IfOk result (λ kind. kind ≡ kind_for global.now id) }
{
    let mut namers = Vec::new(alloc);
    global.append_function_namers(id, &mut namers)?;
    if namers.is_empty() {
        Ok(Kind::Ptf)
    } else {
        Ok(Kind::Function)
    }
}

// A SYSMOD without requisites and without elements.
fn stand_in(alloc: Global, srel: Srel, kind: Kind, id: Id) -> Result<Sysmod, AllocError>
    ensures { IfOk result (λ s. s ≡ stand_in srel kind id) }
{
    let ver = Ver {
        srel,
        fmid: None,
        pre: IdList::new(alloc),
        req: IdList::new(alloc),
        sup: IdList::new(alloc),
        npre: IdList::new(alloc),
        del: IdList::new(alloc),
        ifs: Vec::new(alloc),
    };
    let mut vers = Vec::new(alloc);
    vers.push(ver)?;
    Ok(Sysmod {
        id,
        kind,
        sources: SourceList::new(alloc),
        vers,
        changes: Vec::new(alloc),
        holds: Vec::new(alloc),
    })
}

// `false` for a fault of the SYSMOD, and an error if memory ran out.
fn refusal_as_false(why: Refused) -> Result<bool, AllocError>
    ensures { IfOk result (λ received. (received ≡ false) × IsTrue (is_some (fault_of why))) }
{
    match why {
        Refused::Memory => Err(AllocError),
        Refused::AlreadyReceived => Ok(false),
        Refused::MakesLoop => Ok(false),
        Refused::WrongRole => Ok(false),
        Refused::NoRoom => Ok(false),
    }
}

/// Receives what stands in for this id, and returns whether it was received. If RECEIVE refuses it, nothing changes.
pub(crate) fn receive_stand_in(
    alloc: Global,
    global: &mut GlobalZone,
    srel: Srel,
    id: Id,
) -> Result<bool, AllocError>
    ensures received { IfOk result (λ received. IsTrue received
        → Receives global.old (stand_in srel (kind_for global.old id) id) (Ok global.new)) }
    ensures refused { IfOk result (λ received. IsFalse received
        → ((f : ReceiveFault) × Receives global.old (stand_in srel (kind_for global.old id) id) (Err f))
        × (global.new ≡ global.old)) }
{
    let kind = kind_for(alloc, global, id)?;
    let sysmod = stand_in(alloc, srel, kind, id)?;
    match global.receive(alloc, sysmod) {
        Ok(()) => Ok(true),
        Err(why) => refusal_as_false(why),
    }
}
