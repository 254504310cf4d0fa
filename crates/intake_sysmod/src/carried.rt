//! SYSMODs as they are carried, except for their holds.
ghost use Rattle.std.specs.Prelude.{◌≡◌, [], IfOk, IfSome, IsTrue, All};
ghost use Rattle.intake_sysmod.specs.NoLooser.{IsHarmlessOther, IsNoLooser};

use crate::changes::add_elements;
use crate::ids::read_id_or_remark;
use crate::others::tell_other_statements;
use crate::passing::{MOST_ELEMENTS, tell_passed_over};
use crate::users::Users;
use crate::vers::read_vers;
use fields::spelling::kind_text;
use intake_cards::{Deed, RemarkReason, Remarks, Subject};
use intake_elements::{Options, are_all_read, are_both};
use intake_read::{WideSysmod, tell_dropped_operands, tell_faulty_operands};
use std::alloc::{AllocError, Global};
use sysmods_values::{Sysmod, Ver};

// The header, as remarks name it.
fn header_subject(stated: &WideSysmod) -> Subject<'_> {
    Subject {
        place: stated.place,
        word: kind_text(stated.kind),
        id: stated.id.as_slice(),
    }
}

// Whether the header, the statements that are carried nowhere and the number of elements let the SYSMOD be carried.
// Remarks say what is dropped, and why the SYSMOD is left out.
fn can_carry_header_and_others(
    alloc: Global,
    options: &Options,
    remarks: &mut Remarks,
    stated: &WideSysmod,
) -> Result<bool, AllocError>
    ensures { IfOk result (λ can. IsTrue can → (stated.now.faulty.items ≡ [])
        × All (IsHarmlessOther options.now.decide) stated.now.others.items) }
{
    let subject = header_subject(stated);
    tell_dropped_operands(alloc, remarks, &subject, stated.dropped.as_slice())?;
    let faulty = stated.faulty.as_slice();
    tell_faulty_operands(alloc, remarks, &subject, faulty, Deed::LeftOut)?;
    let may_lack_others = tell_other_statements(alloc, options, remarks, stated.others.as_slice())?;
    if stated.elements.len() > MOST_ELEMENTS && !options.decide {
        remarks.tell_left_out(alloc, &subject, b"", RemarkReason::TooMany, b"")?;
        return Ok(false);
    }
    Ok(are_both(are_all_read(faulty), may_lack_others))
}

// The SYSMOD with these `++VER`s.
fn with_vers(sysmod: Sysmod, vers: Vec<Ver>) -> Sysmod
    ensures { result ≡ record sysmod { vers = vers.items } }
{
    Sysmod {
        id: sysmod.id,
        kind: sysmod.kind,
        sources: sysmod.sources,
        vers,
        changes: sysmod.changes,
        holds: sysmod.holds,
    }
}

// The SYSMOD without its holds. Returns `None`, with remarks on all reasons, if it cannot be carried.
fn try_to_carry(
    alloc: Global,
    options: &Options,
    users: &Users<'_>,
    remarks: &mut Remarks,
    stated: &WideSysmod,
) -> Result<Option<Sysmod>, AllocError>
    ensures { IfOk result (λ found. IfSome found (λ sysmod.
        IsNoLooser options.now.decide users.now stated.now sysmod × (sysmod.holds ≡ []))) }
{
    let subject = header_subject(stated);
    let is_carriable = can_carry_header_and_others(alloc, options, remarks, stated)?;
    let vers = read_vers(alloc, remarks, &subject, stated)?;
    let Some(id) = read_id_or_remark(alloc, remarks, &subject, b"", stated.id.as_slice())? else {
        return Ok(None);
    };
    let mut sysmod = Sysmod::new(alloc, stated.kind, id);
    let added_all = add_elements(alloc, options, users, remarks, stated, &mut sysmod)?;
    let Some(vers) = vers else {
        return Ok(None);
    };
    if !are_both(added_all, is_carriable) {
        return Ok(None);
    }
    tell_passed_over(alloc, options, users, remarks, &subject, stated)?;
    if sysmod.changes.len() > MOST_ELEMENTS {
        remarks.tell_left_out(alloc, &subject, b"", RemarkReason::TooMany, b"")?;
        return Ok(None);
    }
    Ok(Some(with_vers(sysmod, vers)))
}

// Remarks that a SYSMOD is left out, and counts it if it has elements, NPRE or DELETE, which could keep others from
// being installed.
fn tell_sysmod_left_out(
    alloc: Global,
    remarks: &mut Remarks,
    stated: &WideSysmod,
) -> Result<(), AllocError> {
    let subject = header_subject(stated);
    remarks.tell_left_out(alloc, &subject, b"", RemarkReason::WholeSysmod, b"")?;
    let forbids = !stated.elements.is_empty()
        || stated
            .vers
            .iter()
            .any(|ver| !ver.npre.is_empty() || !ver.delete.is_empty());
    if forbids {
        remarks.forbidding = remarks.forbidding.saturating_add(1);
    }
    Ok(())
}

/// The SYSMOD without its holds. Remarks say what differs. Returns `None`, with remarks on all reasons, if it is left
/// out. Call `Options::sort_members` first.
pub fn carry_sysmod(
    alloc: Global,
    options: &Options,
    users: &Users<'_>,
    remarks: &mut Remarks,
    stated: &WideSysmod,
) -> Result<Option<Sysmod>, AllocError>
    ensures { IfOk result (λ found. IfSome found (λ sysmod.
        IsNoLooser options.now.decide users.now stated.now sysmod × (sysmod.holds ≡ []))) }
{
    let mut sysmod_remarks = Remarks::new(alloc);
    let Some(sysmod) = try_to_carry(alloc, options, users, &mut sysmod_remarks, stated)? else {
        remarks.append_causes(alloc, sysmod_remarks)?;
        tell_sysmod_left_out(alloc, remarks, stated)?;
        return Ok(None);
    };
    if sysmod_remarks.stand_ins > 0 {
        sysmod_remarks.with_stand_ins.push(sysmod.id)?;
    }
    remarks.append(sysmod_remarks)?;
    Ok(Some(sysmod))
}
