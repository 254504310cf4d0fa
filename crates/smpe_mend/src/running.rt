//! The command of a repair.
ghost use Rattle.std.specs.Prelude.{◌≡◌, [], map, IfOk, OnOk};
ghost use Rattle.fields.specs.Choices.{reasons_in};
ghost use Rattle.report.specs.Views.{line_view};
ghost use Rattle.smpe_mend.specs.Runs.{asked_of};
ghost use Rattle.smpe_mend.specs.Actions.{reasons};
ghost use Rattle.smpe_mend.specs.Runs.{AreReasons, IsBypassOf, Runs, RunsWith, selecting};

use crate::action::{Action, orders, reasons};
use crate::broken::Broken;
use crate::stand_in::receive_stand_in;
use fields::{Attest, Bypass, Id, IdList, ReasonList, Reasons, Selection, YyDdd};
use report::ReportLine;
use smpe_service::{InstallChange, apply};
use std::alloc::{AllocError, Global};
use sysmods::GlobalZone;
use terms::HoldKind;

// The year of the installs. Any date will do, because no line contains it.
const ANY_YEAR: u16 = 2000;

// The day of the installs in that year.
const ANY_DAY: u16 = 1;

// The member of BYPASS for this kind of hold.
fn bypassed_reasons(
    alloc: Global,
    kind: HoldKind,
    actions: &[Action],
) -> Result<Reasons, AllocError>
    ensures { IfOk result (λ member. AreReasons (reasons kind actions.now) (reasons_in member)) }
{
    let reasons = reasons(alloc, kind, actions)?;
    if reasons.is_empty() {
        return Ok(Reasons::None);
    }
    Ok(Reasons::These(ReasonList::from_vec(reasons)))
}

// The BYPASS of these actions.
fn bypass_of(alloc: Global, actions: &[Action]) -> Result<Bypass, AllocError>
    ensures { IfOk result (λ bypass. IsBypassOf actions.now bypass) }
{
    let holderror = bypassed_reasons(alloc, HoldKind::Error, actions)?;
    let holdsystem = bypassed_reasons(alloc, HoldKind::System, actions)?;
    let holduser = bypassed_reasons(alloc, HoldKind::User, actions)?;
    Ok(Bypass {
        holderror,
        holdsystem,
        holduser,
        ..Bypass::none(alloc)
    })
}

// The selection of these ids by SELECT, with GROUPEXTEND.
fn selection_of(alloc: Global, ids: &IdList) -> Result<Selection, AllocError>
    ensures { IfOk result (λ s. s ≡ selecting ids.now) }
{
    let mut selection = Selection::none(alloc);
    selection.select = ids.try_clone(alloc)?;
    selection.groupextend = true;
    Ok(selection)
}

// The lines of an APPLY or ACCEPT by this selection. No line contains the date, so any date will do.
fn install_lines(
    alloc: Global,
    global: &GlobalZone,
    broken: &Broken<'_>,
    bypass: &Bypass,
) -> Result<Vec<ReportLine>, AllocError>
    ensures { IfOk result (λ lines. RunsWith global.now (asked_of broken.now) [] bypass.now
        (map line_view lines.items)) }
{
    let selection = selection_of(alloc, broken.ids)?;
    let date = YyDdd::new(ANY_YEAR, ANY_DAY);
    let InstallChange { delta, lines } = apply(
        alloc,
        global,
        broken.zone,
        broken.related,
        &selection,
        bypass,
        date,
    )?;
    // (for the clause: the edits of the delta have the form of edits, so they turn this zone into a new one)
    delta.attest();
    broken.zone.attest();
    Ok(lines)
}

// The lines of the command after what stands in for each of these ids was received. The global zone is as before.
fn lines_with_orders(
    alloc: Global,
    global: &mut GlobalZone,
    broken: &Broken<'_>,
    bypass: &Bypass,
    ordered: &[Id],
) -> Result<Vec<ReportLine>, AllocError>
    ensures lines { IfOk result (λ lines. RunsWith global.old (asked_of broken.now) ordered.now bypass.now
        (map line_view lines.items)) }
    ensures back { OnOk result (global.new ≡ global.old) }
{
    let Some((id, rest)) = ordered.split_first() else {
        return install_lines(alloc, global, broken, bypass);
    };
    // (for the clause: the id of a SYSMOD that was new is found nowhere in the zone)
    global.attest();
    if !receive_stand_in(alloc, global, broken.zone.srel(), *id)? {
        return lines_with_orders(alloc, global, broken, bypass, rest);
    }
    let lines = lines_with_orders(alloc, global, broken, bypass, rest)?;
    let _ = global.reject(*id);
    Ok(lines)
}

/// The lines of the command with these actions. The global zone is as before.
pub(crate) fn run(
    alloc: Global,
    global: &mut GlobalZone,
    broken: &Broken<'_>,
    actions: &[Action],
) -> Result<Vec<ReportLine>, AllocError>
    ensures lines { IfOk result (λ lines. Runs global.old (asked_of broken.now) actions.now
        (map line_view lines.items)) }
    ensures back { OnOk result (global.new ≡ global.old) }
{
    let bypass = bypass_of(alloc, actions)?;
    let ordered = orders(alloc, actions)?;
    lines_with_orders(alloc, global, broken, &bypass, &ordered)
}
