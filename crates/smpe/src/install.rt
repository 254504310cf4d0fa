//! APPLY and ACCEPT: the selected SYSMODs go into the zone of the boundary.
ghost use Rattle.std.specs.Prelude.{◌≡◌, false, IfOk};
ghost use Rattle.terms.specs.Types.{Install as AnInstall};
ghost use Rattle.machine.specs.Outcome.{header_of};
ghost use Rattle.machine.specs.Machine.{Files};
ghost use Rattle.report.specs.Views.{header_view};
ghost use Rattle.smpe_session.specs.Sessions.{IsSessionOf, HasPerformed};
ghost use Rattle.smpe_session.specs.Places.{install_command};
ghost use Rattle.smpe_session.specs.Uses.{UsesStore};
ghost use Rattle.smpe_session.specs.Writing.{AnswersAt, TellsRun};
ghost use Rattle.store.specs.Own.{IsOfZone};

use cntl::Install;
use fields::{YyDdd, ZoneName};
use report::{Header, Outcome};
use smpe_service::{InstallChange, apply};
use smpe_session::{Session, ZoneChange, lines_or_nothing};
use sqlite::Alter;
use std::alloc::Global;
use store::{Store, StoreError};
use terms::{CommandWord, ZoneKind};

// The header of the command that installs into a zone of this kind.
fn install_header(kind: ZoneKind, boundary: Option<ZoneName>, check: bool) -> Header
    ensures view { (i : AnInstall) → i.check ≡ check
        → header_view result ≡ header_of (install_command kind i) boundary }
    ensures check { result.check ≡ check }
    ensures boundary { result.boundary ≡ boundary }
{
    let word = match kind {
        ZoneKind::Target => CommandWord::Apply,
        ZoneKind::Distribution => CommandWord::Accept,
    };
    Header {
        word,
        boundary,
        check,
    }
}

/// Performs an APPLY into a target zone or an ACCEPT into a distribution zone, and commits its change unless it only
/// checks. A refusal is an outcome too. The errors are those of `perform`.
pub(crate) fn install<S: Alter>(
    alloc: Global,
    session: &mut Session,
    store: &mut Store<S>,
    date: YyDdd,
    kind: ZoneKind,
    operands: &Install,
) -> Result<Outcome<'static>, StoreError>
    ensures uses { UsesStore S.Store store.old store.new
        (λ own. IsOfZone own × (operands.now.check ≡ false) × IfOk result (TellsRun own))
        (λ s ended. IsSessionOf s session.old → (files : Files)
        → HasPerformed S.Store store.old store.new s session.new date files
        (install_command kind operands.now) ended) result }
    ensures header { IfOk result (AnswersAt (install_command kind operands.now) session.old.boundary
        session.new.boundary) }
{
    let related = session.load_related_zone(store, kind)?;
    let header = install_header(kind, session.boundary, operands.check);
    let place = match session.boundary_zone(kind) {
        Ok(place) => place,
        Err(refusal) => return Ok(Outcome::Refused { header, refusal }),
    };
    let name = place.name;
    let InstallChange { delta, lines } = apply(
        alloc,
        &session.global,
        place.zone,
        session.zone_at(related),
        &operands.selection,
        &operands.bypass,
        date,
    )?;
    let lines = lines_or_nothing(lines)?;
    session.carry_out(alloc, store, header, ZoneChange { name, delta }, lines)
}
