//! RESTORE: SYSMODs leave the target zone of the boundary, which goes back to the level of its distribution zone.
ghost use Rattle.std.specs.Prelude.{◌≡◌, false, IfOk};
ghost use Rattle.terms.specs.Types.{Text, Restore};
ghost use Rattle.fields.specs.Choices.{restore_list_of};
ghost use Rattle.machine.specs.Machine.{Files};
ghost use Rattle.smpe_session.specs.Sessions.{IsSessionOf, HasPerformed};
ghost use Rattle.smpe_session.specs.Uses.{UsesStore};
ghost use Rattle.smpe_session.specs.Writing.{AnswersAt, TellsRun};
ghost use Rattle.store.specs.Own.{IsOfZone};

use fields::RestoreList;
use report::{Header, Outcome, Refusal};
use smpe_service::Restored;
use smpe_session::{Session, ZoneChange};
use sqlite::Alter;
use std::alloc::Global;
use store::{Store, StoreError};
use terms::{CommandWord, ZoneKind};

/// Performs a RESTORE of a list from the target zone of the boundary, and commits its change unless it only checks. A
/// refusal is an outcome too. The errors are those of `perform`.
pub(crate) fn restore<S: Alter>(
    alloc: Global,
    session: &mut Session,
    store: &mut Store<S>,
    list: &RestoreList,
    check: bool,
) -> Result<Outcome<'static>, StoreError>
    ensures uses { UsesStore S.Store store.old store.new (λ own. IsOfZone own × (check ≡ false)
        × IfOk result (TellsRun own))
        (λ s ended. IsSessionOf s session.old → (date : Text) (files : Files)
        → HasPerformed S.Store store.old store.new s session.new date files (Restore (restore_list_of list.now) check)
        ended) result }
    ensures header { IfOk result (AnswersAt (Restore (restore_list_of list.now) check) session.old.boundary
        session.new.boundary) }
{
    let distribution_name = session.load_distribution_zone(store)?;
    let header = Header {
        word: CommandWord::Restore,
        boundary: session.boundary,
        check,
    };
    let place = match session.boundary_zone(ZoneKind::Target) {
        Ok(place) => place,
        Err(refusal) => return Ok(Outcome::Refused { header, refusal }),
    };
    let Some(distribution) = session.zone_at(distribution_name) else {
        // (this does not happen, because each target zone has a distribution zone)
        let refusal = Refusal::WrongKind;
        return Ok(Outcome::Refused { header, refusal });
    };
    let name = place.name;
    let Restored { delta, lines } = smpe_service::restore(
        alloc,
        &session.global,
        place.zone,
        distribution,
        list,
    )?;
    session.carry_out(alloc, store, header, ZoneChange { name, delta }, lines)
}
