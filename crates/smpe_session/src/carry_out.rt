//! How an APPLY, ACCEPT or RESTORE is carried out.
ghost use Rattle.std.specs.Prelude.{◌≡◌, false, IfOk, Some, map, Option};
ghost use Rattle.terms.specs.Types.{Text, Command, Zone as AZone};
ghost use Rattle.zones_maps.specs.Delta.{KnowsStood};
ghost use Rattle.machine.specs.Machine.{Files};
ghost use Rattle.machine.specs.Outcome.{Ran, header_of};
ghost use Rattle.report.specs.Views.{line_view, header_view};
ghost use Rattle.smpe_session.specs.Sessions.{IsSessionOf, HasPerformed};
ghost use Rattle.smpe_session.specs.Places.{ChangesZone};
ghost use Rattle.smpe_session.specs.Uses.{UsesStore};
ghost use Rattle.smpe_session.specs.Writing.{TellsOutcomeOf, TellsRun};
ghost use Rattle.store.specs.Own.{IsOfZone};

use crate::commit::commit_change;
use crate::session::Session;
use fields::{Attest, ZoneName};
use report::{Header, Outcome, ReportLine};
use sqlite::Alter;
use std::alloc::Global;
use store::{Change, Store, StoreError};
use zones::ZoneDelta;

/// What a command has decided for a zone.
#[derive(Drop)]
pub struct ZoneChange {
    pub name: ZoneName,
    pub delta: ZoneDelta,
}

impl Session {
    /// Carries out what an APPLY, ACCEPT or RESTORE has decided for the zone of the boundary. Under CHECK nothing
    /// changes. Otherwise the change is prepared and committed, and then the session's zone changes, which takes no
    /// memory. So the session is never ahead of the tables. A job whose commit fails ends there, and its session with
    /// it. Returns `Memory` if memory runs out, and `Fault` if the database fails.
    pub fn carry_out<S: Alter>(
        &mut self,
        alloc: Global,
        store: &mut Store<S>,
        header: Header,
        change: ZoneChange,
        lines: Vec<ReportLine>,
    ) -> Result<Outcome<'static>, StoreError>
        requires boundary { header.boundary ≡ Some change.name }
        requires knows { (zone : AZone) × KnowsStood zone change.delta }
        ensures uses { UsesStore S.Store store.old store.new
            (λ own. IsOfZone own × (header.check ≡ false) × IfOk result (TellsRun own))
            (λ s ended. IsSessionOf s self.old → (date : Text) (files : Files) (c : Command)
            → ChangesZone date files c s self.old change.name change.delta header.check
            (Ran (header_view header) (map line_view lines.items))
            → HasPerformed S.Store store.old store.new s self.new date files c ended) result }
        ensures header { (c : Command) (boundary : Option Text) → header_view header ≡ header_of c boundary
            → IfOk result (TellsOutcomeOf c boundary) }
        ensures boundary { self.new.boundary ≡ self.old.boundary }
    {
        let ZoneChange { name, delta } = change;
        // (for the clause `uses`: the edits of the delta have their form)
        delta.attest();
        if header.check {
            return Ok(Outcome::Ran { header, lines });
        }
        let Some(zone) = self.zones.get_mut(&name) else {
            // The callers name a zone that the session has. Without one, only the tables have to change.
            return commit_change(
                store,
                &Change::Zone(name, delta),
                Outcome::Ran { header, lines },
            );
        };
        let prepared = zone.prepare(alloc, &delta)?;
        let change = Change::Zone(name, delta);
        let outcome = commit_change(store, &change, Outcome::Ran { header, lines })?;
        zone.edit(prepared);
        Ok(outcome)
    }
}
