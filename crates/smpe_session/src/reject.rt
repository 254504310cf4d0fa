//! REJECT: SYSMODs that no zone has applied leave the global zone.
ghost use Rattle.std.specs.Prelude.{◌≡◌, IfOk};
ghost use Rattle.terms.specs.Types.{Text, Reject};
ghost use Rattle.machine.specs.Machine.{Files};
ghost use Rattle.smpe_session.specs.Sessions.{IsSessionOf, HasPerformed};
ghost use Rattle.smpe_session.specs.KnownZones.{HasAllZones};
ghost use Rattle.store.specs.CallEnds.{EndsLoad};
ghost use Rattle.smpe_session.specs.Uses.{UsesStore};
ghost use Rattle.smpe_session.specs.Writing.{AnswersAt, TellsRun};
ghost use Rattle.store.specs.Own.{IsRejected};

use crate::boundary::refusal_unless_global;
use crate::commit::commit_change;
use crate::session::Session;
use fields::IdList;
use report::{Header, Outcome};
use smpe_global::{GlobalChange, reject};
use sqlite::Alter;
use std::alloc::Global;
use store::{Change, Store, StoreError};
use terms::CommandWord;

impl Session {
    // Loads each zone that the session does not have yet. Returns `Memory` if memory runs out, `Fault` if the database
    // fails, and `NoState` if the rows of zones stand for none.
    fn load_all_zones<S: Alter>(&mut self, store: &mut Store<S>) -> Result<(), StoreError>
        ensures uses { UsesStore S.Store store.old store.new (λ _. ⊥) (λ s ended. IsSessionOf s self.old
            → EndsLoad S.Store store.old store.new s (λ _. HasAllZones s self.new) ended) result }
        ensures boundary { self.new.boundary ≡ self.old.boundary }
    {
        let names = store.zone_names()?;
        for name in names.as_slice() {
            self.ensure_zone_loaded(store, *name)?;
        }
        Ok(())
    }

    /// The outcome of a REJECT of these ids from the global zone. It is a refusal if the boundary is not GLOBAL.
    /// Returns `Memory` if memory runs out, `Fault` if the database fails, and `NoState` if the rows of zones stand for
    /// none.
    pub fn reject<S: Alter>(
        &mut self,
        alloc: Global,
        store: &mut Store<S>,
        ids: &IdList,
    ) -> Result<Outcome<'static>, StoreError>
        ensures uses { UsesStore S.Store store.old store.new (λ own. IsRejected own × IfOk result (TellsRun own))
            (λ s ended. IsSessionOf s self.old → (date : Text) (files : Files)
            → HasPerformed S.Store store.old store.new s self.new date files (Reject ids.now) ended) result }
        ensures header { IfOk result (AnswersAt (Reject ids.now) self.old.boundary self.new.boundary) }
    {
        let header = Header {
            word: CommandWord::Reject,
            boundary: self.boundary,
            check: false,
        };
        if let Some(refusal) = refusal_unless_global(self.boundary) {
            return Ok(Outcome::Refused { header, refusal });
        }
        self.load_all_zones(store)?;
        let GlobalChange { edits, lines } = reject(alloc, &mut self.global, &self.zones, ids)?;
        commit_change(
            store,
            &Change::Global(&self.global, edits),
            Outcome::Ran { header, lines },
        )
    }
}
