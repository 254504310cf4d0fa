//! SET: the boundary is another zone.
ghost use Rattle.std.specs.Prelude.{◌≡◌, IsSome, OnOk, IfOk};
ghost use Rattle.std.specs.Str.{bytes_eq};
ghost use Rattle.indexmap.specs.IndexMap.{get};
ghost use Rattle.terms.specs.Types.{Text, Set};
ghost use Rattle.machine.specs.Machine.{Files};
ghost use Rattle.smpe_session.specs.Sessions.{IsSessionOf, HasPerformed};
ghost use Rattle.smpe_session.specs.KnownZones.{IsSought};
ghost use Rattle.store.specs.CallEnds.{EndsLoad};
ghost use Rattle.smpe_session.specs.Uses.{UsesStore};
ghost use Rattle.smpe_session.specs.Writing.{AnswersAt};

use crate::session::Session;
use fields::ZoneName;
use report::{Header, Outcome, Refusal};
use sqlite::Alter;
use std::alloc::Global;
use store::{Store, StoreError};
use terms::CommandWord;

impl Session {
    /// Loads the zone of this name, unless it is GLOBAL or the session has it already. Returns `false` if there is no
    /// such zone. The errors are `Memory` if memory runs out, `Fault` if the database fails, and `NoState` if the rows
    /// of the zone stand for none.
    pub(crate) fn ensure_zone_loaded<S: Alter>(
        &mut self,
        store: &mut Store<S>,
        name: ZoneName,
    ) -> Result<bool, StoreError>
        ensures uses { UsesStore S.Store store.old store.new (λ _. ⊥) (λ s ended. IsSessionOf s self.old
            → EndsLoad S.Store store.old store.new s (IsSought s self.new name) ended) result }
        ensures stay { OnOk result ((q : Text) → IsSome (get bytes_eq self.old.zones q)
            → IsSome (get bytes_eq self.new.zones q)) }
        ensures boundary { self.new.boundary ≡ self.old.boundary }
    {
        if name.is_global() || self.zones.contains_key(&name) {
            return Ok(true);
        }
        let Some(zone) = store.load_zone(name)? else {
            return Ok(false);
        };
        let Ok(_) = self.zones.insert(name, zone) else {
            return Err(StoreError::Memory);
        };
        Ok(true)
    }

    /// The outcome of a SET: the boundary becomes this zone, or the outcome is a refusal if there is no such zone.
    /// Returns `Memory` if memory runs out, `Fault` if the database fails, and `NoState` if its rows stand for no zone.
    pub fn set<S: Alter>(
        &mut self,
        alloc: Global,
        store: &mut Store<S>,
        name: ZoneName,
    ) -> Result<Outcome<'static>, StoreError>
        ensures uses { UsesStore S.Store store.old store.new (λ _. ⊥) (λ s ended. IsSessionOf s self.old
            → (date : Text) (files : Files)
            → HasPerformed S.Store store.old store.new s self.new date files (Set name) ended) result }
        ensures header { IfOk result (AnswersAt (Set name) self.old.boundary self.new.boundary) }
    {
        let header = Header {
            word: CommandWord::Set,
            boundary: Some(name),
            check: false,
        };
        if !self.ensure_zone_loaded(store, name)? {
            return Ok(Outcome::Refused {
                header,
                refusal: Refusal::NoZone,
            });
        }
        self.boundary = Some(name);
        Ok(Outcome::Ran {
            header,
            lines: Vec::new(alloc),
        })
    }
}
