//! At which other zone a command looks: ACCEPT at a target zone, RESTORE at the distribution zone.
ghost use Rattle.std.specs.Prelude.{◌≡◌};
ghost use Rattle.store.specs.CallEnds.{EndsLoad};
ghost use Rattle.smpe_session.specs.Places.{HasRelated};
ghost use Rattle.smpe_session.specs.Restored.{HasAccepted};
ghost use Rattle.smpe_session.specs.Sessions.{IsSessionOf};
ghost use Rattle.smpe_session.specs.Uses.{UsesStore};

use crate::session::Session;
use fields::ZoneName;
use sqlite::Alter;
use store::{Store, StoreError, target_name};
use terms::ZoneKind;

impl Session {
    /// Loads the other zone at which an install into zones of this kind looks, and returns its name, or `None` if there
    /// is no such zone. ACCEPT, for distribution zones, looks at the target zone whose related zone is that of the
    /// boundary, and APPLY, for target zones, at none. The errors are `Memory` if memory runs out, `Fault` if the
    /// database fails, and `NoState` if the rows of zones stand for none.
    pub fn load_related_zone<S: Alter>(
        &mut self,
        store: &mut Store<S>,
        kind: ZoneKind,
    ) -> Result<Option<ZoneName>, StoreError>
        ensures uses { UsesStore S.Store store.old store.new (λ _. ⊥) (λ s ended. IsSessionOf s self.old
            → EndsLoad S.Store store.old store.new s (λ related. HasRelated s self.new kind related) ended) result }
        ensures boundary { self.new.boundary ≡ self.old.boundary }
    {
        if kind == ZoneKind::Target {
            return Ok(None);
        }
        let Some(name) = self.boundary else {
            return Ok(None);
        };
        let heads = store.zone_heads()?;
        let Some(target) = target_name(heads.as_slice(), name) else {
            return Ok(None);
        };
        self.ensure_zone_loaded(store, target)?;
        Ok(Some(target))
    }

    /// Loads the distribution zone to which the target zone of the boundary is related, and returns its name, or `None`
    /// if there is no such zone. The errors are `Memory` if memory runs out, `Fault` if the database fails, and
    /// `NoState` if its rows stand for none.
    pub fn load_distribution_zone<S: Alter>(
        &mut self,
        store: &mut Store<S>,
    ) -> Result<Option<ZoneName>, StoreError>
        ensures uses { UsesStore S.Store store.old store.new (λ _. ⊥) (λ s ended. IsSessionOf s self.old
            → EndsLoad S.Store store.old store.new s (λ accepted. HasAccepted s self.new accepted) ended) result }
        ensures boundary { self.new.boundary ≡ self.old.boundary }
    {
        let Some(accepted) = self.zone_at(self.boundary).and_then(|zone| zone.related()) else {
            return Ok(None);
        };
        self.ensure_zone_loaded(store, accepted)?;
        Ok(Some(accepted))
    }
}
