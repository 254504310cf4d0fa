//! Where commands run, and why one cannot run at this boundary.
ghost use Rattle.std.specs.Prelude.{◌≡◌, None, Some, IfOk, option_copied, option_map};
ghost use Rattle.std.specs.Option.{option_and_then};
ghost use Rattle.std.specs.Str.{bytes_eq};
ghost use Rattle.indexmap.specs.IndexMap.{get};
ghost use Rattle.machine.specs.State.{State, at_global, global_name, unless_at};
ghost use Rattle.report.specs.Views.{refusal_view};
ghost use Rattle.store_schema.specs.Inventory.{IsInventory};
ghost use Rattle.store.specs.Kept.{kept};
ghost use Rattle.smpe_session.specs.Places.{HasPlace};
ghost use Rattle.smpe_session.specs.Sessions.{IsSessionOf};

use crate::session::Session;
use fields::ZoneName;
use report::Refusal;
use terms::ZoneKind;
use zones::Zone;

/// The refusal of a command of the global zone at this boundary: `NoBoundary` if there is none, `WrongKind` if it is
/// another zone, and `None` if it is GLOBAL.
pub(crate) fn refusal_unless_global(boundary: Option<ZoneName>) -> Option<Refusal>
    ensures refused { (s : State) → s.boundary ≡ boundary
        → option_map refusal_view result ≡ unless_at (at_global s) s }
    ensures global { result ≡ None → boundary ≡ Some global_name }
{
    let Some(name) = boundary else {
        return Some(Refusal::NoBoundary);
    };
    if name.is_global() {
        return None;
    }
    Some(Refusal::WrongKind)
}

/// The zone of the boundary, with its name.
#[derive(Clone, Copy)]
pub struct BoundaryZone<'a> {
    pub name: ZoneName,
    pub zone: &'a Zone,
}

impl Session {
    /// The zone of the boundary, if it is of this kind. Returns `NoBoundary` if there is no boundary, and `WrongKind`
    /// if it is GLOBAL or of another kind.
    pub fn boundary_zone(&self, kind: ZoneKind) -> Result<BoundaryZone<'_>, Refusal>
        ensures named { IfOk result (λ v. self.now.boundary ≡ Some v.name) }
        ensures has { (s : State) → IsSessionOf s self.now → IsInventory (kept s)
            → HasPlace s self.now kind (λ v. v.name) (λ v. v.zone.now) result }
    {
        let Some(name) = self.boundary else {
            return Err(Refusal::NoBoundary);
        };
        let Some(zone) = self.zones.get(&name) else {
            return Err(Refusal::WrongKind);
        };
        if zone.kind() != kind {
            return Err(Refusal::WrongKind);
        }
        Ok(BoundaryZone { name, zone })
    }

    /// The zone of this name, or `None` if there is no name or the session does not have the zone.
    pub fn zone_at(&self, name: Option<ZoneName>) -> Option<&Zone>
        ensures { option_copied result ≡ option_and_then (get bytes_eq self.now.zones) name }
    {
        match name {
            Some(name) => self.zones.get(&name),
            None => None,
        }
    }
}
