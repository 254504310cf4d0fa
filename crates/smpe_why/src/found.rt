//! What is loaded to answer a question about ids in a zone.
ghost use Rattle.std.specs.Prelude.{◌≡◌};
ghost use Rattle.store.specs.Loads.{Loads};
ghost use Rattle.smpe_why.specs.Telling.{IsFoundIn, related_target_name};

use fields::ZoneName;
use sqlite::Alter;
use store::{Store, StoreError, ZoneHead, target_name};
use sysmods::GlobalZone;
use terms::ZoneKind;
use zones::Zone;

/// The global zone, the zone of a name, if there is one, and the target zone at which an ACCEPT there also looks, if
/// there is one.
#[derive(Drop)]
pub struct LoadedZones {
    pub global: GlobalZone,
    pub zone: Option<Zone>,
    pub related: Option<Zone>,
}

/// Loads the global zone, the zone of this name and the target zone at which an ACCEPT into that zone also looks, and
/// changes nothing. Returns `Memory` if memory runs out, `Fault` if the database fails, and `NoState` if the rows of
/// one of them stand for no state.
pub fn load_zones<S: Alter>(store: &mut Store<S>, name: ZoneName) -> Result<LoadedZones, StoreError>
    ensures { Loads S.Store store.old store.new (IsFoundIn name) result }
{
    let global = store.load_global()?;
    let zone = store.load_zone(name)?;
    let heads = store.zone_heads()?;
    let Some(target) = related_target_name(heads.as_slice(), name, &zone) else {
        return Ok(LoadedZones {
            global,
            zone,
            related: None,
        });
    };
    let related = store.load_zone(target)?;
    Ok(LoadedZones {
        global,
        zone,
        related,
    })
}

// The name of the target zone at which an install into this zone looks: for a distribution zone, the first zone that
// names it as its related zone, if there is one. `None` for a target zone, and if the zone does not exist.
fn related_target_name(heads: &[ZoneHead], name: ZoneName, zone: &Option<Zone>) -> Option<ZoneName>
    ensures { result ≡ related_target_name heads.now name zone.now }
{
    let Some(zone) = zone else {
        return None;
    };
    match zone.kind() {
        ZoneKind::Target => None,
        ZoneKind::Distribution => target_name(heads, name),
    }
}
