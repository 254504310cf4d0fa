//! What follows the id in a line.
ghost use Rattle.std.specs.Prelude.{◌≡◌};
ghost use Rattle.machine.specs.Receiving.{place_of};
ghost use Rattle.report.specs.Views.{place_view};

use crate::outcome::Place;
use fields::Id;
use sysmods::GlobalZone;

/// What follows the id in its status line: the type of the SYSMOD, or that it is not received.
pub fn place_of(global: &GlobalZone, id: Id) -> Place
    ensures { place_view result ≡ place_of global.now id }
{
    match global.get(id) {
        Some(sysmod) => Place::Kind(sysmod.kind),
        None => Place::NotReceived,
    }
}
