//! REPORT ERRSYSMODS: the SYSMODs in the zone of the boundary that are held for error, and what would resolve the
//! holds.
ghost use Rattle.std.specs.Prelude.{IfOk};
ghost use Rattle.terms.specs.Types.{Text, Report};
ghost use Rattle.machine.specs.State.{State};
ghost use Rattle.machine.specs.Machine.{Files, Performs};
ghost use Rattle.store_schema.specs.Inventory.{IsInventory};
ghost use Rattle.report.specs.Views.{outcome_view};
ghost use Rattle.store.specs.Kept.{kept};
ghost use Rattle.smpe_session.specs.Sessions.{IsSessionOf};
ghost use Rattle.smpe_session.specs.Writing.{TellsOutcomeOf};

use crate::session::Session;
use report::{Header, Outcome, Refusal, errsysmods};
use std::alloc::{AllocError, Global};
use terms::CommandWord;

impl Session {
    /// The outcome of a REPORT ERRSYSMODS for the zone of the boundary. It is a refusal if there is no boundary or the
    /// boundary is GLOBAL.
    pub fn report(&self, alloc: Global) -> Result<Outcome<'static>, AllocError>
        ensures performs { IfOk result (λ outcome. (s : State) → IsSessionOf s self.now → IsInventory (kept s)
            → (date : Text) (files : Files) → Performs date files s Report s (outcome_view outcome)) }
        ensures header { IfOk result (TellsOutcomeOf Report self.now.boundary) }
    {
        let header = Header {
            word: CommandWord::Report,
            boundary: self.boundary,
            check: false,
        };
        let Some(name) = self.boundary else {
            return Ok(Outcome::Refused {
                header,
                refusal: Refusal::NoBoundary,
            });
        };
        match self.zones.get(&name) {
            Some(zone) => errsysmods(alloc, name, &self.global, zone),
            None => Ok(Outcome::Refused {
                header,
                refusal: Refusal::WrongKind,
            }),
        }
    }
}
