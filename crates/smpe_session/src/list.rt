//! LIST: the contents of the zone of the boundary.
ghost use Rattle.terms.specs.Types.{Text, ListZone};
ghost use Rattle.machine.specs.State.{State};
ghost use Rattle.machine.specs.Machine.{Files, Performs};
ghost use Rattle.report.specs.Views.{outcome_view};
ghost use Rattle.smpe_session.specs.Sessions.{IsSessionOf};
ghost use Rattle.smpe_session.specs.Writing.{TellsOutcomeOf};

use crate::session::Session;
use report::{Header, Outcome, Refusal};
use terms::CommandWord;

impl Session {
    /// The outcome of a LIST, which refers to what the session has in memory. With `text` it includes the elements'
    /// records. It is a refusal if there is no boundary.
    pub fn list(&self, text: bool) -> Outcome<'_>
        ensures performs { (s : State) → IsSessionOf s self.now
            → (date : Text) (files : Files) → Performs date files s (ListZone text) s (outcome_view result) }
        ensures header { TellsOutcomeOf (ListZone text) self.now.boundary result }
    {
        let header = Header {
            word: CommandWord::List,
            boundary: self.boundary,
            check: false,
        };
        let Some(name) = self.boundary else {
            return Outcome::Refused {
                header,
                refusal: Refusal::NoBoundary,
            };
        };
        if name.is_global() {
            return Outcome::ListedGlobal {
                header,
                global: &self.global,
            };
        }
        match self.zones.get(&name) {
            Some(zone) => Outcome::Listed { header, zone, text },
            // The zone of the boundary always exists.
            None => Outcome::Refused {
                header,
                refusal: Refusal::WrongKind,
            },
        }
    }
}
