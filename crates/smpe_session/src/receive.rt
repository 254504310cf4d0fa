//! RECEIVE: the items of PTFIN and of the hold file go into the global zone.
ghost use Rattle.std.specs.Prelude.{All, IfOk, IfSome, map};
ghost use Rattle.terms.specs.Types.{Text, Receive};
ghost use Rattle.terms.specs.Forms.{IsSource};
ghost use Rattle.mcs.specs.Files.{items};
ghost use Rattle.mcs.specs.HoldItems.{items as hold_items};
ghost use Rattle.smpe_global.specs.Items.{IsOfPtfin, IsOfHoldFile};
ghost use Rattle.report.specs.Views.{line_view};
ghost use Rattle.smpe_session.specs.Sessions.{IsSessionOf, HasPerformed};
ghost use Rattle.smpe_session.specs.Received.{AreTaken};
ghost use Rattle.smpe_session.specs.Uses.{UsesStore};
ghost use Rattle.smpe_session.specs.Writing.{AnswersAt, TellsRun};
ghost use Rattle.store.specs.Own.{IsReceived};

use crate::boundary::refusal_unless_global;
use crate::commit::commit_change;
use crate::files::Files;
use crate::lines::lines_or_nothing;
use crate::receive_files::{ReceiveItems, read_files};
use crate::session::Session;
use fields::{ReceiveOperands, Source};
use report::{Header, Outcome};
use smpe_global::{GlobalChange, receive_holds, receive_ptfin};
use sqlite::Alter;
use std::alloc::{AllocError, Global};
use store::{Change, Store, StoreError};
use sysmods::GlobalZone;
use terms::CommandWord;

// Receives these items into the global zone of the session. Returns the edits and the report lines, those of PTFIN
// before those of the hold file.
fn receive_found_items(
    alloc: Global,
    global: &mut GlobalZone,
    found: ReceiveItems,
    source: Option<Source>,
) -> Result<GlobalChange, AllocError>
    requires items { All IsOfPtfin (items found.items.items) }
    requires holds { All IsOfHoldFile (hold_items found.holds.items) }
    ensures form { IfSome source IsSource }
    ensures taken { IfOk result (λ t. AreTaken source (items found.items.items) (hold_items found.holds.items)
        global.old global.new t.edits.items (map line_view t.lines.items)) }
{
    let GlobalChange {
        mut edits,
        mut lines,
    } = receive_ptfin(alloc, global, found.items, source)?;
    let mut from_holds = receive_holds(alloc, global, found.holds)?;
    edits.append(&mut from_holds.edits)?;
    lines.append(&mut from_holds.lines)?;
    Ok(GlobalChange { edits, lines })
}

impl Session {
    /// The outcome of a RECEIVE of what the files have into the global zone. It is a refusal if the boundary is not
    /// GLOBAL, or if a file that is read has a fault. Returns `Memory` if memory runs out, and `Fault` if the database
    /// fails.
    pub fn receive<S: Alter>(
        &mut self,
        alloc: Global,
        store: &mut Store<S>,
        files: &Files<'_>,
        what: &ReceiveOperands,
    ) -> Result<Outcome<'static>, StoreError>
        ensures uses { UsesStore S.Store store.old store.new (λ own. IsReceived own × IfOk result (TellsRun own))
            (λ s ended. IsSessionOf s self.old → (date : Text)
            → HasPerformed S.Store store.old store.new s self.new date files.now (Receive what.now) ended) result }
        ensures header { IfOk result (AnswersAt (Receive what.now) self.old.boundary self.new.boundary) }
    {
        let header = Header {
            word: CommandWord::Receive,
            boundary: self.boundary,
            check: false,
        };
        if let Some(refusal) = refusal_unless_global(self.boundary) {
            return Ok(Outcome::Refused { header, refusal });
        }
        let found = match read_files(alloc, files, what)? {
            Ok(found) => found,
            Err(refusal) => return Ok(Outcome::Refused { header, refusal }),
        };
        let GlobalChange { edits, lines } = receive_found_items(
            alloc,
            &mut self.global,
            found,
            what.source,
        )?;
        let lines = lines_or_nothing(lines)?;
        commit_change(
            store,
            &Change::Global(&self.global, edits),
            Outcome::Ran { header, lines },
        )
    }
}
