//! The holds outside SYSMODs. Each is carried as soon as it is read, so that its statement need not be kept.
ghost use Rattle.std.specs.Prelude.{◌≡◌, ◌∷◌, [], OnOk, IfOk, IsFalse, None, option_to_list};
ghost use Rattle.intake_holds.specs.Holds.{HoldBecomes};
ghost use Rattle.intake_holds.specs.Outside.{AreCarried, KeepsHolds, AddsHolds, AddsHoldsAt};

use crate::errors::HoldError;
use crate::holds::carry_hold;
use crate::placed::PlacedItem;
use crate::refusals::{refuse_if_bad_hold, remark_bad_statements};
use intake_cards::{CardNote, CardReader, Remarks};
use intake_read::{WideError, WideFile, WideHold, WideReader};
use mcs::HoldItem;
use std::alloc::{AllocError, Global};
use std::mem;

/// The remarks on the holds outside SYSMODs, file by file. They are made while the files are read, and are taken out
/// later, in the same order, so that they stand among the other remarks on their files.
#[derive(Drop)]
pub struct FileRemarks {
    /// On the file that is being read.
    current: Remarks,
    /// On the files before it.
    files: Vec<Remarks>,
    /// How many of these were taken out.
    taken: usize,
}

/// The holds of the files that are stated outside SYSMODs, as they are carried, in the order in which they are read.
#[derive(Drop)]
pub struct OutsideHolds {
    pub placed: Vec<PlacedItem>,
    /// Whether one of them cannot be carried.
    pub is_refused: bool,
    /// Whether a hold was read, even if it is not carried.
    has_read_any: bool,
    /// The remarks on those that are carried or left out.
    pub remarks: FileRemarks,
    /// The remarks on those that cannot be carried.
    refusals: FileRemarks,
}

impl FileRemarks {
    // No remarks.
    fn new(alloc: Global) -> FileRemarks {
        FileRemarks {
            current: Remarks::new(alloc),
            files: Vec::new(alloc),
            taken: 0,
        }
    }

    // Ends the file that is being read. The next remarks are on the file after it.
    fn end_file(&mut self, alloc: Global) -> Result<(), AllocError> {
        let remarks = mem::replace(&mut self.current, Remarks::new(alloc));
        self.files.push(remarks)?;
        Ok(())
    }

    /// Takes out the remarks on the next file: at the first call those on the first file. After the last file there are
    /// none.
    pub fn take_next_file(&mut self, alloc: Global) -> Remarks {
        let place = self.taken;
        self.taken = place.saturating_add(1);
        let none = Remarks::new(alloc);
        match self.files.get_mut(place) {
            Some(remarks) => mem::replace(remarks, none),
            None => none,
        }
    }
}

// A hold outside SYSMODs as it is carried, with its place, or `None` for FIXCAT. Remarks say what is left out and what
// differs. Returns `BadHold` if its key cannot be read, and `Memory` if memory runs out.
fn carry_outside_hold(
    alloc: Global,
    remarks: &mut Remarks,
    hold: &WideHold,
) -> Result<Option<PlacedItem>, HoldError>
    ensures { IfOk result (λ placed. HoldBecomes None hold.now [] (option_to_list placed)) }
{
    let Some(carried) = carry_hold(alloc, remarks, hold, None)? else {
        return Ok(None);
    };
    Ok(Some(PlacedItem {
        place: hold.place,
        item: HoldItem::Hold(carried),
        was_internal: false,
    }))
}

impl OutsideHolds {
    /// No holds yet.
    pub fn new(alloc: Global) -> OutsideHolds
        ensures { AreCarried [] result }
    {
        OutsideHolds {
            placed: Vec::new(alloc),
            is_refused: false,
            has_read_any: false,
            remarks: FileRemarks::new(alloc),
            refusals: FileRemarks::new(alloc),
        }
    }

    /// Whether no hold was read.
    pub fn is_empty(&self) -> bool {
        !self.has_read_any
    }

    // Adds the next hold of the file that is being read, as it is carried. If it cannot be carried, it is refused, with
    // a remark, and then nothing is carried at all.
    fn carry(&mut self, alloc: Global, hold: &WideHold) -> Result<(), AllocError>
        ensures { OnOk result (AddsHolds (hold.now ∷ []) self.old self.new) }
    {
        self.has_read_any = true;
        if refuse_if_bad_hold(alloc, &mut self.refusals.current, hold)? {
            self.is_refused = true;
            return Ok(());
        }
        match carry_outside_hold(alloc, &mut self.remarks.current, hold) {
            Ok(Some(item)) => {
                self.placed.push(item)?;
                Ok(())
            }
            Ok(None) => Ok(()),
            Err(HoldError::Memory) => Err(AllocError),
            Err(HoldError::BadHold) => {
                self.is_refused = true;
                Ok(())
            }
        }
    }

    // Adds the hold, if there is one, as it is carried.
    fn carry_if_any(&mut self, alloc: Global, hold: Option<WideHold>) -> Result<(), AllocError>
        ensures { OnOk result (AddsHolds (option_to_list hold) self.old self.new) }
    {
        match hold {
            Some(hold) => self.carry(alloc, &hold),
            None => Ok(()),
        }
    }

    // Ends the file that is being read. The next holds are those of the file after it.
    fn end_file(&mut self, alloc: Global) -> Result<(), AllocError>
        ensures { OnOk result (KeepsHolds self.old self.new) }
    {
        self.remarks.end_file(alloc)?;
        self.refusals.end_file(alloc)
    }

    /// Refuses, with remarks, all holds and releases of the files that cannot be carried. Returns whether there are
    /// any. The holds outside SYSMODs were refused while the files were read: for each file, the remarks on these come
    /// first.
    pub fn remark_bad_statements(
        &mut self,
        alloc: Global,
        remarks: &mut Remarks,
        files: &[WideFile],
    ) -> Result<bool, AllocError>
        ensures same { self.new.placed ≡ self.old.placed }
        ensures refused { IfOk result (λ any. IsFalse any → IsFalse self.old.is_refused) }
    {
        let any = remark_bad_statements_of_files(alloc, remarks, &mut self.refusals, files)?;
        Ok(any || self.is_refused)
    }
}

// Refuses, with remarks, the releases and the holds in SYSMODs that cannot be carried, and adds the remarks on holds
// outside SYSMODs, which were refused before. Returns whether there are any of the former.
fn remark_bad_statements_of_files(
    alloc: Global,
    remarks: &mut Remarks,
    refusals: &mut FileRemarks,
    files: &[WideFile],
) -> Result<bool, AllocError> {
    let mut any = false;
    for file in files {
        remarks.append(refusals.take_next_file(alloc))?;
        if remark_bad_statements(alloc, remarks, file)? {
            any = true;
        }
    }
    Ok(any)
}

/// The statements of a file of these cards. Its holds outside SYSMODs are added to `held` while they are read: each
/// that the reader hands out, and no other. Returns `NoStatement`, `OpenComment` or `Statement` if the file has a fault
/// that leaving out a SYSMOD does not mend, and `Memory` if memory runs out.
pub fn read_statements(
    alloc: Global,
    cards: &mut CardReader<'_>,
    notes: &mut Vec<CardNote>,
    held: &mut OutsideHolds,
) -> Result<WideFile, WideError>
    ensures { IfOk result (λ file. AddsHoldsAt file.held.items held.old held.new) }
{
    let mut reader = WideReader::new(alloc);
    for _ in 0..usize::MAX {
        let Some(card) = cards.next_card(notes)? else {
            break;
        };
        held.carry_if_any(alloc, reader.read_card(&card)?)?;
    }
    cards.note_end(notes)?;
    held.carry_if_any(alloc, reader.read_end()?)?;
    held.end_file(alloc)?;
    reader.into_file()
}
