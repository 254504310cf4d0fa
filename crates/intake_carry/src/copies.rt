//! SYSMODs that the files have more than once, as overlapping orders do.

use fields::Id;
use intake_read::{CardPlace, WideFile, WideSysmod};
use std::alloc::{AllocError, Global};
use std::collections::{BTreeMap, BTreeSet};

/// A copy of a SYSMOD: the level that its REWORK states, and where it begins.
#[derive(Clone, Copy)]
struct SysmodCopy {
    rework: u64,
    place: CardPlace,
}

/// The copies of SYSMODs that are not carried. Of the copies of one SYSMOD the one with the highest REWORK is carried,
/// or the first of those that have it.
#[derive(Drop)]
pub(crate) struct OtherCopies {
    /// Where these copies begin.
    places: BTreeSet<CardPlace>,
    /// The SYSMODs that the files have more than once.
    ids: BTreeSet<Id>,
}

// The level that the text of a REWORK spells: `u64::MAX` if it is greater than that, 0 if the text has other characters
// than digits.
fn read_rework(text: &[u8]) -> u64 {
    let mut level = 0u64;
    for byte in text {
        if !byte.is_ascii_digit() {
            return 0;
        }
        let digit = byte.saturating_sub(b'0') as u64;
        level = level.saturating_mul(10).saturating_add(digit);
    }
    level
}

// The level that REWORK states, or 0 if the SYSMOD has no REWORK.
fn rework_level(sysmod: &WideSysmod) -> u64 {
    let rework = sysmod
        .dropped
        .iter()
        .find(|operand| operand.name.as_slice() == b"REWORK".as_slice());
    match rework {
        Some(operand) => read_rework(operand.text()),
        None => 0,
    }
}

impl OtherCopies {
    /// Finds these copies among the SYSMODs of the files.
    pub(crate) fn of_files(alloc: Global, files: &[WideFile]) -> Result<OtherCopies, AllocError> {
        let mut best = BTreeMap::new(alloc);
        let mut others = OtherCopies {
            places: BTreeSet::new(alloc),
            ids: BTreeSet::new(alloc),
        };
        for file in files {
            for sysmod in file.sysmods.iter() {
                others.note_copy(&mut best, sysmod)?;
            }
        }
        Ok(others)
    }

    // Notes one more copy of a SYSMOD. The better one of this copy and the best one so far is kept in `best`, and the
    // other one is noted as not carried. A SYSMOD whose id is no id is skipped: it is not carried in any case.
    fn note_copy(
        &mut self,
        best: &mut BTreeMap<Id, SysmodCopy>,
        sysmod: &WideSysmod,
    ) -> Result<(), AllocError> {
        let Some(id) = Id::read(sysmod.id.as_slice()) else {
            return Ok(());
        };
        let copy = SysmodCopy {
            rework: rework_level(sysmod),
            place: sysmod.place,
        };
        let Some(best_so_far) = best.get(&id).copied() else {
            best.insert(id, copy)?;
            return Ok(());
        };
        self.ids.insert(id)?;
        if copy.rework > best_so_far.rework {
            self.places.insert(best_so_far.place)?;
            best.insert(id, copy)?;
        } else {
            self.places.insert(copy.place)?;
        }
        Ok(())
    }

    /// Whether the SYSMOD is a copy that is not carried, because another one is.
    pub(crate) fn is_other_copy(&self, sysmod: &WideSysmod) -> bool {
        self.places.contains(&sysmod.place)
    }

    /// Whether the files have the SYSMOD of this id more than once.
    pub(crate) fn is_repeated(&self, id: &[u8]) -> bool {
        Id::read(id).is_some_and(|id| self.ids.contains(&id))
    }
}
