//! What `narrow` returns: the items that RECEIVE takes, with the remarks and their counts.
ghost use Rattle.std.specs.Prelude.{◌≡◌};

use crate::unsure::Unsure;
use intake_cards::{Deed, Remark, RemarkList, RemarkReason, Remarks, StandIn};
use intake_read::CardPlace;
use mcs::{HoldItem, Item};
use std::alloc::{AllocError, AllocFailed};
use thiserror::Error;

/// How many statements of a sort are carried, and how many are left out.
#[derive(Clone, Copy, Debug, PartialEq, Eq)]
pub struct Tally {
    pub carried: usize,
    pub left_out: usize,
}

/// The items that are carried, with the remarks and their counts.
#[derive(Drop)]
pub struct Narrowed {
    /// PTFIN: the SYSMODs in the order of the files, and then the assignments.
    pub items: Vec<Item>,
    /// The hold file, in the order of the files.
    pub hold_items: Vec<HoldItem>,
    pub remarks: RemarkList,
    pub sysmods: Tally,
    pub holds: Tally,
    pub releases: Tally,
    pub assigns: Tally,
    /// How many of the SYSMODs that are left out have elements, NPRE or DELETE, which forbid something.
    pub forbidding: usize,
    /// The carried SYSMODs of which it is not sure that they can be installed, in the order of PTFIN.
    pub unsure: Vec<Unsure>,
    /// How many SYSMODs have stand-ins.
    pub stand_ins: usize,
    /// Which element each stand-in is for, by the names of the stand-ins, each of them once.
    pub named: Vec<StandIn>,
}

/// Why nothing is carried.
#[derive(Debug, Drop, Error)]
pub enum CarryError {
    #[error("out of memory")]
    Memory,
    #[error("a hold or a release can't be carried")]
    Refused(RemarkList),
}

impl From<AllocError> for CarryError {
    fn from(_e: AllocError) -> CarryError {
        CarryError::Memory
    }
}

impl<T: Drop> From<AllocFailed<T>> for CarryError {
    fn from(_e: AllocFailed<T>) -> CarryError {
        CarryError::Memory
    }
}

/// How many statements of each sort are left out.
#[derive(Clone, Copy)]
struct LeftOutCounts {
    sysmods: usize,
    holds: usize,
    /// Holds that are not those of a statement, but of one that is carried already.
    passed_on: usize,
    releases: usize,
    assigns: usize,
    /// Where the `++ASSIGN` begins that was counted last.
    last_assign: Option<CardPlace>,
}

impl LeftOutCounts {
    // Counts the statements that are left out, by the remarks on them.
    fn of_remarks(remarks: &RemarkList) -> LeftOutCounts {
        let mut counts = LeftOutCounts {
            sysmods: 0,
            holds: 0,
            passed_on: 0,
            releases: 0,
            assigns: 0,
            last_assign: None,
        };
        for place in 0..remarks.len() {
            if let Some(remark) = remarks.get(place) {
                counts.count(&remark);
            }
        }
        counts
    }

    // Counts the statement of the remark if the remark leaves it out.
    fn count(&mut self, remark: &Remark<'_>) {
        if remark.reason == RemarkReason::WholeSysmod {
            self.sysmods = self.sysmods.saturating_add(1);
        }
        if remark.reason == RemarkReason::HeldAlready {
            self.holds = self.holds.saturating_add(1);
        }
        if remark.reason == RemarkReason::PassedOn {
            self.passed_on = self.passed_on.saturating_add(1);
        }
        if remark.deed != Deed::LeftOut {
            return;
        }
        let is_fixcat = remark.reason == RemarkReason::Fixcat;
        match remark.statement {
            b"++ASSIGN" => self.count_assign(remark),
            b"++HOLD" if is_fixcat => self.holds = self.holds.saturating_add(1),
            b"++RELEASE" if is_fixcat => self.releases = self.releases.saturating_add(1),
            _ => {}
        }
    }

    // Counts the `++ASSIGN` of the remark once, however many remarks there are on it. One that lost only some of its
    // ids counts too.
    fn count_assign(&mut self, remark: &Remark<'_>) {
        if self.last_assign != Some(remark.place) {
            self.assigns = self.assigns.saturating_add(1);
            self.last_assign = Some(remark.place);
        }
    }
}

impl Narrowed {
    /// The items and the remarks, with their counts.
    pub(crate) fn new(
        items: Vec<Item>,
        hold_items: Vec<HoldItem>,
        unsure: Vec<Unsure>,
        remarks: Remarks,
    ) -> Narrowed
        ensures items { result.items.items ≡ items.items }
        ensures holds { result.hold_items.items ≡ hold_items.items }
        ensures unsure { result.unsure.items ≡ unsure.items }
    {
        let left_out = LeftOutCounts::of_remarks(&remarks.list);
        let sysmods = Tally {
            carried: count_sysmods(items.as_slice()),
            left_out: left_out.sysmods,
        };
        let holds = Tally {
            carried: count_holds(items.as_slice(), hold_items.as_slice()).saturating_sub(
                left_out.passed_on,
            ),
            left_out: left_out.holds,
        };
        let releases = Tally {
            carried: count_releases(hold_items.as_slice()),
            left_out: left_out.releases,
        };
        let assigns = Tally {
            carried: items
                .len()
                .saturating_sub(sysmods.carried)
                .saturating_sub(remarks.cut_assigns),
            left_out: left_out.assigns,
        };
        Narrowed {
            items,
            hold_items,
            sysmods,
            holds,
            releases,
            assigns,
            forbidding: remarks.forbidding,
            unsure,
            stand_ins: remarks.with_stand_ins.len(),
            named: remarks.named,
            remarks: remarks.list,
        }
    }
}

// How many of the items are SYSMODs.
fn count_sysmods(items: &[Item]) -> usize {
    items
        .iter()
        .filter(|item| matches!(item, Item::Sysmod(_)))
        .count()
}

// How many of the items are releases.
fn count_releases(items: &[HoldItem]) -> usize {
    items
        .iter()
        .filter(|item| matches!(item, HoldItem::Release(_)))
        .count()
}

// How many holds the SYSMODs and the hold file have.
fn count_holds(items: &[Item], outside: &[HoldItem]) -> usize {
    let mut holds = outside.len().saturating_sub(count_releases(outside));
    for item in items {
        if let Item::Sysmod(sysmod) = item {
            holds = holds.saturating_add(sysmod.holds.len());
        }
    }
    holds
}
