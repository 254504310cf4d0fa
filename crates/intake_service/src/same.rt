//! Whether items are the same, as contracts see them: `is_same` is true if and only if their views are equal.
ghost use Rattle.std.specs.Prelude.{◌≡◌, ◌↔◌, IsTrue, option_map};
ghost use Rattle.std.specs.String.{string_bytes};
ghost use Rattle.sysmods_values.specs.Views.{action_of};

use fields::{Class, HoldDate, Id, IdList, Name, Reason, Source, SourceList, Srel};
use mcs::{Assign, HoldItem, Item, Release};
use sysmods_values::{Action, ElemChange, Hold, IfReq, Sysmod, Ver};
use text80::{Line, Update};

/// A type whose values can be compared by what contracts see of them.
trait Same {
    /// Whether both values are the same.
    fn is_same(&self, other: &Self) -> bool
        ensures { IsTrue result ↔ (self.now ≡ other.now) };
}

// Whether two lists have the same items, one after the other.
fn are_same<T: Same>(first: &[T], other: &[T]) -> bool
    ensures { IsTrue result ↔ (first.now ≡ other.now) }
{
    if first.len() != other.len() {
        return false;
    }
    for place in 0..first.len() {
        if !first[place].is_same(&other[place]) {
            return false;
        }
    }
    true
}

// Whether both are absent, or the same.
fn is_same_option<T: Same>(first: &Option<T>, other: &Option<T>) -> bool
    ensures { IsTrue result ↔ (first.now ≡ other.now) }
{
    match (first, other) {
        (Some(first), Some(other)) => first.is_same(other),
        (None, None) => true,
        (Some(_), None) | (None, Some(_)) => false,
    }
}

impl Same for Id {
    fn is_same(&self, other: &Self) -> bool {
        self.as_bytes() == other.as_bytes()
    }
}

impl Same for Name {
    fn is_same(&self, other: &Self) -> bool {
        self.as_bytes() == other.as_bytes()
    }
}

impl Same for Srel {
    fn is_same(&self, other: &Self) -> bool {
        self.as_bytes() == other.as_bytes()
    }
}

impl Same for Source {
    fn is_same(&self, other: &Self) -> bool {
        self.as_bytes() == other.as_bytes()
    }
}

impl Same for Reason {
    fn is_same(&self, other: &Self) -> bool {
        self.as_bytes() == other.as_bytes()
    }
}

impl Same for Class {
    fn is_same(&self, other: &Self) -> bool {
        self.as_bytes() == other.as_bytes()
    }
}

impl Same for HoldDate {
    fn is_same(&self, other: &Self) -> bool {
        self.as_bytes() == other.as_bytes()
    }
}

impl Same for Line {
    fn is_same(&self, other: &Self) -> bool {
        self.bytes() == other.bytes()
    }
}

impl Same for IdList {
    fn is_same(&self, other: &Self) -> bool {
        are_same(self.as_slice(), other.as_slice())
    }
}

impl Same for SourceList {
    fn is_same(&self, other: &Self) -> bool {
        are_same(self.as_slice(), other.as_slice())
    }
}

impl Same for Update {
    fn is_same(&self, other: &Self) -> bool {
        are_same(self.records(), other.records())
    }
}

impl Same for IfReq {
    fn is_same(&self, other: &Self) -> bool {
        self.function.is_same(&other.function) && self.req.is_same(&other.req)
    }
}

impl Same for Ver {
    fn is_same(&self, other: &Self) -> bool {
        self.srel.is_same(&other.srel)
            && is_same_option(&self.fmid, &other.fmid)
            && self.pre.is_same(&other.pre)
            && self.req.is_same(&other.req)
            && self.sup.is_same(&other.sup)
            && self.npre.is_same(&other.npre)
            && self.del.is_same(&other.del)
            && are_same(self.ifs.as_slice(), other.ifs.as_slice())
    }
}

// Whether both do the same to the element.
fn is_same_action(first: &Action, other: &Action) -> bool
    ensures { IsTrue result ↔ (action_of first.now ≡ action_of other.now) }
{
    match (first, other) {
        (
            Action::Replaces {
                distlib,
                syslib,
                lines,
            },
            Action::Replaces {
                distlib: other_distlib,
                syslib: other_syslib,
                lines: other_lines,
            },
        ) => {
            distlib.is_same(other_distlib)
                && syslib.is_same(other_syslib)
                && are_same(lines.as_slice(), other_lines.as_slice())
        }
        (
            Action::Updates { update },
            Action::Updates {
                update: other_update,
            },
        ) => update.is_same(other_update),
        (Action::Replaces { .. }, Action::Updates { .. })
        | (Action::Updates { .. }, Action::Replaces { .. }) => false,
    }
}

impl Same for ElemChange {
    fn is_same(&self, other: &Self) -> bool {
        self.elem_type == other.elem_type
            && self.name.is_same(&other.name)
            && is_same_action(&self.action, &other.action)
    }
}

// Whether both COMMENTs are the same, or both are absent.
fn is_same_comment(first: &Option<String>, other: &Option<String>) -> bool
    ensures { IsTrue result ↔ (option_map string_bytes first.now ≡ option_map string_bytes other.now) }
{
    match (first, other) {
        (Some(first), Some(other)) => first.as_bytes() == other.as_bytes(),
        (None, None) => true,
        (Some(_), None) | (None, Some(_)) => false,
    }
}

impl Same for Hold {
    fn is_same(&self, other: &Self) -> bool {
        self.id.is_same(&other.id)
            && self.kind == other.kind
            && self.reason.is_same(&other.reason)
            && self.fmid.is_same(&other.fmid)
            && is_same_option(&self.class, &other.class)
            && is_same_option(&self.date, &other.date)
            && is_same_comment(&self.comment, &other.comment)
            && self.internal == other.internal
    }
}

impl Same for Release {
    fn is_same(&self, other: &Self) -> bool {
        self.id.is_same(&other.id)
            && self.kind == other.kind
            && self.reason.is_same(&other.reason)
            && self.fmid.is_same(&other.fmid)
    }
}

impl Same for Sysmod {
    fn is_same(&self, other: &Self) -> bool {
        self.id.is_same(&other.id)
            && self.kind == other.kind
            && self.sources.is_same(&other.sources)
            && are_same(self.vers.as_slice(), other.vers.as_slice())
            && are_same(self.changes.as_slice(), other.changes.as_slice())
            && are_same(self.holds.as_slice(), other.holds.as_slice())
    }
}

impl Same for Assign {
    fn is_same(&self, other: &Self) -> bool {
        self.source.is_same(&other.source) && are_same(self.to.as_slice(), other.to.as_slice())
    }
}

impl Same for Item {
    fn is_same(&self, other: &Self) -> bool {
        match (self, other) {
            (Item::Sysmod(first), Item::Sysmod(other)) => first.is_same(other),
            (Item::Assign(first), Item::Assign(other)) => first.is_same(other),
            (Item::Sysmod(_), Item::Assign(_)) | (Item::Assign(_), Item::Sysmod(_)) => false,
        }
    }
}

impl Same for HoldItem {
    fn is_same(&self, other: &Self) -> bool {
        match (self, other) {
            (HoldItem::Hold(first), HoldItem::Hold(other)) => first.is_same(other),
            (HoldItem::Release(first), HoldItem::Release(other)) => first.is_same(other),
            (HoldItem::Hold(_), HoldItem::Release(_)) | (HoldItem::Release(_), HoldItem::Hold(_)) =>
                false,
        }
    }
}

/// Whether two lists have the same items of PTFIN, one after the other.
pub fn are_same_items(first: &[Item], other: &[Item]) -> bool
    ensures { IsTrue result ↔ (first.now ≡ other.now) }
{
    are_same(first, other)
}

/// Whether two lists have the same items of a hold file, one after the other.
pub fn are_same_hold_items(first: &[HoldItem], other: &[HoldItem]) -> bool
    ensures { IsTrue result ↔ (first.now ≡ other.now) }
{
    are_same(first, other)
}
