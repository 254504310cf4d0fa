//! A zone less what some DELETEs take out, without a copy of it.
ghost use Rattle.std.specs.Prelude.{◌≡◌, not, option_copied};
ghost use Rattle.std.specs.List.{list_any};
ghost use Rattle.terms.specs.Lookups.{is_nil, is_applied, is_supplied, supby_of, element_of};
ghost use Rattle.terms.specs.Needs.{is_met};
ghost use Rattle.zones.specs.Gone.{left_of, is_cut, is_gone, loses};

use crate::entry::TakesOut;
use fields::{Id, Name};
use sysmods::VerChoice;
use terms::{ElemType, NeedKind};
use zones_maps::{Element, Zone};

/// A zone less what the deletions take out: the SYSMODs whose chain contains one of them, by the `++VER`s that count.
#[derive(Clone, Copy)]
pub struct ZoneLess<'a, 'b> {
    pub vers: &'a VerChoice<'b>,
    pub dels: &'a [Id],
    pub zone: &'a Zone,
}

impl<'a, 'b> ZoneLess<'a, 'b> {
    /// Whether the id is still applied.
    pub fn is_applied(&self, id: Id) -> bool
        ensures { result ≡ is_applied (left_of self.now) id }
    {
        self.zone.is_applied(id) && !self.deletes(id)
    }

    /// Whether the id is still applied or superseded.
    pub fn supplies(&self, id: Id) -> bool
        ensures { result ≡ is_supplied (left_of self.now) id }
    {
        self.is_applied(id) || self.is_superseded(id)
    }

    /// Whether what is left meets the need for this id. An FMID has to be applied, any other id may be superseded.
    pub fn meets_need(&self, kind: NeedKind, id: Id) -> bool
        ensures { result ≡ is_met (left_of self.now) kind id }
    {
        match kind {
            NeedKind::Fmid => self.is_applied(id),
            _ => self.supplies(id),
        }
    }

    /// The element of this type and name, if it is left.
    pub fn element(&self, elem_type: ElemType, name: Name) -> Option<&'a Element>
        ensures { option_copied result ≡ element_of (left_of self.now) elem_type name }
    {
        let element = self.zone.element(elem_type, name)?;
        if self.deletes(element.fmid) {
            return None;
        }
        Some(element)
    }

    /// Whether the chain of the id contains one of the deletions, whether or not the id is applied.
    pub fn deletes(&self, id: Id) -> bool
        ensures { result ≡ is_cut self.now id }
    {
        self.vers.chain_contains_any(id, self.dels)
    }

    /// Whether the id, or an applied SYSMOD that supersedes it, is taken out.
    pub fn loses(&self, id: Id) -> bool
        ensures { result ≡ loses self.now id }
    {
        self.takes_out(id) || self.takes_out_superseder(id)
    }

    // Whether one of the SYSMODs that supersede the id stays.
    fn is_superseded(&self, id: Id) -> bool
        ensures { result ≡ not (is_nil (supby_of (left_of self.now) id)) }
    {
        match self.zone.entry(id) {
            Some(entry) => self.any_stays(entry.supby.as_slice()),
            None => false,
        }
    }

    // Whether one of the ids is not taken out.
    fn any_stays(&self, ids: &[Id]) -> bool
        ensures { result ≡ list_any (λ y. not (is_gone self.now y)) ids.now }
    {
        ids.iter().any(|id| !self.takes_out(*id))
    }

    // Whether one of the SYSMODs that supersede the id is taken out.
    fn takes_out_superseder(&self, id: Id) -> bool
        ensures { result ≡ list_any (is_gone self.now) (supby_of self.now.zone.now id) }
    {
        match self.zone.entry(id) {
            Some(entry) => self.takes_out_any(entry.supby.as_slice()),
            None => false,
        }
    }

    // Whether one of the ids is taken out.
    fn takes_out_any(&self, ids: &[Id]) -> bool
        ensures { result ≡ list_any (is_gone self.now) ids.now }
    {
        ids.iter().any(|id| self.takes_out(*id))
    }
}

impl<'a, 'b> TakesOut for ZoneLess<'a, 'b> {
    ghost use Rattle.zones.specs.Gone.{is_gone};

    ghost is_gone = { is_gone };

    // Whether the id is applied and the deletions take it out.
    fn takes_out(&self, id: Id) -> bool {
        self.zone.is_applied(id) && self.deletes(id)
    }
}
