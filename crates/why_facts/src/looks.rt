//! Look-ups in an id's view of the zone, and in the zone less what its DELETE takes out.
ghost use Rattle.std.specs.Prelude.{◌≡◌, not, filter, option_copied, IfOk};
ghost use Rattle.terms.specs.Lookups.{is_applied, element_of, supby_of};
ghost use Rattle.terms.specs.Needs.{is_met};
ghost use Rattle.terms.specs.Tests.{has_candidate_base};
ghost use Rattle.zones.specs.Gone.{is_gone};
ghost use Rattle.why_facts.specs.Asking.{setting_in, view_in, left_in, is_there};

use crate::asking::Asking;
use fields::{Id, Name};
use std::alloc::{AllocError, Global};
use terms::{ElemType, NeedKind};
use zones::{Element, TakesOut};

impl<'a, 'b> Asking<'a, 'b> {
    /// Whether the SYSMOD is applied in the view of the id in question.
    pub(crate) fn is_applied_in_view(&self, id: Id) -> bool
        ensures { result ≡ is_applied (view_in self.now) id }
    {
        self.seen.is_applied(id)
    }

    /// Whether the function is applied in the view, or is one of the candidates.
    pub(crate) fn has_function(&self, id: Id) -> bool
        ensures { result ≡ is_there self.now id }
    {
        self.is_applied_in_view(id) || self.scope.ids.contains(id)
    }

    /// The element, if the view has it.
    pub(crate) fn element(&self, elem_type: ElemType, name: Name) -> Option<&'a Element>
        ensures { option_copied result ≡ element_of (view_in self.now) elem_type name }
    {
        self.seen.element(elem_type, name)
    }

    /// Whether the FMID of the id in question is a candidate that replaces the element.
    pub(crate) fn is_brought(&self, elem_type: ElemType, name: Name) -> bool
        ensures { result ≡ has_candidate_base (setting_in self.now) self.now.id elem_type name }
    {
        let scope = &self.scope;
        match scope.fmid(self.id) {
            Some(fmid) => {
                scope.ids.contains(fmid) && scope.global().has_replacement(fmid, elem_type, name)
            }
            None => false,
        }
    }

    /// Whether the SYSMOD is applied, and the DELETE of the id in question does not take it out.
    pub(crate) fn remains_applied(&self, id: Id) -> bool
        ensures { result ≡ is_applied (left_in self.now) id }
    {
        self.left.is_applied(id)
    }

    /// Whether the zone meets the need, without what the DELETE of the id in question takes out.
    pub(crate) fn meets_need(&self, kind: NeedKind, id: Id) -> bool
        ensures { result ≡ is_met (left_in self.now) kind id }
    {
        self.left.meets_need(kind, id)
    }

    // The ids among these that the DELETE does not take out.
    fn not_deleted(&self, alloc: Global, ids: &[Id]) -> Result<Vec<Id>, AllocError>
        ensures { IfOk result (λ kept. kept.items ≡ filter (λ y. not (is_gone self.now.left y)) ids.now) }
    {
        ids.iter()
            .filter(|id| !self.left.takes_out(**id))
            .copied()
            .collect(alloc)
    }

    /// The SYSMODs that supersede the id and that the DELETE does not take out.
    pub(crate) fn superseders(&self, alloc: Global, id: Id) -> Result<Vec<Id>, AllocError>
        ensures { IfOk result (λ ids. ids.items ≡ supby_of (left_in self.now) id) }
    {
        match self.left.zone.entry(id) {
            Some(found) => self.not_deleted(alloc, found.supby.as_slice()),
            None => Ok(Vec::new(alloc)),
        }
    }
}
