//! All that breaks the rules of a clean stream.
ghost use Rattle.std.specs.Prelude.{◌≡◌, ◌↔◌, [], ℕ, List, Contains, IsTrue, IfOk};
ghost use Rattle.terms.specs.Types.{Global as AGlobal};
ghost use Rattle.terms.specs.Stream.{IsInStream, IsClean, ver_for};
ghost use Rattle.sysmods.specs.Choices.{choice};
ghost use Rattle.stream.specs.Breaches.{IsLostRequisite, IsLostElement};
ghost use Rattle.stream.specs.Kept.{AreKnown};
ghost use Rattle.stream.specs.Lints.{AreFindings};
ghost use Rattle.stream.specs.declared.breaches.LostRequisite.{LostRequisite as ALostRequisite};
ghost use Rattle.stream.specs.declared.breaches.LostElement.{LostElement as ALostElement};

use crate::breaches::{LostElement, LostRequisite, Unordered};
use crate::elements::append_lost_elements;
use crate::first_vers::{first_vers, stream_ids};
use crate::keeping::{Suspects, all_suspects};
use crate::order::in_order;
use crate::remarks::{Remark, all_remarks};
use crate::requisites::append_lost_requisites;
use crate::unordered::unordered_pairs;
use fields::{Id, Srel};
use indexmap::IndexSet;
use std::alloc::{AllocError, Global};
use sysmods::{GlobalZone, VerChoice};

/// All that breaks the rules of a clean stream. If pairs are unordered, `unordered` has at least one of them for each
/// element and owner that has any.
#[derive(Drop)]
pub struct Findings {
    pub requisites: Vec<LostRequisite>,
    pub elements: Vec<LostElement>,
    pub unordered: Vec<Unordered>,
    /// What breaks no rule.
    pub remarks: Vec<Remark>,
}

impl Findings {
    // Whether no requisite is lost.
    fn has_all_requisites(&self) -> bool
        ensures { IsTrue result ↔ (self.now.requisites.items ≡ []) }
    {
        self.requisites.is_empty()
    }

    // Whether no element is lost.
    fn has_all_elements(&self) -> bool
        ensures { IsTrue result ↔ (self.now.elements.items ≡ []) }
    {
        self.elements.is_empty()
    }

    // Whether no pair is unordered.
    fn is_ordered(&self) -> bool
        ensures { IsTrue result ↔ (self.now.unordered.items ≡ []) }
    {
        self.unordered.is_empty()
    }

    // Whether there is nothing.
    fn is_empty(&self) -> bool
        ensures { IsTrue result ↔ ((self.now.requisites.items ≡ []) × (self.now.elements.items ≡ [])
            × (self.now.unordered.items ≡ [])) }
    {
        self.has_all_requisites() && self.has_all_elements() && self.is_ordered()
    }

    /// Whether nothing breaks the rules: the stream is clean.
    pub fn is_clean(&self) -> bool
        ensures { (g : AGlobal) (srel : List ℕ) → AreFindings g srel self.now
            → (IsTrue result ↔ IsClean g (ver_for g srel)) }
    {
        self.is_empty()
    }
}

/// What is lost to SYSMODs that supersede others.
#[derive(Drop)]
struct Lost {
    requisites: Vec<LostRequisite>,
    elements: Vec<LostElement>,
}

// The requisites that SYSMODs of the stream lack.
fn lost_requisites(
    alloc: Global,
    suspects: &Suspects<'_, '_>,
    ids: &[Id],
) -> Result<Vec<LostRequisite>, AllocError>
    requires known { AreKnown suspects.now }
    requires ids { (x : List ℕ) → Contains ids.now x ↔ IsInStream (choice suspects.now.vers.now) x }
    ensures { IfOk result (λ found. (b : ALostRequisite) → Contains found.items b
        ↔ IsLostRequisite (choice suspects.now.vers.now) b) }
{
    let mut found = Vec::new(alloc);
    for id in ids {
        append_lost_requisites(alloc, suspects, *id, &mut found)?;
    }
    Ok(found)
}

// The elements that SYSMODs of the stream do not change.
fn lost_elements(
    alloc: Global,
    suspects: &Suspects<'_, '_>,
    ids: &[Id],
) -> Result<Vec<LostElement>, AllocError>
    requires known { AreKnown suspects.now }
    requires ids { (x : List ℕ) → Contains ids.now x ↔ IsInStream (choice suspects.now.vers.now) x }
    ensures { IfOk result (λ found. (b : ALostElement) → Contains found.items b
        ↔ IsLostElement suspects.now.vers.now.global.now (choice suspects.now.vers.now) b) }
{
    let mut found = Vec::new(alloc);
    for id in ids {
        append_lost_elements(suspects, *id, &mut found)?;
    }
    Ok(found)
}

// All that is lost to SYSMODs of the stream, which are compared in this order.
fn all_lost(
    alloc: Global,
    vers: &VerChoice<'_>,
    ids: &[Id],
    placed: &IndexSet<Id>,
) -> Result<Lost, AllocError>
    requires { (x : List ℕ) → Contains ids.now x ↔ IsInStream (choice vers.now) x }
    ensures requisites { IfOk result (λ lost. (b : ALostRequisite) → Contains lost.requisites.items b
        ↔ IsLostRequisite (choice vers.now) b) }
    ensures elements { IfOk result (λ lost. (b : ALostElement) → Contains lost.elements.items b
        ↔ IsLostElement vers.now.global.now (choice vers.now) b) }
{
    let suspects = all_suspects(alloc, vers, placed)?;
    let requisites = lost_requisites(alloc, &suspects, ids)?;
    let elements = lost_elements(alloc, &suspects, ids)?;
    Ok(Lost {
        requisites,
        elements,
    })
}

/// All that breaks the rules, in the stream for this SREL.
pub fn lint(alloc: Global, global: &GlobalZone, srel: Srel) -> Result<Findings, AllocError>
    ensures { IfOk result (AreFindings global.now srel) }
{
    let vers = first_vers(alloc, global, srel);
    let ids = stream_ids(alloc, &vers)?;
    let placed = in_order(alloc, &vers, ids.as_slice())?;
    let lost = all_lost(alloc, &vers, ids.as_slice(), &placed)?;
    let unordered = unordered_pairs(alloc, &vers, placed.as_slice())?;
    let remarks = all_remarks(alloc, &vers, srel, ids.as_slice())?;
    Ok(Findings {
        requisites: lost.requisites,
        elements: lost.elements,
        unordered,
        remarks,
    })
}
