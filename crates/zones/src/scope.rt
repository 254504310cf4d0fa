//! Where the needs of an APPLY are looked up.
ghost use Rattle.std.specs.Prelude.{◌≡◌, ◌||◌, IfOk, filter};
ghost use Rattle.terms.specs.Lookups.{IsRising, is_in};
ghost use Rattle.terms.specs.Over.{chain};
ghost use Rattle.terms.specs.Deleted.{deletions};
ghost use Rattle.terms.specs.declared.codes.NeedKind.TheVariants.{Pre, Req, Ifreq};
ghost use Rattle.terms.specs.Needs.{is_bypassed};
ghost use Rattle.sysmods.specs.Choices.{choice};
ghost use Rattle.terms.specs.Choice.{fmid_of, pre_of, req_of, ifs_of};

use crate::deleting::chain_deletions;
use fields::{Bypass, Id, IdList};
use std::alloc::{AllocError, Global};
use sysmods::{GlobalZone, VerChoice};
use sysmods_values::IfReq;
use terms::NeedKind;
use zones_maps::Zone;

/// The `++VER`s that count, the zone, the candidates, what they name in DELETE as `deletions` returns it, and BYPASS.
#[derive(Clone, Copy)]
pub struct Scope<'a, 'b> {
    pub vers: &'a VerChoice<'b>,
    pub zone: &'a Zone,
    pub ids: &'a IdList,
    pub dels: &'a [Id],
    pub bypass: &'a Bypass,
    pub ghost are_deletions: { dels.now ≡ deletions (choice vers.now) ids.now },
}

impl<'a, 'b> Scope<'a, 'b> {
    /// The global zone.
    pub fn global(&self) -> &'b GlobalZone
        ensures { result.now ≡ self.now.vers.now.global.now }
    {
        self.vers.global()
    }

    /// The FMID of a SYSMOD.
    pub fn fmid(&self, id: Id) -> Option<Id>
        ensures { result ≡ fmid_of (choice self.now.vers.now) id }
    {
        self.vers.fmid(id)
    }

    /// The PRE of a SYSMOD.
    pub fn pre(&self, id: Id) -> &'b [Id]
        ensures items { result.now ≡ pre_of (choice self.now.vers.now) id }
        ensures rising { IsRising result.now }
    {
        match self.vers.ver(id) {
            Some(ver) => ver.pre.as_slice(),
            None => &[],
        }
    }

    /// The REQ of a SYSMOD.
    pub fn req(&self, id: Id) -> &'b [Id]
        ensures items { result.now ≡ req_of (choice self.now.vers.now) id }
        ensures rising { IsRising result.now }
    {
        match self.vers.ver(id) {
            Some(ver) => ver.req.as_slice(),
            None => &[],
        }
    }

    /// The `++IF`s of a SYSMOD.
    pub fn ifs(&self, id: Id) -> &'b [IfReq]
        ensures { result.now ≡ ifs_of (choice self.now.vers.now) id }
    {
        match self.vers.ver(id) {
            Some(ver) => ver.ifs.as_slice(),
            None => &[],
        }
    }

    /// What the candidates in the chain of this SYSMOD name in DELETE: the SYSMOD sees the zone without these. Usually
    /// no candidate names anything in DELETE, and then the call walks no chain.
    pub fn view_deletions(&self, alloc: Global, id: Id) -> Result<Vec<Id>, AllocError>
        ensures { IfOk result (λ dels. dels.items ≡ deletions (choice self.now.vers.now)
            (filter (is_in self.now.ids.now) (chain self.now.vers.now.global.now (choice self.now.vers.now) id))) }
    {
        if self.dels.is_empty() {
            return Ok(Vec::new(alloc));
        }
        chain_deletions(alloc, self.vers, self.ids, id)
    }

    /// Whether BYPASS(PRE), BYPASS(REQ) or BYPASS(IFREQ) covers needs of the kind.
    pub fn is_bypassed(&self, kind: NeedKind) -> bool
        ensures { result ≡ is_bypassed self.now.bypass.now kind }
    {
        self.bypass.covers(kind)
    }

    /// Whether BYPASS covers any requisites at all.
    pub fn bypasses_requisites(&self) -> bool
        ensures { result ≡ (is_bypassed self.now.bypass.now Pre || is_bypassed self.now.bypass.now Req
            || is_bypassed self.now.bypass.now Ifreq) }
    {
        self.is_bypassed(NeedKind::Pre)
            || self.is_bypassed(NeedKind::Req)
            || self.is_bypassed(NeedKind::Ifreq)
    }
}
