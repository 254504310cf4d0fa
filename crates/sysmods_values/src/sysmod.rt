//! A SYSMOD.
ghost use Rattle.std.specs.Prelude.{◌≡◌, ◌++◌, ◌&&◌, [], filter, OnOk, OnErr};
ghost use Rattle.std.specs.List.{flat_map, list_any};
ghost use Rattle.std.specs.Str.{bytes_eq};
ghost use Rattle.terms.specs.Lookups.{is_in};
ghost use Rattle.terms.specs.Global.{named, named_functions, with_source};

use crate::{ElemChange, Hold, Ver};
use fields::{Attest, Id, Source, SourceList, Srel};
use std::alloc::{AllocError, Global};
use std::marker::Model;
use std::mem;
use terms::Kind;

/// A SYSMOD with its sources, its `++VER`s, its element statements by type and name and, until it is received, the
/// holds that came inside it.
#[derive(Drop)]
pub struct Sysmod {
    pub id: Id,
    pub kind: Kind,
    pub sources: SourceList,
    pub vers: Vec<Ver>,
    pub changes: Vec<ElemChange>,
    pub holds: Vec<Hold>,
}

impl Model for Sysmod {
    ghost use Rattle.terms.specs.Types as terms;

    ghost Value = { terms.Sysmod };

    ghost use Rattle.sysmods_values.specs.SysmodView.{sysmod_of};
    ghost use Rattle.terms.specs.Global.{IsSysmod};

    ghost view = { sysmod_of };

    ghost invariant = { λ a. IsSysmod (sysmod_of a) };
}

impl Attest for Sysmod {
    ghost use Rattle.terms.specs.Global.{IsSysmod};

    ghost form = { IsSysmod };

    fn attest(&self) {
        // Reading a field makes the invariant known.
        let _ = &self.id;
    }
}

impl Sysmod {
    /// Adds the source in order, unless it is there already.
    pub fn insert_source(&mut self, source: Source) -> Result<(), AllocError>
        ensures ok { OnOk result (self.new ≡ with_source source self.old) }
        ensures err { OnErr result (self.new ≡ self.old) }
    {
        self.sources.insert(source)?;
        Ok(())
    }

    /// Takes its holds out and returns them.
    pub fn take_holds(&mut self, alloc: Global) -> Vec<Hold>
        ensures holds { result.items ≡ self.old.holds }
        ensures rest { self.new ≡ record self.old { holds = [] } }
    {
        mem::replace(&mut self.holds, Vec::new(alloc))
    }

    /// Appends the ids that its `++VER`s for the SREL name in PRE, SUP and FMID.
    pub fn append_named(&self, srel: Srel, found: &mut Vec<Id>) -> Result<(), AllocError>
        ensures { OnOk result (found.new.items ≡ found.old.items ++ flat_map named (filter
            (λ v. bytes_eq v.srel srel) self.now.vers)) }
    {
        for ver in self.vers.iter() {
            if ver.srel == srel {
                ver.append_named(found)?;
            }
        }
        Ok(())
    }

    /// Whether one of its `++VER`s names the id in PRE, SUP or FMID.
    pub fn names(&self, id: Id) -> bool
        ensures { result ≡ list_any (λ v. is_in (named v) id) self.now.vers }
    {
        self.vers.iter().any(|ver| ver.names(id))
    }

    /// Whether one of its `++VER`s for the SREL names the id in PRE, SUP or FMID.
    pub fn names_for(&self, srel: Srel, id: Id) -> bool
        ensures { result ≡ list_any (λ v. bytes_eq v.srel srel && is_in (named v) id) self.now.vers }
    {
        self.vers
            .iter()
            .any(|ver| ver.srel == srel && ver.names(id))
    }

    /// Whether the SUP of one of its `++VER`s names the id.
    pub fn supersedes(&self, id: Id) -> bool
        ensures { result ≡ list_any (λ v. is_in v.sup id) self.now.vers }
    {
        self.vers.iter().any(|ver| ver.supersedes(id))
    }

    /// Whether one of its `++VER`s names the id as a function: in DELETE, in FMID or in an `++IF`.
    pub fn names_function(&self, id: Id) -> bool
        ensures { result ≡ list_any (λ v. is_in (named_functions v) id) self.now.vers }
    {
        self.vers.iter().any(|ver| ver.names_function(id))
    }
}
