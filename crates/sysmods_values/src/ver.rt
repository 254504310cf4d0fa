//! `++VER` with its `++IF`s.
ghost use Rattle.std.specs.Prelude.{◌≡◌, ◌++◌, [], ◌∷◌, map, OnOk, OnErr};
ghost use Rattle.terms.specs.Lookups.{at_most_one, is_in};
ghost use Rattle.terms.specs.Global.{named, named_functions};

use fields::{Id, IdList, Srel};
use std::alloc::AllocError;
use std::marker::Model;

/// `++IF`: if the function is installed, these SYSMODs are required too.
#[derive(Drop)]
pub struct IfReq {
    pub function: Id,
    pub req: IdList,
}

impl Model for IfReq {
    ghost use Rattle.terms.specs.Types as terms;

    ghost Value = { terms.IfReq };

    ghost view = { λ a. record { function = a.function; req = a.req } };
}

/// `++VER`: its system release, and its operands. `DELETE` is `del`.
#[derive(Drop)]
pub struct Ver {
    pub srel: Srel,
    pub fmid: Option<Id>,
    pub pre: IdList,
    pub req: IdList,
    pub sup: IdList,
    pub npre: IdList,
    pub del: IdList,
    pub ifs: Vec<IfReq>,
}

impl Model for Ver {
    ghost use Rattle.terms.specs.Types as terms;

    ghost Value = { terms.Ver };

    ghost view = { λ a. record {
      srel = a.srel;
      fmid = a.fmid;
      pre = a.pre;
      req = a.req;
      sup = a.sup;
      npre = a.npre;
      del = a.del;
      ifs = a.ifs.items;
    } };
}

impl Ver {
    /// Puts the `++IF` after the others.
    pub(crate) fn push_if(&mut self, condition: IfReq) -> Result<(), AllocError>
        ensures ok { OnOk result (self.new ≡ record self.old { ifs = self.old.ifs ++ condition ∷ [] }) }
        ensures err { OnErr result (self.new ≡ self.old) }
    {
        self.ifs.push(condition)?;
        Ok(())
    }

    /// Appends the ids that it names in PRE, SUP and FMID.
    pub fn append_named(&self, found: &mut Vec<Id>) -> Result<(), AllocError>
        ensures { OnOk result (found.new.items ≡ found.old.items ++ named self.now) }
    {
        found.extend_from_slice(self.pre.as_slice())?;
        found.extend_from_slice(self.sup.as_slice())?;
        if let Some(fmid) = self.fmid {
            found.push(fmid)?;
        }
        Ok(())
    }

    // Whether its FMID is this id.
    fn is_fmid(&self, id: Id) -> bool
        ensures { result ≡ is_in (at_most_one self.now.fmid) id }
    {
        self.fmid == Some(id)
    }

    // Whether its PRE or its SUP contains the id.
    fn is_in_pre_or_sup(&self, id: Id) -> bool
        ensures { result ≡ is_in (self.now.pre ++ self.now.sup) id }
    {
        self.pre.contains(id) || self.sup.contains(id)
    }

    // Whether one of its `++IF`s has this function as its condition.
    fn has_if_for_function(&self, id: Id) -> bool
        ensures { result ≡ is_in (map (λ i. i.function) self.now.ifs) id }
    {
        self.ifs
            .iter()
            .map(|condition| condition.function)
            .any(|function| id == function)
    }

    /// Whether it names the id in PRE, SUP or FMID.
    #[tactic(auto, using(crate::proofs::Naming::named_parts))]
    pub fn names(&self, id: Id) -> bool
        ensures { result ≡ is_in (named self.now) id }
    {
        self.is_in_pre_or_sup(id) || self.is_fmid(id)
    }

    /// Whether its SUP names the id.
    pub fn supersedes(&self, id: Id) -> bool
        ensures { result ≡ is_in self.now.sup id }
    {
        self.sup.contains(id)
    }

    /// Whether it names the id as a function: in DELETE, in FMID or as the function of an `++IF`.
    #[tactic(auto, using(crate::proofs::Naming::function_parts))]
    pub fn names_function(&self, id: Id) -> bool
        ensures { result ≡ is_in (named_functions self.now) id }
    {
        self.del.contains(id) || self.is_fmid(id) || self.has_if_for_function(id)
    }
}
