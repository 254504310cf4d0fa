//! Which ids are over which, with what was found before.
ghost use Rattle.std.specs.Prelude.{◌≡◌, ◌↔◌, ◌||◌, IsTrue, IfOk};
ghost use Rattle.indexmap.specs.IndexMap.{keys, values};
ghost use Rattle.terms.specs.Choice.{pre_of, sup_of};
ghost use Rattle.terms.specs.Over.{IsOver};
ghost use Rattle.sysmods.specs.Choices.{choice};
ghost use Rattle.sysmods.specs.Graphs.{IsGraph};
ghost use Rattle.sysmods.specs.Overs.{AreOver, is_known_over, is_any_known_over};

use crate::over_graph::OverGraph;
use crate::ver_choice::VerChoice;
use fields::Id;
use indexmap::IndexSet;
use std::alloc::{AllocError, Global};
use std::marker::Model;

/// Which id is over which by the `++VER`s that count. It keeps the pairs that it has found, and a graph of what it has
/// gone through. A contract sees it as the choice of these `++VER`s.
#[derive(Drop)]
pub struct Overs<'a, 'b> {
    vers: &'a VerChoice<'b>,
    known: IndexSet<(Id, Id)>,
    graph: OverGraph,
}

/// The pairs of ids that an `Overs` has found, the first over the second, without the choice of `++VER`s that makes
/// them so. A contract sees their list.
#[derive(Drop)]
pub struct KnownOvers {
    pairs: IndexSet<(Id, Id)>,
}

impl Model for KnownOvers {
    ghost use Rattle.std.specs.Prelude.{List};
    ghost use Rattle.terms.specs.Types.{Id as AnId};

    ghost Value = { List (AnId × AnId) };

    ghost view = { λ a. a.pairs.keys };
}

impl<'a, 'b> Model for Overs<'a, 'b> {
    ghost use Rattle.sysmods.specs.declared.ver_choice.VerChoice as choices;

    ghost Value = { choices.VerChoice };

    ghost use Rattle.sysmods.specs.Choices.{choice};
    ghost use Rattle.sysmods.specs.Overs.{IsKept};

    ghost view = { λ a. a.vers.now };

    ghost invariant = { λ a. IsKept (choice a.vers.now) a.known.keys a.graph.nodes.entries };
}

impl<'a, 'b> Overs<'a, 'b> {
    /// An `Overs` of this choice that has found no pairs yet.
    pub fn new(alloc: Global, vers: &'a VerChoice<'b>) -> Self
        ensures { result ≡ vers.now }
    {
        Overs {
            vers,
            known: IndexSet::new(alloc),
            graph: OverGraph::new(alloc),
        }
    }

    /// Continues with the pairs that another `Overs` of the same choice has found.
    pub fn resume(vers: &'a VerChoice<'b>, known: KnownOvers) -> Self
        requires { AreOver (choice vers.now) known }
        ensures { result ≡ vers.now }
    {
        let graph = OverGraph::new(*known.pairs.allocator());
        Overs {
            vers,
            known: known.pairs,
            graph,
        }
    }

    /// The pairs that it has found, for `resume`.
    pub fn into_known(self) -> KnownOvers
        ensures { AreOver (choice self.entry) result }
    {
        KnownOvers { pairs: self.known }
    }

    /// The choice of the `++VER`s that count.
    pub fn vers(&self) -> &'a VerChoice<'b>
        ensures { result.now ≡ self.now }
    {
        self.vers
    }

    /// Whether x is over z: PRE, SUP and FMID lead from x to z. After an error the call may be repeated.
    pub fn over(&mut self, alloc: Global, x: Id, z: Id) -> Result<bool, AllocError>
        ensures over { IfOk result (λ over. IsTrue over ↔ IsOver (choice self.old) x z) }
        ensures same { self.new ≡ self.old }
    {
        if is_known_over(&self.known, x, z) {
            return Ok(true);
        }
        if !is_over(alloc, self.vers, &self.known, &mut self.graph, x, z)? {
            return Ok(false);
        }
        self.known.insert((x, z))?;
        Ok(true)
    }
}

// Whether x is known to be over z.
fn is_known_over(known: &IndexSet<(Id, Id)>, x: Id, z: Id) -> bool
    ensures { result ≡ is_known_over known.now.keys x z }
{
    known.contains(&(x, z))
}

// Whether one of these ids is known to be over z.
fn is_any_known_over(known: &IndexSet<(Id, Id)>, ids: &[Id], z: Id) -> bool
    ensures { result ≡ is_any_known_over known.now.keys ids.now z }
{
    ids.iter().any(|id| is_known_over(known, *id, z))
}

// Whether x names in PRE or SUP an id that is known to be over z.
fn names_any_known_over(vers: &VerChoice<'_>, known: &IndexSet<(Id, Id)>, x: Id, z: Id) -> bool
    ensures { result ≡ (is_any_known_over known.now.keys (pre_of (choice vers.now) x) z
        || is_any_known_over known.now.keys (sup_of (choice vers.now) x) z) }
{
    match vers.ver(x) {
        Some(ver) => {
            is_any_known_over(known, ver.pre.as_slice(), z)
                || is_any_known_over(known, ver.sup.as_slice(), z)
        }
        None => false,
    }
}

// Whether x is over z. No search is needed if x names z itself or an id that is known to be over z. Otherwise the graph
// grows by x and all ids to which x leads.
fn is_over(
    alloc: Global,
    vers: &VerChoice<'_>,
    known: &IndexSet<(Id, Id)>,
    graph: &mut OverGraph,
    x: Id,
    z: Id,
) -> Result<bool, AllocError>
    requires known { AreOver (choice vers.now) known.now.keys }
    requires graph { IsGraph (choice vers.now) (keys graph.old.nodes) (values graph.old.nodes) }
    ensures over { IfOk result (λ over. IsTrue over ↔ IsOver (choice vers.now) x z) }
    ensures graph { IsGraph (choice vers.now) (keys graph.new.nodes) (values graph.new.nodes) }
{
    if vers.names(x, z) {
        return Ok(true);
    }
    if names_any_known_over(vers, known, x, z) {
        return Ok(true);
    }
    graph.add_with_named(alloc, vers, x)?;
    graph.over(alloc, vers, x, z)
}
