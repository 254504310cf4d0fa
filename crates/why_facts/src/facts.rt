//! All facts of an id in a zone.
ghost use Rattle.std.specs.Prelude.{◌≡◌, ◌+◌, ◌++◌, List, map, filter, IfOk};
ghost use Rattle.terms.specs.Types.{Id as AnId};
ghost use Rattle.terms.specs.Lookups.{IsZone, is_function, applied_ids};
ghost use Rattle.terms.specs.Choice.{place};
ghost use Rattle.sysmods.specs.Choices.{number_in};
ghost use Rattle.undo.specs.Scopes.{restoring_from};
ghost use Rattle.zones.specs.Scopes.{global_of, setting_of};
ghost use Rattle.why_facts.specs.Asking.{setting_in};
ghost use Rattle.report.specs.Facts.{SupersederFact, AreSuperseders, standing_facts, ver_facts};
ghost use Rattle.report.specs.Facts.{AreAsked, AreOfChanges, AreFacts};
ghost use Rattle.why_facts.specs.Needed.{needed_pairs};
ghost use Rattle.report.specs.FactViews.{facts_view};

use crate::asking::Asking;
use crate::deletes::delete_facts;
use crate::element_facts::element_facts;
use crate::forbids::npre_facts;
use crate::hold_facts::hold_facts;
use crate::joining::join_facts;
use crate::needed::{needed_facts, needed_pairs};
use crate::requisites::requisite_facts;
use crate::standing::standing_facts;
use crate::superseders::superseder_facts;
use crate::vers::ver_facts;
use fields::{Id, IdList};
use report::Fact;
use std::alloc::{AllocError, Global};
use sysmods::GlobalZone;
use undo::applied_ids;
use zones::{Scope, Zone, ZoneLess, counting_vers, deletions};

/// The global zone and a zone, and what is looked up once for all ids: those that are applied, the functions among
/// them, and which SYSMOD needs what an applied one alone supplies.
#[derive(Drop)]
pub struct Lookups<'a> {
    pub global: &'a GlobalZone,
    pub zone: &'a Zone,
    applied: Vec<Id>,
    functions: Vec<Id>,
    needed: Vec<(Id, Id)>,
    pub ghost zone_is: { IsZone zone.now },
    ghost applied_is: { applied.items ≡ applied_ids zone.now },
    ghost functions_is: { functions.items ≡ filter (is_function global.now) applied.items },
    ghost needed_is: { needed.items ≡ needed_pairs (restoring_from global.now zone.now zone.now) },
}

impl<'a> Lookups<'a> {
    /// Looks up, once for all ids, what their facts need of the global zone and the zone.
    pub fn find(alloc: Global, global: &'a GlobalZone, zone: &'a Zone) -> Result<Self, AllocError>
        ensures global { IfOk result (λ found. found.global.now ≡ global.now) }
        ensures zone { IfOk result (λ found. found.zone.now ≡ zone.now) }
    {
        let vers = counting_vers(alloc, global, zone, &IdList::new(alloc))?;
        let applied = applied_ids(alloc, zone)?;
        let functions = functions_among(alloc, global, applied.as_slice())?;
        let needed = needed_pairs(alloc, &vers, zone, applied.as_slice())?;
        Ok(Lookups {
            global,
            zone,
            applied,
            functions,
            needed,
        })
    }
}

// The functions among these ids.
fn functions_among(alloc: Global, global: &GlobalZone, ids: &[Id]) -> Result<Vec<Id>, AllocError>
    ensures { IfOk result (λ found. found.items ≡ filter (is_function global.now) ids.now) }
{
    ids.iter()
        .filter(|id| global.is_function(**id))
        .copied()
        .collect(alloc)
}

// The state of the id, its entry, and the SYSMODs that supersede it if it is missing.
fn standing_and_superseder_facts<'a>(
    alloc: Global,
    lookups: &Lookups<'a>,
    asking: &Asking<'_, 'a>,
) -> Result<Vec<Fact<'a>>, AllocError>
    ensures { IfOk result (λ facts. (ids : List AnId) × AreSuperseders (setting_in asking.now) asking.now.id ids
        × (facts_view facts.items
        ≡ standing_facts lookups.now.global.now lookups.now.zone.now asking.now.id ++ map SupersederFact ids)) }
{
    let facts = standing_facts(alloc, lookups.global, lookups.zone, asking.id)?;
    let superseders = superseder_facts(alloc, asking)?;
    join_facts(facts, superseders)
}

// The same, and its `++VER`s.
fn own_facts<'a>(
    alloc: Global,
    lookups: &Lookups<'a>,
    asking: &Asking<'_, 'a>,
) -> Result<Vec<Fact<'a>>, AllocError>
    requires { number_in asking.now.scope.vers.now asking.now.id
        ≡ place (global_of asking.now.scope) asking.now.scope.zone.now asking.now.scope.ids.now asking.now.id + 1 }
    ensures { IfOk result (λ facts. (ids : List AnId) × AreSuperseders (setting_in asking.now) asking.now.id ids
        × (facts_view facts.items
        ≡ standing_facts lookups.now.global.now lookups.now.zone.now asking.now.id ++ map SupersederFact ids
        ++ ver_facts (setting_in asking.now) asking.now.id)) }
{
    let facts = standing_and_superseder_facts(alloc, lookups, asking)?;
    let vers = ver_facts(alloc, &asking.scope, asking.id)?;
    join_facts(facts, vers)
}

// What the id asks for, and the holds on it.
fn requisite_and_hold_facts<'a>(
    alloc: Global,
    asking: &Asking<'_, 'a>,
) -> Result<Vec<Fact<'a>>, AllocError>
    ensures { IfOk result (λ facts. AreAsked (setting_in asking.now) asking.now.id (facts_view facts.items)) }
{
    let facts = requisite_facts(alloc, asking)?;
    let holds = hold_facts(alloc, asking)?;
    join_facts(facts, holds)
}

// The elements that the id changes, and what it deletes and forbids.
fn change_facts(alloc: Global, asking: &Asking<'_, '_>) -> Result<Vec<Fact<'static>>, AllocError>
    ensures { IfOk result (λ facts. AreOfChanges (setting_in asking.now) asking.now.id (facts_view facts.items)) }
{
    let elements = element_facts(alloc, asking)?;
    let deletes = delete_facts(alloc, asking)?;
    let facts = join_facts(elements, deletes)?;
    let forbids = npre_facts(alloc, asking)?;
    join_facts(facts, forbids)
}

// All facts of the id, in the order of the report.
fn all_facts<'a>(
    alloc: Global,
    lookups: &Lookups<'a>,
    asking: &Asking<'_, 'a>,
) -> Result<Vec<Fact<'a>>, AllocError>
    requires global { global_of asking.now.scope ≡ lookups.now.global.now }
    requires zone { asking.now.scope.zone.now ≡ lookups.now.zone.now }
    requires number { number_in asking.now.scope.vers.now asking.now.id
        ≡ place (global_of asking.now.scope) asking.now.scope.zone.now asking.now.scope.ids.now asking.now.id + 1 }
    ensures { IfOk result (λ facts. AreFacts (setting_in asking.now) asking.now.id (facts_view facts.items)) }
{
    let own = own_facts(alloc, lookups, asking)?;
    let asked = requisite_and_hold_facts(alloc, asking)?;
    let up_to_holds = join_facts(own, asked)?;
    let changes = change_facts(alloc, asking)?;
    let up_to_changes = join_facts(up_to_holds, changes)?;
    let needed = needed_facts(alloc, lookups.needed.as_slice(), asking.id)?;
    join_facts(up_to_changes, needed)
}

/// All facts of the id, for an install with the candidates of this scope.
pub fn id_facts<'a>(
    alloc: Global,
    lookups: &Lookups<'a>,
    scope: &Scope<'_, 'a>,
    id: Id,
) -> Result<Vec<Fact<'a>>, AllocError>
    requires global { scope.now.vers.now.global.now ≡ lookups.now.global.now }
    requires zone { scope.now.zone.now ≡ lookups.now.zone.now }
    requires srel { scope.now.vers.now.srel ≡ scope.now.zone.now.srel }
    requires number { number_in scope.now.vers.now id
        ≡ place scope.now.vers.now.global.now scope.now.zone.now scope.now.ids.now id + 1 }
    ensures { IfOk result (λ facts. AreFacts (setting_of scope.now) id (facts_view facts.items)) }
{
    let view_dels = scope.view_deletions(alloc, id)?;
    let own_dels = deletions(alloc, scope.vers, &[id])?;
    let asking = Asking {
        scope: *scope,
        id,
        seen: ZoneLess {
            vers: scope.vers,
            dels: view_dels.as_slice(),
            zone: scope.zone,
        },
        left: ZoneLess {
            vers: scope.vers,
            dels: own_dels.as_slice(),
            zone: scope.zone,
        },
        applied: lookups.applied.as_slice(),
        functions: lookups.functions.as_slice(),
    };
    all_facts(alloc, lookups, &asking)
}
