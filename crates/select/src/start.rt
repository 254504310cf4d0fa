//! What the mass choice, SELECT and GROUP name.
ghost use Rattle.std.specs.Prelude.{◌≡◌, ◌||◌, ◌↔◌, false, filter, map, Contains, IsTrue, IfOk};
ghost use Rattle.std.specs.Option.{option_map_or};
ghost use Rattle.terms.specs.Types.{Id as AnId};
ghost use Rattle.terms.specs.Lookups.{is_in, sysmod_of};
ghost use Rattle.terms.specs.Candidates.{passes_filters};
ghost use Rattle.select.specs.Scopes.{is_mass_chosen_in, is_start_in, is_growing_start_in, named_ids};
ghost use Rattle.select.specs.Growing.{brings_others};

use crate::filters::{has_mass_choice, passes_filters};
use crate::scope::Selecting;
use fields::{Id, Selection};
use std::alloc::{AllocError, Global};
use sysmods::GlobalZone;

/// Whether SELECT or GROUP names the id.
pub(crate) fn is_named(selection: &Selection, id: Id) -> bool
    ensures { result ≡ (is_in selection.now.select id || is_in selection.now.group id) }
{
    selection.select.contains(id) || selection.group.contains(id)
}

/// Whether an id of the start brings others in: under GROUPEXTEND each does, and otherwise each that GROUP names.
pub(crate) fn brings_others(selection: &Selection, id: Id) -> bool
    ensures { result ≡ brings_others selection.now id }
{
    selection.groupextend || selection.group.contains(id)
}

impl<'a> Selecting<'a> {
    // Whether the id is received and its SYSMOD passes all filters.
    fn passes_its_filters(&self, id: Id) -> bool
        ensures { result ≡ option_map_or (passes_filters self.now.global self.now.zone self.now.selection)
            (sysmod_of self.now.global id) false }
    {
        match self.global.get(id) {
            Some(sysmod) => passes_filters(self.global, self.zone, self.selection, sysmod),
            None => false,
        }
    }

    // Whether the command chooses by mass and the SYSMOD passes its filters.
    fn is_mass_chosen(&self, id: Id) -> bool
        ensures { result ≡ is_mass_chosen_in self.now id }
    {
        has_mass_choice(self.selection) && self.passes_its_filters(id)
    }

    /// Whether the search starts with the id: it is open, and the mass choice, SELECT or GROUP names it.
    pub(crate) fn is_start_id(&self, id: Id) -> bool
        ensures { result ≡ is_start_in self.now id }
    {
        self.is_open(id) && (is_named(self.selection, id) || self.is_mass_chosen(id))
    }

    /// Whether the search starts with the id, and the id brings others in.
    pub(crate) fn is_growing_start_id(&self, id: Id) -> bool
        ensures { result ≡ is_growing_start_in self.now id }
    {
        self.is_start_id(id) && brings_others(self.selection, id)
    }
}

/// The ids of SELECT and of GROUP.
pub(crate) fn named_ids(alloc: Global, selection: &Selection) -> Result<Vec<Id>, AllocError>
    ensures { IfOk result (λ ids. ids.items ≡ named_ids selection.now) }
{
    let mut ids = Vec::from_slice(alloc, selection.select.as_slice())?;
    ids.extend_from_slice(selection.group.as_slice())?;
    Ok(ids)
}

// The ids of all received SYSMODs.
fn received_ids(alloc: Global, global: &GlobalZone) -> Result<Vec<Id>, AllocError>
    ensures { IfOk result (λ ids. ids.items ≡ map (λ s. s.id) global.now.sysmods) }
{
    let mut ids = Vec::new(alloc);
    for sysmod in global.sysmods() {
        ids.push(sysmod.id)?;
    }
    Ok(ids)
}

// A list that has all ids of the start: the named ones, or all received ones if the command chooses by mass.
fn possible_start_ids(alloc: Global, scope: &Selecting) -> Result<Vec<Id>, AllocError>
    ensures { IfOk result (λ ids. (x : AnId) → IsTrue (is_start_in scope.now x) → Contains ids.items x) }
{
    if has_mass_choice(scope.selection) {
        received_ids(alloc, scope.global)
    } else {
        named_ids(alloc, scope.selection)
    }
}

// The ids of the start among these.
fn start_ids_among(alloc: Global, scope: &Selecting, ids: &[Id]) -> Result<Vec<Id>, AllocError>
    ensures { IfOk result (λ start. start.items ≡ filter (is_start_in scope.now) ids.now) }
{
    ids.iter()
        .filter(|id| scope.is_start_id(**id))
        .copied()
        .collect(alloc)
}

/// The open ids that the mass choice, SELECT or GROUP names. Some may occur twice.
pub(crate) fn start_ids(alloc: Global, scope: &Selecting) -> Result<Vec<Id>, AllocError>
    ensures { IfOk result (λ start. (x : AnId) → Contains start.items x ↔ IsTrue (is_start_in scope.now x)) }
{
    let ids = possible_start_ids(alloc, scope)?;
    start_ids_among(alloc, scope, ids.as_slice())
}
