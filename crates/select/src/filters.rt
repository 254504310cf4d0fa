//! The mass choice and its filters.
ghost use Rattle.std.specs.Prelude.{◌≡◌, ◌&&◌, ◌||◌, ◌∷◌, [], filter, if◌then◌else◌};
ghost use Rattle.std.specs.List.{flat_map, list_any};
ghost use Rattle.std.specs.Str.{bytes_eq};
ghost use Rattle.terms.specs.Lookups.{at_most_one, is_function, is_in, is_nil, meets};
ghost use Rattle.terms.specs.Choice.{vers_of};
ghost use Rattle.terms.specs.Candidates.{takes_kind, forfmid_ids, passes_filters, has_mass_choice};

use fields::{Id, IdList, Selection, SourceList, Srel};
use sysmods::GlobalZone;
use sysmods_values::{Sysmod, Ver};
use terms::Kind;
use zones::Zone;

// Whether the operands choose SYSMODs of the kind. PTFs are chosen unless only other kinds are named.
fn chooses_kind(selection: &Selection, kind: Kind) -> bool
    ensures { result ≡ takes_kind selection.now kind }
{
    match kind {
        Kind::Function => selection.functions,
        Kind::Ptf => selection.ptfs
            || !(selection.functions || selection.apars || selection.usermods),
        Kind::Apar => selection.apars,
        Kind::Usermod => selection.usermods,
    }
}

// Whether one of the sources is wanted.
fn has_source_among(sources: &SourceList, wanted: &SourceList) -> bool
    ensures { result ≡ meets sources.now wanted.now }
{
    sources.iter().any(|source| wanted.contains(*source))
}

// Whether SOURCEID is not given, or one of the sources is in it.
fn passes_sourceid(sources: &SourceList, wanted: &SourceList) -> bool
    ensures { result ≡ (is_nil wanted.now || meets sources.now wanted.now) }
{
    wanted.is_empty() || has_source_among(sources, wanted)
}

// Whether the `++VER` has an FMID that is wanted.
fn has_fmid_among(ver: &Ver, wanted: &IdList) -> bool
    ensures { result ≡ list_any (is_in wanted.now) (at_most_one ver.now.fmid) }
{
    match ver.fmid {
        Some(fmid) => wanted.contains(fmid),
        None => false,
    }
}

// Whether the `++VER` is for the SREL and has an FMID that is wanted.
fn is_for_srel_with_fmid_among(ver: &Ver, srel: Srel, wanted: &IdList) -> bool
    ensures { result ≡ (bytes_eq ver.now.srel srel && list_any (is_in wanted.now) (at_most_one ver.now.fmid)) }
{
    ver.srel == srel && has_fmid_among(ver, wanted)
}

// Whether one of the `++VER`s is for the SREL and has an FMID that is wanted.
fn has_ver_with_fmid_among(vers: &[Ver], srel: Srel, wanted: &IdList) -> bool
    ensures { result ≡ list_any (λ v. bytes_eq v.srel srel && list_any (is_in wanted.now) (at_most_one v.fmid))
        vers.now }
{
    vers.iter()
        .any(|ver| is_for_srel_with_fmid_among(ver, srel, wanted))
}

// Whether the SYSMOD belongs to one of the wanted functions: the FMID of one of its `++VER`s for the SREL is wanted.
fn belongs_to_function_among(global: &GlobalZone, srel: Srel, id: Id, wanted: &IdList) -> bool
    ensures { result ≡ meets (flat_map (λ v. at_most_one v.fmid) (vers_of global.now srel id)) wanted.now }
{
    match global.get(id) {
        Some(sysmod) => has_ver_with_fmid_among(sysmod.vers.as_slice(), srel, wanted),
        None => false,
    }
}

// Whether the SYSMOD is one of the wanted functions.
fn is_function_among(global: &GlobalZone, id: Id, wanted: &IdList) -> bool
    ensures { result ≡ meets (if is_function global.now id then id ∷ [] else []) wanted.now }
{
    global.is_function(id) && wanted.contains(id)
}

// Whether the SYSMOD is one of the wanted functions or belongs to one.
fn is_or_belongs_to_function_among(
    global: &GlobalZone,
    zone: &Zone,
    id: Id,
    wanted: &IdList,
) -> bool
    ensures { result ≡ meets (forfmid_ids global.now zone.now id) wanted.now }
{
    belongs_to_function_among(global, zone.srel(), id, wanted)
        || is_function_among(global, id, wanted)
}

// Whether FORFMID is not given, or names the SYSMOD or its function.
fn passes_forfmid(global: &GlobalZone, zone: &Zone, id: Id, wanted: &IdList) -> bool
    ensures { result ≡ (is_nil wanted.now || meets (forfmid_ids global.now zone.now id) wanted.now) }
{
    wanted.is_empty() || is_or_belongs_to_function_among(global, zone, id, wanted)
}

/// Whether the SYSMOD passes all filters of the mass choice.
pub(crate) fn passes_filters(
    global: &GlobalZone,
    zone: &Zone,
    selection: &Selection,
    sysmod: &Sysmod,
) -> bool
    ensures { result ≡ passes_filters global.now zone.now selection.now sysmod.now }
{
    chooses_kind(selection, sysmod.kind)
        && passes_sourceid(&sysmod.sources, &selection.sourceid)
        && passes_forfmid(global, zone, sysmod.id, &selection.forfmid)
}

// Whether SELECT and GROUP are both empty.
fn names_no_id(selection: &Selection) -> bool
    ensures { result ≡ (is_nil selection.now.select && is_nil selection.now.group) }
{
    selection.select.is_empty() && selection.group.is_empty()
}

/// Whether the command chooses by mass: it has a filter, or names no id in SELECT or GROUP.
pub(crate) fn has_mass_choice(selection: &Selection) -> bool
    ensures { result ≡ has_mass_choice selection.now }
{
    selection.functions
        || selection.ptfs
        || selection.apars
        || selection.usermods
        || !selection.sourceid.is_empty()
        || !selection.forfmid.is_empty()
        || names_no_id(selection)
}
