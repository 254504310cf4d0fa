//! Whether a received SYSMOD supersedes an id.
ghost use Rattle.std.specs.Prelude.{◌≡◌, ◌&&◌, IfOk};
ghost use Rattle.std.specs.List.{list_any};
ghost use Rattle.std.specs.Str.{bytes_eq};
ghost use Rattle.terms.specs.Lookups.{is_in};
ghost use Rattle.terms.specs.Candidates.{sups_for};
ghost use Rattle.smpe_mend.specs.Asked.{is_superseded};

use fields::{Id, Srel};
use std::alloc::{AllocError, Global};
use sysmods::GlobalZone;
use sysmods_values::Ver;

// Whether the `++VER` is for the SREL and names the id in SUP.
fn has_sup(ver: &Ver, srel: Srel, id: Id) -> bool
    ensures { result ≡ (bytes_eq ver.now.srel srel && is_in ver.now.sup id) }
{
    ver.srel == srel && ver.sup.contains(id)
}

// Whether one of the `++VER`s is for the SREL and names the id in SUP.
fn any_has_sup(vers: &[Ver], srel: Srel, id: Id) -> bool
    ensures { result ≡ list_any (λ v. bytes_eq v.srel srel && is_in v.sup id) vers.now }
{
    vers.iter().any(|ver| has_sup(ver, srel, id))
}

// Whether a `++VER` of the SYSMOD for the SREL names the id in SUP.
fn supersedes(global: &GlobalZone, srel: Srel, by: Id, id: Id) -> bool
    ensures { result ≡ is_in (sups_for global.now srel by) id }
{
    any_has_sup(global.vers_of(by), srel, id)
}

// Whether one of these SYSMODs supersedes the id.
fn any_supersedes(global: &GlobalZone, srel: Srel, ids: &[Id], id: Id) -> bool
    ensures { result ≡ list_any (λ y. is_in (sups_for global.now srel y) id) ids.now }
{
    ids.iter().any(|by| supersedes(global, srel, *by, id))
}

/// Whether a received SYSMOD supersedes the id by one of its `++VER`s for the SREL. The search goes only through those
/// that name it in some operand.
pub(crate) fn is_superseded(
    alloc: Global,
    global: &GlobalZone,
    srel: Srel,
    id: Id,
) -> Result<bool, AllocError>
    ensures { IfOk result (λ superseded. superseded ≡ is_superseded global.now srel id) }
{
    let mut namers = Vec::new(alloc);
    global.append_namers(srel, id, &mut namers)?;
    Ok(any_supersedes(global, srel, &namers, id))
}
