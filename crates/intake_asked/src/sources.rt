//! The source ids that SOURCEID names.
ghost use Rattle.std.specs.Prelude.{◌≡◌, ◌≢◌, ◌-◌, [], ◌∷◌, IfOk, IfSome, IfNone, All, map, filter, take, length};
ghost use Rattle.std.specs.Prelude.{nat_eq, false, true};
ghost use Rattle.std.specs.List.{flat_map, starts_with};
ghost use Rattle.intake_asked.specs.Words.{is_starred, sources_of};

use crate::known::KnownSysmod;
use crate::same::texts_of;
use std::alloc::{AllocError, Global};

// The text before the asterisk at the end of a member, which names all source ids that begin so. Returns `None` for a
// member without that asterisk.
fn pattern_prefix(member: &[u8]) -> Option<&[u8]>
    ensures some { IfSome result (λ prefix. (is_starred member.now ≡ true)
        × (prefix.now ≡ take (length member.now - 1) member.now)) }
    ensures none { IfNone result (is_starred member.now ≡ false) }
{
    member.strip_suffix(b"*")
}

// All known source ids.
fn known_sources(alloc: Global, known: &[KnownSysmod]) -> Result<Vec<&[u8]>, AllocError>
    ensures { IfOk result (λ all. map (λ one. one.now) all.items ≡ flat_map (λ k. k.sources.items) known.now) }
{
    let mut all = Vec::new(alloc);
    for sysmod in known {
        let mut more = texts_of(alloc, sysmod.sources.as_slice())?;
        all.append(&mut more)?;
    }
    Ok(all)
}

// The source ids that begin with the prefix.
fn sources_with_prefix<'a>(
    alloc: Global,
    all: &[&'a [u8]],
    prefix: &[u8],
) -> Result<Vec<&'a [u8]>, AllocError>
    ensures { IfOk result (λ matches. map (λ source. source.now) matches.items
        ≡ filter (λ s. starts_with nat_eq s prefix.now) (map (λ source. source.now) all.now)) }
{
    let mut matches = Vec::new(alloc);
    for source in all {
        if !source.starts_with(prefix) {
            continue;
        }
        matches.push(*source)?;
    }
    Ok(matches)
}

// The source ids that a member names: itself, or the known ones that begin with the text before its asterisk.
fn sources_of_member<'a>(
    alloc: Global,
    known: &'a [KnownSysmod],
    member: &'a [u8],
) -> Result<Vec<&'a [u8]>, AllocError>
    ensures { IfOk result (λ found. map (λ one. one.now) found.items ≡ sources_of known.now member.now) }
{
    match pattern_prefix(member) {
        Some(prefix) => {
            let all = known_sources(alloc, known)?;
            sources_with_prefix(alloc, &all, prefix)
        }
        None => single_source(alloc, member),
    }
}

// A list of only this text, which is a source id without an asterisk.
fn single_source(alloc: Global, text: &[u8]) -> Result<Vec<&[u8]>, AllocError>
    ensures { IfOk result (λ list. map (λ source. source.now) list.items ≡ text.now ∷ []) }
{
    let mut list = Vec::new(alloc);
    list.push(text)?;
    Ok(list)
}

/// The source ids that the members of SOURCEID name. Returns `None` if a member with an asterisk names none, because no
/// known source id begins so.
pub(crate) fn sources_of_members<'a>(
    alloc: Global,
    known: &'a [KnownSysmod],
    members: &[&'a [u8]],
) -> Result<Option<Vec<&'a [u8]>>, AllocError>
    ensures { IfOk result (λ found. IfSome found (λ all.
        (map (λ one. one.now) all.items ≡ flat_map (sources_of known.now) (map (λ one. one.now) members.now))
        × All (λ m. sources_of known.now m ≢ []) (map (λ one. one.now) members.now))) }
{
    let mut all = Vec::new(alloc);
    for member in members {
        let mut more = sources_of_member(alloc, known, *member)?;
        if more.as_slice().is_empty() {
            return Ok(None);
        }
        all.append(&mut more)?;
    }
    Ok(Some(all))
}
