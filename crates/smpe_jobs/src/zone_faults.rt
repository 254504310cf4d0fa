//! The first fault of a definition.
ghost use Rattle.std.specs.Prelude.{◌≡◌, ◌==◌, option_copied, is_some};
ghost use Rattle.std.specs.List.{list_any};
ghost use Rattle.terms.specs.Forms.{IsSrel, IsZoneName};
ghost use Rattle.smpe_jobs.specs.ZoneDefinitions.{definition};
ghost use Rattle.smpe_jobs.specs.Heads.{first_fault, has_right_related, has_same_srel, has_srel, head_named};
ghost use Rattle.smpe_jobs.specs.Heads.{is_distribution_head, is_free_distribution, is_name_taken, is_related_to};

use crate::zone_error::ZoneFault;
use fields::{Srel, ZoneName};
use store::ZoneHead;
use terms::ZoneKind;

// The most zones that can be defined.
const MOST_ZONES: usize = 64;

// The head of the zone of this name, or `None` if there is no such zone.
fn head_named(heads: &[ZoneHead], name: ZoneName) -> Option<&ZoneHead>
    ensures { option_copied result ≡ head_named heads.now name }
{
    heads.iter().find(|head| head.name == name)
}

// Whether the zone of the head names the zone of this name as its related zone.
fn is_related_to(head: &ZoneHead, name: ZoneName) -> bool
    ensures { result ≡ is_related_to name head.now }
{
    head.related == Some(name)
}

// Whether some zone names the zone of this name as its related zone.
fn is_related_zone_of_any(heads: &[ZoneHead], name: ZoneName) -> bool
    ensures { result ≡ list_any (is_related_to name) heads.now }
{
    heads.iter().any(|head| is_related_to(head, name))
}

// Whether there is a zone and it is a distribution zone.
fn is_distribution_head(head: Option<&ZoneHead>) -> bool
    ensures { result ≡ is_distribution_head (option_copied head.entry) }
{
    head.is_some_and(|head| head.kind == ZoneKind::Distribution)
}

// Whether a new target zone may be related to the zone of this name: a distribution zone to which no zone is related.
fn is_free_distribution(heads: &[ZoneHead], name: ZoneName) -> bool
    ensures { result ≡ is_free_distribution heads.now name }
{
    is_distribution_head(head_named(heads, name)) && !is_related_zone_of_any(heads, name)
}

// Whether a zone of this kind may be defined with this related zone.
fn has_right_related(heads: &[ZoneHead], kind: ZoneKind, related: &Option<ZoneName>) -> bool
    ensures { result ≡ has_right_related heads.now kind related.now }
{
    match (kind, related) {
        (ZoneKind::Target, Some(name)) => is_free_distribution(heads, *name),
        (ZoneKind::Target, None) => false,
        (ZoneKind::Distribution, related) => related.is_none(),
    }
}

// Whether there is a zone and it has this SREL.
fn has_srel(head: Option<&ZoneHead>, srel: Srel) -> bool
    ensures { result ≡ has_srel srel (option_copied head.entry) }
{
    head.is_some_and(|head| head.srel == srel)
}

// Whether the related zone, if one is named, has this SREL.
fn has_same_srel(heads: &[ZoneHead], srel: Srel, related: &Option<ZoneName>) -> bool
    ensures { result ≡ has_same_srel heads.now srel related.now }
{
    match related {
        Some(name) => has_srel(head_named(heads, *name), srel),
        None => true,
    }
}

// Whether no new zone may have this name: it is GLOBAL, or a zone has it.
fn is_name_taken(heads: &[ZoneHead], name: ZoneName) -> bool
    ensures taken { result ≡ is_name_taken heads.now name }
    ensures form { IsZoneName name }
{
    name.as_bytes() == b"GLOBAL".as_slice() || head_named(heads, name).is_some()
}

/// The first fault, in the order of `ZoneFault`, of the definition of a zone beside the zones of these heads, or `None`
/// if the zone can be defined. Its name and its SREL have their forms, as their types say.
pub(crate) fn first_fault(
    heads: &[ZoneHead],
    name: ZoneName,
    kind: ZoneKind,
    srel: Srel,
    related: &Option<ZoneName>,
) -> Option<ZoneFault>
    ensures fault { result ≡ first_fault heads.now (definition name kind srel related.now) }
    ensures name { IsZoneName name }
    ensures srel { IsSrel srel }
{
    // (for the clause `srel`: the length of an SREL, which its type promises)
    prove!(srel.as_bytes().len() == 4);
    if is_name_taken(heads, name) {
        return Some(ZoneFault::NameTaken);
    }
    if !has_right_related(heads, kind, related) {
        return Some(ZoneFault::WrongRelated);
    }
    if !has_same_srel(heads, srel, related) {
        return Some(ZoneFault::OtherSrel);
    }
    if heads.len() >= MOST_ZONES {
        return Some(ZoneFault::TooMany);
    }
    None
}
