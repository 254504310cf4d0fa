//! What the heads of zones say about each other.

ghost use Rattle.std.specs.Prelude.{◌≡◌, ◌↔◌, IsTrue, All, AllPairs, IfOk, IsErrOf};
ghost use Rattle.std.specs.List.{Any};
ghost use Rattle.store_zones.specs.Related.{IsDistributionOf, IsRelatedAmong, HeadsAreApart, AreRelated};

use crate::head::ZoneHead;
use fields::{Srel, ZoneName};
use store_rows::ReadError;
use terms::ZoneKind;

// Whether this is the head of the distribution zone of this name and SREL.
fn is_distribution_zone(head: &ZoneHead, name: ZoneName, srel: Srel) -> bool
    ensures { IsTrue result ↔ IsDistributionOf name srel head.now }
{
    head.name == name && head.kind == ZoneKind::Distribution && head.srel == srel
}

// Whether one of these is the head of the distribution zone of this name and SREL.
fn contain_distribution_zone(heads: &[ZoneHead], name: ZoneName, srel: Srel) -> bool
    ensures { IsTrue result ↔ Any (IsDistributionOf name srel) heads.now }
{
    heads
        .iter()
        .any(|head| is_distribution_zone(head, name, srel))
}

// Whether the distribution zone that this head names is among the heads, or the head names none.
fn contain_related_zone(heads: &[ZoneHead], head: &ZoneHead) -> bool
    ensures { IsTrue result ↔ IsRelatedAmong heads.now head.now }
{
    match head.related {
        Some(name) => contain_distribution_zone(heads, name, head.srel),
        None => true,
    }
}

// Whether each distribution zone that one of the heads names is among them.
fn contain_all_related_zones(heads: &[ZoneHead]) -> bool
    ensures { IsTrue result ↔ All (IsRelatedAmong heads.now) heads.now }
{
    heads.iter().all(|head| contain_related_zone(heads, head))
}

// Whether the two heads do not name the same related zone. A distribution zone names none.
fn have_different_related_zones(head: &ZoneHead, other: &ZoneHead) -> bool
    ensures { IsTrue result ↔ HeadsAreApart head.now other.now }
{
    match head.related {
        Some(name) => other.related != Some(name),
        None => true,
    }
}

// Whether none of these heads names the same related zone as the other head.
fn none_names_same_related_zone(heads: &[ZoneHead], other: &ZoneHead) -> bool
    ensures { IsTrue result ↔ All (λ head. HeadsAreApart head other.now) heads.now }
{
    heads
        .iter()
        .all(|head| have_different_related_zones(head, other))
}

// Whether no two heads name the same related zone.
fn have_distinct_related_zones(heads: &[ZoneHead]) -> bool
    ensures { IsTrue result ↔ AllPairs HeadsAreApart heads.now }
{
    for i in 0..heads.len() {
        if !none_names_same_related_zone(&heads[..i], &heads[i]) {
            return false;
        }
    }
    true
}

/// Hands the heads back if they are related as they must be. Returns `BadRow` if one of them names a zone that is not a
/// distribution zone of its SREL among them, or if two of them name the same one.
pub(crate) fn require_related(heads: Vec<ZoneHead>) -> Result<Vec<ZoneHead>, ReadError>
    ensures same { IfOk result (λ same. same.items ≡ heads.items) }
    ensures related { IfOk result (λ same. AreRelated same.items) }
    ensures none { IsErrOf result ReadError.BadRow → ¬ AreRelated heads.items }
    ensures fault { IsErrOf result ReadError.Fault → ⊥ }
{
    if !contain_all_related_zones(heads.as_slice()) {
        return Err(ReadError::BadRow);
    }
    if !have_distinct_related_zones(heads.as_slice()) {
        return Err(ReadError::BadRow);
    }
    Ok(heads)
}
