//! The summary of a package, as it is told.
ghost use Rattle.std.specs.Prelude.{◌≡◌, IfOk, max};
ghost use Rattle.smpe_answer.specs.Answered.{IsSummarized, IsSummaryAnswer, IsSummaryPart, package_status};

use crate::asked_ids::{Answer, add_ids};
use crate::facts::PackageFacts;
use crate::lines::package_lines;
use fields::Id;
use smpe_summary::{Asked, append_summary, summary_of};
use smpe_why::LoadedZones;
use std::alloc::{AllocError, Global};

// The status of a package that has no SYSMOD.
const NOTHING_CARRIED_STATUS: u8 = 12;

/// The summary of the package in the zone, and after it what is told of the ids, each by itself, without BYPASS. If there
/// is no such zone, only that is told. The status is the greatest of those of the package, of the summary and of the
/// ids.
pub fn summary_answer(
    alloc: Global,
    zones: &LoadedZones,
    facts: &PackageFacts<'_>,
    ids: &[Id],
) -> Result<Answer, AllocError>
    ensures { IfOk result (IsSummaryAnswer zones.now facts.now ids.now) }
{
    let part = summary_part(alloc, zones, facts)?;
    add_ids(alloc, zones, ids, part)
}

// The summary, or nothing if there is no such zone.
fn summary_part(
    alloc: Global,
    zones: &LoadedZones,
    facts: &PackageFacts<'_>,
) -> Result<Answer, AllocError>
    ensures { IfOk result (IsSummaryPart zones.now facts.now zones.now.zone) }
{
    let Some(zone) = &zones.zone else {
        return Ok(Answer {
            text: Vec::new(alloc),
            status: 0,
        });
    };
    let related = zones.related.as_ref();
    let lines = package_lines(alloc, &zones.global, zone, related, facts.source)?;
    let asked = Asked {
        global: &zones.global,
        zone,
        lines: lines.as_slice(),
        package: facts.ids,
        unsure: facts.unsure,
        holds_read: facts.holds_read,
    };
    summarize(alloc, &asked, package_status(facts))
}

// The status of the package itself.
pub(crate) fn package_status(facts: &PackageFacts<'_>) -> u8
    ensures { result ≡ package_status facts.now }
{
    if facts.ids.is_empty() {
        return facts.status.max(NOTHING_CARRIED_STATUS);
    }
    facts.status
}

// The summary of what is asked, with at least this status.
fn summarize(alloc: Global, asked: &Asked<'_>, status: u8) -> Result<Answer, AllocError>
    ensures { IfOk result (IsSummarized asked.now status) }
{
    let summary = summary_of(alloc, asked)?;
    let mut text = Vec::new(alloc);
    append_summary(alloc, &summary, &mut text)?;
    Ok(Answer {
        text,
        status: summary.status().max(status),
    })
}
