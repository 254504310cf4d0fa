//! The document about a package.
ghost use Rattle.std.specs.Prelude.{◌≡◌, IfOk, Some};
ghost use Rattle.report.specs.Views.{header_view};
ghost use Rattle.smpe_answer.specs.Documented.{IsDocumentAnswer, IsDocumented, IsZoneRefusal, install_header};

use crate::asked_ids::Answer;
use crate::facts::PackageFacts;
use crate::lines::package_lines;
use crate::summarized::package_status;
use fields::ZoneName;
use report::{CommandWord, Header};
use smpe_json::{check_document, fault_document};
use smpe_summary::{Asked, summary_of};
use smpe_why::LoadedZones;
use std::alloc::{AllocError, Global};
use terms::ZoneKind;
use zones::Zone;

// What SET prints if no zone has the name, and the status of this.
const NO_ZONE: &str = "REFUSED Cm2";

const NO_ZONE_STATUS: u8 = 12;

/// The document about the package in the zone. If there is no such zone, the document says that SET refuses it. The
/// status is the greatest of those of the package and of the summary, and stands in the document.
pub fn json_answer(
    alloc: Global,
    zones: &LoadedZones,
    facts: &PackageFacts<'_>,
) -> Result<Answer, AllocError>
    ensures { IfOk result (IsDocumentAnswer zones.now facts.now zones.now.zone) }
{
    match &zones.zone {
        None => zone_refusal(alloc),
        Some(zone) => zone_document(alloc, zones, zone, facts),
    }
}

// The document that says that no zone has the name.
fn zone_refusal(alloc: Global) -> Result<Answer, AllocError>
    ensures { IfOk result IsZoneRefusal }
{
    Ok(Answer {
        text: fault_document(alloc, NO_ZONE, NO_ZONE_STATUS)?,
        status: NO_ZONE_STATUS,
    })
}

// The document for a zone that exists.
fn zone_document(
    alloc: Global,
    zones: &LoadedZones,
    zone: &Zone,
    facts: &PackageFacts<'_>,
) -> Result<Answer, AllocError>
    ensures { IfOk result (IsDocumentAnswer zones.now facts.now (Some zone.now)) }
{
    let related = zones.related.as_ref();
    let lines = package_lines(alloc, &zones.global, zone, related, facts.source)?;
    let asked = Asked {
        global: &zones.global,
        zone,
        lines: lines.as_slice(),
        package: facts.ids,
        unsure: facts.unsure,
        holds_read: facts.holds_read,
    };
    let header = install_header(facts.zone, zone.kind());
    document(alloc, &header, &asked, facts)
}

// The document of what is asked.
fn document(
    alloc: Global,
    header: &Header,
    asked: &Asked<'_>,
    facts: &PackageFacts<'_>,
) -> Result<Answer, AllocError>
    ensures { IfOk result (IsDocumented (header_view header.now) asked.now facts.now) }
{
    let summary = summary_of(alloc, asked)?;
    let status = summary.status().max(package_status(facts));
    let text = check_document(alloc, header, asked, &summary, facts.remarks, status)?;
    Ok(Answer { text, status })
}

// The header of an APPLY CHECK, in a distribution zone of an ACCEPT CHECK.
fn install_header(zone: ZoneName, kind: ZoneKind) -> Header
    ensures { header_view result ≡ install_header zone kind }
{
    let word = match kind {
        ZoneKind::Target => CommandWord::Apply,
        ZoneKind::Distribution => CommandWord::Accept,
    };
    Header {
        word,
        boundary: Some(zone),
        check: true,
    }
}
