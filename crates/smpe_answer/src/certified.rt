//! The certificate of what is decided about a package.
ghost use Rattle.std.specs.Prelude.{IfOk, map, option_copied};
ghost use Rattle.terms.specs.CommandForms.{no_bypass};
ghost use Rattle.smpe_certificate.specs.Certified.{IsCertified};
ghost use Rattle.smpe_certificate.specs.Views.{digest_view};
ghost use Rattle.smpe_answer.specs.Asked.{HasCertificate, package_selection};

use crate::selection::package_selection;
use fields::{Bypass, Source};
use smpe_certificate::{Digest, certificate};
use smpe_why::LoadedZones;
use std::alloc::{AllocError, Global};
use sysmods::GlobalZone;
use zones::Zone;

/// The text of the certificate of an APPLY or ACCEPT of the SYSMODs that have the source, without BYPASS, or `None` if
/// there is no such zone. `inputs` are the files from which the zones come.
pub fn package_certificate(
    alloc: Global,
    zones: &LoadedZones,
    source: Source,
    inputs: &[Digest<'_>],
) -> Result<Option<Vec<u8>>, AllocError>
    ensures { IfOk result (HasCertificate zones.now source (map digest_view inputs.now)) }
{
    let Some(zone) = &zones.zone else {
        return Ok(None);
    };
    let related = zones.related.as_ref();
    let text = zone_certificate(alloc, &zones.global, zone, related, source, inputs)?;
    Ok(Some(text))
}

// The text for a zone that exists.
fn zone_certificate(
    alloc: Global,
    global: &GlobalZone,
    zone: &Zone,
    related: Option<&Zone>,
    source: Source,
    inputs: &[Digest<'_>],
) -> Result<Vec<u8>, AllocError>
    ensures { IfOk result (λ text. IsCertified global.now zone.now (option_copied related.entry)
        (package_selection source) no_bypass (map digest_view inputs.now) text.items) }
{
    let selection = package_selection(alloc, source)?;
    let bypass = Bypass::none(alloc);
    certificate(alloc, global, zone, related, &selection, &bypass, inputs)
}
