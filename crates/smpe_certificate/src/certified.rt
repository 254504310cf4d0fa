//! The certificate of a decision.
ghost use Rattle.std.specs.Prelude.{IfOk, map, option_copied};
ghost use Rattle.smpe_certificate.specs.Views.{certificate_view, digest_view};
ghost use Rattle.judge_system.specs.Judged.{HasParts};
ghost use Rattle.smpe_certificate.specs.ByNumber.{IsByNumber};
ghost use Rattle.smpe_certificate.specs.Certified.{IsCertified};

use crate::digest::Digest;
use crate::dropped::dropped_facts;
use crate::elimination::{Elimination, eliminate};
use crate::facts::Certificate;
use crate::ineligible::ineligible_facts;
use crate::kept::kept_ids;
use crate::served::served_facts;
use crate::text::certificate_text;
use fields::{Bypass, Selection};
use judge::install_system;
use judge_system::Judged;
use select::candidates;
use std::alloc::{AllocError, Global};
use sysmods::GlobalZone;
use zones::Zone;

// The facts of what is decided about judged candidates.
fn facts_of(alloc: Global, judged: &Judged<'_>) -> Result<Certificate, AllocError>
    requires { HasParts judged.now }
    ensures { IfOk result (λ c. IsByNumber judged.now (certificate_view c)) }
{
    let Elimination { kept, dropped } = eliminate(alloc, &judged.system)?;
    let ids = judged.ids.as_slice();
    Ok(Certificate {
        ineligible: ineligible_facts(alloc, ids, judged.tests.as_slice())?,
        dropped: dropped_facts(alloc, judged, dropped.as_slice())?,
        kept: kept_ids(alloc, ids, kept.as_slice())?,
        served: served_facts(alloc, judged, kept.as_slice())?,
    })
}

/// The text of the certificate of an APPLY in a target zone, or of an ACCEPT in a distribution zone, which also looks
/// at the related target zone: what it decides about the candidates of the selection, except for what BYPASS covers.
/// `inputs` are the files from which the zones come.
pub fn certificate(
    alloc: Global,
    global: &GlobalZone,
    zone: &Zone,
    related: Option<&Zone>,
    selection: &Selection,
    bypass: &Bypass,
    inputs: &[Digest<'_>],
) -> Result<Vec<u8>, AllocError>
    ensures { IfOk result (λ text. IsCertified global.now zone.now (option_copied related.entry) selection.now
        bypass.now (map digest_view inputs.now) text.items) }
{
    let candidates = candidates(alloc, global, zone, selection)?;
    let judged = install_system(alloc, global, zone, related, &candidates, bypass)?;
    let facts = facts_of(alloc, &judged)?;
    certificate_text(alloc, inputs, &facts)
}
