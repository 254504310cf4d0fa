//! Statements that are carried nowhere.
ghost use Rattle.std.specs.Prelude.{◌≡◌, ◌⊎◌, IfOk, IsTrue, All};
ghost use Rattle.intake_read.specs.declared.items.OtherReason.TheVariants.{NoService, LoadModules};
ghost use Rattle.intake_sysmod.specs.NoLooser.{IsHarmlessOther};

use intake_cards::{RemarkReason, Remarks, Subject};
use intake_elements::{Options, are_both};
use intake_read::{OtherReason, WideOther, missing_word};
use std::alloc::{AllocError, Global};

// Whether a SYSMOD can be carried without a statement that makes no item for this reason.
fn may_lack_statement(decide: bool, reason: OtherReason) -> bool
    ensures { IsTrue result → (reason ≡ NoService) ⊎ (IsTrue decide × (reason ≡ LoadModules)) }
{
    match reason {
        OtherReason::NoService => true,
        OtherReason::LoadModules => decide,
        _ => false,
    }
}

// Remarks on a statement that is carried nowhere. Returns whether its SYSMOD can be carried without it.
fn tell_other_statement(
    alloc: Global,
    options: &Options,
    remarks: &mut Remarks,
    other: &WideOther,
) -> Result<bool, AllocError>
    ensures { IfOk result (λ may. IsTrue may → IsHarmlessOther options.now.decide other.now) }
{
    let subject = Subject {
        place: other.place,
        word: other.word.as_slice(),
        id: other.name.as_slice(),
    };
    let reason = RemarkReason::from(other.reason);
    if !may_lack_statement(options.decide, other.reason) {
        remarks.tell_left_out(alloc, &subject, missing_word(other), reason, b"")?;
        return Ok(false);
    }
    let reason = if other.reason == OtherReason::LoadModules {
        RemarkReason::LoadModules
    } else {
        reason
    };
    remarks.tell_dropped(alloc, &subject, b"", reason, b"")?;
    Ok(true)
}

/// Remarks on the statements of a SYSMOD or of a file that are carried nowhere. Returns whether their SYSMOD can be
/// carried without them.
pub fn tell_other_statements(
    alloc: Global,
    options: &Options,
    remarks: &mut Remarks,
    others: &[WideOther],
) -> Result<bool, AllocError>
    ensures { IfOk result (λ may. IsTrue may → All (IsHarmlessOther options.now.decide) others.now) }
{
    let mut may_lack_all = true;
    for other in others {
        let may_lack = tell_other_statement(alloc, options, remarks, other)?;
        may_lack_all = are_both(may_lack_all, may_lack);
    }
    Ok(may_lack_all)
}
