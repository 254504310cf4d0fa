//! Elements that are passed over: if a SYSMOD has more elements than a SYSMOD may have, those that no other SYSMOD
//! changes.
ghost use Rattle.std.specs.Prelude.{◌<◌, IfOk, IsTrue, length};
ghost use Rattle.intake_sysmod.specs.Users.{IsPassedOver};

use crate::users::Users;
use intake_cards::{RemarkReason, Remarks, Subject};
use intake_elements::Options;
use intake_read::{WideElement, WideFile, WideSysmod};
use std::alloc::{AllocError, Global};

/// The most elements that a SYSMOD may have.
pub(crate) const MOST_ELEMENTS: usize = 999;

/// Whether a SYSMOD of the file has more elements than a SYSMOD may have.
pub(crate) fn has_large_sysmod(file: &WideFile) -> bool {
    file.sysmods
        .iter()
        .any(|sysmod| sysmod.elements.len() > MOST_ELEMENTS)
}

/// Whether elements of the SYSMOD may be passed over: stand-ins are asked for, and it has more elements than a SYSMOD
/// may have.
pub(crate) fn may_pass_over(options: &Options, stated: &WideSysmod) -> bool
    ensures { IsTrue result → IsTrue options.now.decide × (999 < length stated.now.elements.items) }
{
    options.decide && stated.elements.len() > MOST_ELEMENTS
}

/// Whether the element is passed over: its SYSMOD has too many elements, and no other SYSMOD changes this one.
pub(crate) fn is_passed_over(
    alloc: Global,
    options: &Options,
    users: &Users<'_>,
    stated: &WideSysmod,
    element: &WideElement,
) -> Result<bool, AllocError>
    ensures { IfOk result (λ passed. IsTrue passed
        → IsPassedOver options.now.decide users.now stated.now element.now) }
{
    if !may_pass_over(options, stated) {
        return Ok(false);
    }
    users.has_no_other_user(alloc, stated, element)
}

/// Remarks how many elements of the SYSMOD are passed over, if any are.
pub(crate) fn tell_passed_over(
    alloc: Global,
    options: &Options,
    users: &Users<'_>,
    remarks: &mut Remarks,
    subject: &Subject<'_>,
    stated: &WideSysmod,
) -> Result<(), AllocError> {
    if !may_pass_over(options, stated) {
        return Ok(());
    }
    let mut count = 0usize;
    for element in stated.elements.iter() {
        if users.has_no_other_user(alloc, stated, element)? {
            count = count.saturating_add(1);
        }
    }
    if count > 0 {
        let text = format!(in alloc; "{count}")?;
        let text = text.as_bytes();
        remarks.tell_dropped(alloc, subject, b"", RemarkReason::PassedOver, text)?;
    }
    Ok(())
}
