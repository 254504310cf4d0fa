//! The changes of a SYSMOD: what its element statements change.
ghost use Rattle.std.specs.Prelude.{◌≡◌, map, Contains, IfOk, OnOk, IsTrue, All, true, false};
ghost use Rattle.terms.specs.declared.kinds.Kind.{Kind as AnyKind};
ghost use Rattle.terms.specs.declared.kinds.ElemType.TheVariants.{Mac};
ghost use Rattle.intake_elements.specs.Elements.{modules_of, module_name};
ghost use Rattle.intake_sysmod.specs.Changed.{IsChanged, IsElementChanged, IsSaid, Grows, Joins};
ghost use Rattle.intake_sysmod.specs.NoLooser.{IsElementDone};

use crate::passing::is_passed_over;
use crate::users::Users;
use intake_cards::{RemarkReason, Remarks, Subject};
use intake_elements::{Options, are_both, change_of, element_subject, module_change, modules_of};
use intake_read::{WideElement, WideSysmod};
use std::alloc::{AllocError, Global};
use sysmods_values::{ElemChange, Sysmod};

// Adds the change to those of the SYSMOD. If the SYSMOD already changes the element, a remark says so, and without
// stand-ins the change is not added: returns `false`. With stand-ins a replacement takes the place of the other change,
// and an update is not added, since the other change stands for both.
fn add_change(
    alloc: Global,
    options: &Options,
    remarks: &mut Remarks,
    subject: &Subject<'_>,
    sysmod: &mut Sysmod,
    change: ElemChange,
) -> Result<bool, AllocError>
    ensures { IfOk result (Joins options.now.decide change sysmod.old sysmod.new) }
{
    if !sysmod.has_change(change.elem_type, change.name) {
        sysmod.insert_change(change)?;
        return Ok(true);
    }
    if !options.decide {
        remarks.tell_left_out(alloc, subject, b"", RemarkReason::Twice, b"")?;
        return Ok(false);
    }
    remarks.tell_carried(alloc, subject, b"", RemarkReason::FallTogether, b"")?;
    if !change.is_replacement() {
        return Ok(true);
    }
    sysmod.insert_change(change)?;
    Ok(true)
}

// Adds a replacement of the module's stand-in to the SYSMOD. Returns `false`, with a remark, if nothing can stand for
// the module.
fn add_module(
    alloc: Global,
    options: &Options,
    remarks: &mut Remarks,
    element: &WideElement,
    sysmod: &mut Sysmod,
    module: &[u8],
) -> Result<bool, AllocError>
    requires asked { IsTrue options.now.decide }
    requires is_one { Contains (modules_of element.now) module.now }
    ensures grows { OnOk result ((kind : AnyKind) → Grows options.now.decide kind element.now sysmod.old sysmod.new) }
    ensures there { IfOk result (λ added. IsTrue added
        → IsChanged options.now.decide sysmod.new.changes Mac (module_name module.now) false) }
{
    let subject = element_subject(element);
    let Some(change) = module_change(alloc, remarks, &subject, element, module)? else {
        return Ok(false);
    };
    add_change(alloc, options, remarks, &subject, sysmod, change)
}

// Adds replacements of the stand-ins of these modules to the SYSMOD. Returns `false`, with remarks, if one cannot be
// added.
fn add_modules(
    alloc: Global,
    options: &Options,
    remarks: &mut Remarks,
    element: &WideElement,
    sysmod: &mut Sysmod,
    modules: &[&[u8]],
) -> Result<bool, AllocError>
    requires asked { IsTrue options.now.decide }
    requires are { map (λ m. m.now) modules.now ≡ modules_of element.now }
    ensures grows { OnOk result ((kind : AnyKind) → Grows options.now.decide kind element.now sysmod.old sysmod.new) }
    ensures there { IfOk result (λ added. IsTrue added
        → All (λ m. IsChanged options.now.decide sysmod.new.changes Mac (module_name m) false)
        (modules_of element.now)) }
{
    let mut added_all = true;
    for module in modules {
        let added = add_module(alloc, options, remarks, element, sysmod, module)?;
        added_all = are_both(added_all, added);
    }
    Ok(added_all)
}

// Adds the change of the statement, and those of the modules that are assembled of its element, to a SYSMOD with
// stand-ins. Returns `false`, with remarks, if one cannot be added.
fn add_with_modules(
    alloc: Global,
    options: &Options,
    remarks: &mut Remarks,
    stated: &WideSysmod,
    element: &WideElement,
    sysmod: &mut Sysmod,
) -> Result<bool, AllocError>
    requires { IsTrue options.now.decide }
    ensures grows { OnOk result (Grows options.now.decide stated.now.kind element.now sysmod.old sysmod.new) }
    ensures changed { IfOk result (λ added. IsTrue added
        → IsElementChanged options.now.decide stated.now.kind sysmod.new.changes element.now) }
{
    let Some(change) = change_of(alloc, options, remarks, stated.kind, element)? else {
        return Ok(false);
    };
    let modules = modules_of(alloc, element)?;
    let subject = element_subject(element);
    let added = add_change(alloc, options, remarks, &subject, sysmod, change)?;
    let added_modules = add_modules(alloc, options, remarks, element, sysmod, modules.as_slice())?;
    Ok(are_both(added, added_modules))
}

// Adds the change of the statement to a SYSMOD without stand-ins. Returns `false`, with a remark, if it cannot be
// added.
fn add_without_modules(
    alloc: Global,
    options: &Options,
    remarks: &mut Remarks,
    stated: &WideSysmod,
    element: &WideElement,
    sysmod: &mut Sysmod,
) -> Result<bool, AllocError>
    requires { options.now.decide ≡ false }
    ensures grows { OnOk result (Grows options.now.decide stated.now.kind element.now sysmod.old sysmod.new) }
    ensures changed { IfOk result (λ added. IsTrue added
        → IsElementChanged options.now.decide stated.now.kind sysmod.new.changes element.now) }
{
    let Some(change) = change_of(alloc, options, remarks, stated.kind, element)? else {
        return Ok(false);
    };
    let subject = element_subject(element);
    add_change(alloc, options, remarks, &subject, sysmod, change)
}

// Adds what the element statement changes to the SYSMOD: with stand-ins also the modules. Remarks say what differs.
// Returns `false`, with remarks, if something cannot be added.
fn add_element(
    alloc: Global,
    options: &Options,
    remarks: &mut Remarks,
    stated: &WideSysmod,
    element: &WideElement,
    sysmod: &mut Sysmod,
) -> Result<bool, AllocError>
    ensures grows { OnOk result (Grows options.now.decide stated.now.kind element.now sysmod.old sysmod.new) }
    ensures changed { IfOk result (λ added. IsTrue added
        → IsElementChanged options.now.decide stated.now.kind sysmod.new.changes element.now) }
{
    if options.decide {
        add_with_modules(alloc, options, remarks, stated, element, sysmod)
    } else {
        add_without_modules(alloc, options, remarks, stated, element, sysmod)
    }
}

/// Adds what the element statements change to the SYSMOD, except elements that are passed over. Remarks say what
/// differs. Returns `false`, with remarks, if something cannot be added. If memory runs out, the SYSMOD has some of the
/// changes.
pub(crate) fn add_elements(
    alloc: Global,
    options: &Options,
    users: &Users<'_>,
    remarks: &mut Remarks,
    stated: &WideSysmod,
    sysmod: &mut Sysmod,
) -> Result<bool, AllocError>
    ensures rest { OnOk result (sysmod.new ≡ record sysmod.old { changes = sysmod.new.changes }) }
    ensures done { IfOk result (λ added_all. IsTrue added_all
        → All (IsElementDone options.now.decide users.now stated.now sysmod.new.changes) stated.now.elements.items) }
    ensures said { OnOk result (All (IsSaid options.now.decide stated.now.kind stated.now.elements.items)
        sysmod.old.changes → All (IsSaid options.now.decide stated.now.kind stated.now.elements.items)
        sysmod.new.changes) }
{
    let mut added_all = true;
    for element in stated.elements.iter() {
        if is_passed_over(alloc, options, users, stated, element)? {
            continue;
        }
        let added = add_element(alloc, options, remarks, stated, element, sysmod)?;
        added_all = are_both(added_all, added);
    }
    Ok(added_all)
}
