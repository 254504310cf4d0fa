//! Operands of elements without which a SYSMOD can be carried, and those without which it cannot.
ghost use Rattle.std.specs.Prelude.{◌≡◌, ◌||◌, [], IfOk, IfNone, IsTrue, All, true};
ghost use Rattle.intake_elements.specs.Elements.{
  is_harmless_of_text,
  is_harmless_of_module,
  is_harmless_of_file,
  is_harmless,
  IsHarmless,
  is_module_operand,
  IsNoModuleFault,
  LacksNothing,
};

use crate::options::Options;
use intake_cards::{RemarkReason, Remarks, Subject};
use intake_read::{FaultyOperand, WideElement, WideOperand, fault_reason};
use std::alloc::{AllocError, Global};

// Whether the operand decides nothing about an element that has a text.
fn is_harmless_of_text(name: &[u8]) -> bool
    ensures { result ≡ is_harmless_of_text name.now }
{
    name == b"SSI".as_slice()
        || name == b"ALIAS".as_slice()
        || name == b"MALIAS".as_slice()
        || name == b"DISTSRC".as_slice()
        || name == b"PREFIX".as_slice()
        || name == b"VERSION".as_slice()
}

// Whether the operand decides nothing about a module or a program.
fn is_harmless_of_module(name: &[u8]) -> bool
    ensures { result ≡ is_harmless_of_module name.now }
{
    name == b"LEPARM".as_slice()
        || name == b"LMOD".as_slice()
        || name == b"CSECT".as_slice()
        || name == b"DALIAS".as_slice()
        || name == b"TALIAS".as_slice()
}

// Whether the operand decides nothing about a JAR or a file of a file system.
fn is_harmless_of_file(name: &[u8]) -> bool
    ensures { result ≡ is_harmless_of_file name.now }
{
    name == b"PARM".as_slice()
        || name == b"LINK".as_slice()
        || name == b"SYMLINK".as_slice()
        || name == b"SYMPATH".as_slice()
        || name == b"SHSCRIPT".as_slice()
        || name == b"JARPARM".as_slice()
        || name == b"BINARY".as_slice()
        || name == b"TEXT".as_slice()
}

// Whether the operand decides nothing about an element that only a stand-in can stand for.
fn is_harmless_of_stand_in(name: &[u8]) -> bool
    ensures { result ≡ (is_harmless_of_module name.now || is_harmless_of_file name.now) }
{
    is_harmless_of_module(name) || is_harmless_of_file(name)
}

// Whether a SYSMOD can be carried without the operand of this name.
fn is_harmless(decide: bool, name: &[u8]) -> bool
    ensures { result ≡ is_harmless decide name.now }
{
    is_harmless_of_text(name) || (decide && is_harmless_of_stand_in(name))
}

// Whether the operand of this name decides whether a SYSMOD can be installed. RMID and UMID name the level that the
// element must have, and DELETE deletes it.
fn is_level_operand(name: &[u8]) -> bool {
    matches!(name, b"RMID" | b"UMID" | b"DELETE")
}

/// Whether the SYSMOD can be carried without the operand. If not, a remark leaves it out.
pub(crate) fn can_lack_operand(
    alloc: Global,
    options: &Options,
    remarks: &mut Remarks,
    subject: &Subject<'_>,
    operand: &WideOperand,
) -> Result<bool, AllocError>
    ensures { IfOk result (λ can. IsTrue can → IsHarmless options.now.decide operand.now) }
{
    let name = operand.name.as_slice();
    let can = is_harmless(options.decide, name);
    if !can {
        let reason = if options.decide && is_level_operand(name) {
            RemarkReason::Level
        } else {
            RemarkReason::UnknownOperand
        };
        remarks.tell_left_out(alloc, subject, name, reason, operand.text())?;
    }
    Ok(can)
}

// Whether the SYSMOD can be carried without the operands. For each of the others a remark leaves it out.
fn can_lack_operands(
    alloc: Global,
    options: &Options,
    remarks: &mut Remarks,
    subject: &Subject<'_>,
    operands: &[WideOperand],
) -> Result<bool, AllocError>
    ensures { IfOk result (λ can. IsTrue can → All (IsHarmless options.now.decide) operands.now) }
{
    let mut can_lack_all = true;
    for operand in operands {
        let can = can_lack_operand(alloc, options, remarks, subject, operand)?;
        can_lack_all = are_both(can_lack_all, can);
    }
    Ok(can_lack_all)
}

/// Whether both are true. It is a function because the proofs of its callers need its contract.
pub fn are_both(first: bool, second: bool) -> bool
    ensures { IsTrue result → IsTrue first × IsTrue second }
{
    first && second
}

/// Whether an operand of this name states the modules that are assembled, or their library.
pub(crate) fn is_module_operand(name: &[u8]) -> bool
    ensures { result ≡ is_module_operand name.now }
{
    name == b"DISTMOD".as_slice() || name == b"ASSEM".as_slice()
}

// The first faulty operand that states the modules that are assembled, or `None` if there is none.
fn first_module_fault(faulty: &[FaultyOperand]) -> Option<&FaultyOperand>
    ensures { IfNone result (All IsNoModuleFault faulty.now) }
{
    faulty
        .iter()
        .find(|entry| is_module_operand(entry.operand.name.as_slice()))
}

// Whether each operand that states the modules that are assembled, or their library, can be read.
fn has_no_module_fault(element: &WideElement) -> bool
    ensures { IsTrue result → All IsNoModuleFault element.now.faulty.items }
{
    first_module_fault(element.faulty.as_slice()).is_none()
}

// The first operand without which the SYSMOD cannot be carried even if stand-ins are asked for, or `None` if there is
// none.
fn first_harmful_operand(operands: &[WideOperand]) -> Option<&WideOperand>
    ensures { IfNone result (All (IsHarmless true) operands.now) }
{
    operands
        .iter()
        .find(|operand| !is_harmless(true, operand.name.as_slice()))
}

// Whether the SYSMOD can be carried without each of the operands if stand-ins are asked for.
fn has_no_harmful_operand(element: &WideElement) -> bool
    ensures { IsTrue result → All (IsHarmless true) element.now.operands.items }
{
    first_harmful_operand(element.operands.as_slice()).is_none()
}

/// Whether something stands for the element if stand-ins are asked for: its operands decide nothing that would be lost.
pub fn lacks_nothing(element: &WideElement) -> bool
    ensures { IsTrue result → LacksNothing true element.now }
{
    are_both(
        has_no_harmful_operand(element),
        has_no_module_fault(element),
    )
}

/// Whether the reader could read all operands of a statement: none is among these faulty ones.
pub fn are_all_read(faulty: &[FaultyOperand]) -> bool
    ensures { IsTrue result → faulty.now ≡ [] }
{
    faulty.is_empty()
}

// Remarks, for each faulty DISTMOD and ASSEM, that the SYSMOD is left out, because it is not known which modules are
// assembled.
fn tell_module_faults(
    alloc: Global,
    remarks: &mut Remarks,
    subject: &Subject<'_>,
    element: &WideElement,
) -> Result<(), AllocError> {
    for entry in element.faulty.iter() {
        let name = entry.operand.name.as_slice();
        if is_module_operand(name) {
            let text = entry.operand.text();
            remarks.tell_left_out(alloc, subject, name, fault_reason(entry), text)?;
        }
    }
    Ok(())
}

/// Whether something can stand for the element if stand-ins are asked for: each of its operands decides nothing, and
/// DISTMOD and ASSEM can be read. Remarks leave the SYSMOD out for each of the others.
pub(crate) fn can_have_stand_in(
    alloc: Global,
    options: &Options,
    remarks: &mut Remarks,
    subject: &Subject<'_>,
    element: &WideElement,
) -> Result<bool, AllocError>
    requires { IsTrue options.now.decide }
    ensures { IfOk result (λ can. IsTrue can → LacksNothing options.now.decide element.now) }
{
    let can_lack = can_lack_operands(
        alloc,
        options,
        remarks,
        subject,
        element.operands.as_slice(),
    )?;
    tell_module_faults(alloc, remarks, subject, element)?;
    Ok(are_both(can_lack, has_no_module_fault(element)))
}
