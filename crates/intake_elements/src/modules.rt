//! The modules that are assembled of sources and macros.
ghost use Rattle.std.specs.Prelude.{◌≡◌, ◌++◌, map, IfOk, OnOk};
ghost use Rattle.terms.specs.declared.kinds.ElemType.TheVariants.{Mac};
ghost use Rattle.intake_elements.specs.StandInNames.{key_of};
ghost use Rattle.intake_elements.specs.Elements.{own_modules, modules_of, module_name, AreKeysOf};

use crate::element_words::is_source;
use crate::options::Options;
use crate::stand_in_names::{element_key, module_key};
use intake_cards::{RemarkReason, Remarks, Subject};
use intake_read::WideElement;
use std::alloc::{AllocError, Global};

// The module that has the name of the source, as a list, which is empty if the element is no source.
fn own_modules<'a>(alloc: Global, element: &'a WideElement) -> Result<Vec<&'a [u8]>, AllocError>
    ensures { IfOk result (λ modules. map (λ m. m.now) modules.items ≡ own_modules element.now) }
{
    let mut modules = Vec::new(alloc);
    if !is_source(element.word.as_slice()) {
        return Ok(modules);
    }
    modules.push(element.name.as_slice())?;
    Ok(modules)
}

/// The modules that are assembled of the element: of a source the one of its name, and those that ASSEM names.
pub fn modules_of<'a>(alloc: Global, element: &'a WideElement) -> Result<Vec<&'a [u8]>, AllocError>
    ensures { IfOk result (λ modules. map (λ m. m.now) modules.items ≡ modules_of element.now) }
{
    let mut modules = own_modules(alloc, element)?;
    for module in element.assem.iter() {
        modules.push(module.as_slice())?;
    }
    Ok(modules)
}

// Adds the key of the stand-in of each module.
fn add_module_keys(keys: &mut Vec<u64>, modules: &[&[u8]]) -> Result<(), AllocError>
    ensures { OnOk result (keys.new.items
        ≡ keys.old.items ++ map (λ m. key_of Mac (module_name m.now)) modules.now) }
{
    for module in modules {
        keys.push(module_key(module))?;
    }
    Ok(())
}

/// The keys of the elements that the statement changes if stand-ins are asked for, including the modules that are
/// assembled of its element. All statements that change an element have its key.
pub fn keys_of(alloc: Global, element: &WideElement) -> Result<Vec<u64>, AllocError>
    ensures { IfOk result (λ keys. AreKeysOf element.now keys.items) }
{
    let modules = modules_of(alloc, element)?;
    let mut keys = Vec::new(alloc);
    keys.push(element_key(element))?;
    add_module_keys(&mut keys, modules.as_slice())?;
    Ok(keys)
}

// Whether modules are assembled of the element.
fn has_modules(element: &WideElement) -> bool {
    is_source(element.word.as_slice()) || !element.assem.is_empty()
}

/// Remarks that DISTMOD and ASSEM are dropped. If stand-ins are asked for, modules have stand-ins, so only a DISTMOD of
/// an element without modules is dropped.
pub(crate) fn tell_dropped_module_operands(
    alloc: Global,
    options: &Options,
    remarks: &mut Remarks,
    subject: &Subject<'_>,
    element: &WideElement,
) -> Result<(), AllocError> {
    if options.decide && has_modules(element) {
        return Ok(());
    }
    let reason = if options.decide {
        RemarkReason::LoadModules
    } else {
        RemarkReason::NoDecision
    };
    if let Some(distmod) = &element.distmod {
        remarks.tell_dropped(alloc, subject, b"DISTMOD", reason, distmod.as_slice())?;
    }
    if !element.assem.is_empty() {
        let text = join_by_commas(alloc, element.assem.as_slice())?;
        remarks.tell_dropped(alloc, subject, b"ASSEM", reason, text.as_slice())?;
    }
    Ok(())
}

// The members as one text, with commas between.
fn join_by_commas(alloc: Global, members: &[Vec<u8>]) -> Result<Vec<u8>, AllocError> {
    let mut text = Vec::new(alloc);
    for member in members {
        if !text.is_empty() {
            text.push(b',')?;
        }
        text.extend_from_slice(member.as_slice())?;
    }
    Ok(text)
}
