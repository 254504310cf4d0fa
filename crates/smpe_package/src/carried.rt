//! The package of a shop's files.
ghost use Rattle.std.specs.Prelude.{◌≡◌, ◌++◌, IfOk, length, map};
ghost use Rattle.std.specs.List.{flat_map, list_any};
ghost use Rattle.intake_service.specs.Carrying.{is_sysmod};
ghost use Rattle.smpe_package.specs.Package.{AreIds, HasStatusOf, IsPackage, id_of};

use crate::fault::PackageFault;
use crate::remarks::remark_lines;
use fields::{Id, IdList};
use intake_carry::Unsure;
use intake_service::{CardOptions, Carried, GivenFile, InputFiles, carry};
use mcs::{HoldItem, Item};
use std::alloc::{AllocError, Global};

/// What RECEIVE takes of a shop's files, and what is told of what was left out.
#[derive(Drop)]
pub struct Package {
    pub items: Vec<Item>,
    pub hold_items: Vec<HoldItem>,
    /// A line for each thing that was left out and may be missed, and for each SYSMOD of which it is not sure that it
    /// can be installed.
    pub remarks: Vec<u8>,
    /// 0, or 4 if something was left out that may be asked for.
    pub status: u8,
    /// The SYSMODs of which it is not sure that they can be installed.
    pub unsure: IdList,
}

/// Makes a package of the files, in their order, as `smpe-intake --decide` does: elements that the profile lacks get
/// stand-ins, which are for CHECK only. Returns `NotCarried` if the bytes of a file cannot be read as cards, if no file
/// has a statement, or if a statement cannot be carried that belongs to no SYSMOD that could be left out, and `Memory`
/// if memory runs out.
pub fn carry_package(alloc: Global, files: &[GivenFile<'_>]) -> Result<Package, PackageFault>
    ensures { IfOk result (IsPackage (length files.now)) }
{
    let mut inputs = InputFiles::new(alloc);
    let cards = CardOptions {
        layout: None,
        code: None,
    };
    match carry(alloc, &mut inputs, files, cards, true) {
        Ok(carried) => Ok(package_of(alloc, &inputs, carried)?),
        Err(fault) => Err(PackageFault::of_intake(alloc, &fault)),
    }
}

// The package that this is, with its remarks.
fn package_of(alloc: Global, inputs: &InputFiles, carried: Carried) -> Result<Package, AllocError>
    ensures items { IfOk result (λ made. made.items.items ≡ carried.narrowed.items.items) }
    ensures holds { IfOk result (λ made. made.hold_items.items ≡ carried.narrowed.hold_items.items) }
    ensures status { IfOk result (λ made. HasStatusOf carried made.status) }
    ensures unsure { IfOk result (λ made. AreIds made.unsure (map (λ u. u.id) carried.narrowed.unsure.items)) }
{
    let remarks = remark_lines(alloc, inputs, &carried)?;
    let unsure = unsure_ids(alloc, carried.narrowed.unsure.as_slice())?;
    let status = carried.status();
    let narrowed = carried.narrowed;
    Ok(Package {
        items: narrowed.items,
        hold_items: narrowed.hold_items,
        remarks,
        status,
        unsure,
    })
}

// The ids of these SYSMODs.
fn unsure_ids(alloc: Global, unsure: &[Unsure]) -> Result<IdList, AllocError>
    ensures { IfOk result (λ ids. AreIds ids (map (λ u. u.id) unsure.now)) }
{
    let ids = ids_of(alloc, unsure)?;
    Ok(IdList::from_vec(ids))
}

// The ids of these SYSMODs, in their order.
fn ids_of(alloc: Global, unsure: &[Unsure]) -> Result<Vec<Id>, AllocError>
    ensures { IfOk result (λ ids. ids.items ≡ map (λ u. u.id) unsure.now) }
{
    unsure.iter().map(|unsure| unsure.id).collect(alloc)
}

/// Whether one of the items is a SYSMOD.
pub fn has_sysmod(items: &[Item]) -> bool
    ensures { result ≡ list_any is_sysmod items.now }
{
    items.iter().any(|item| is_sysmod(item))
}

/// The ids of the SYSMODs among the items.
pub fn package_ids(alloc: Global, items: &[Item]) -> Result<IdList, AllocError>
    ensures { IfOk result (λ ids. AreIds ids (flat_map id_of items.now)) }
{
    let ids = sysmod_ids(alloc, items)?;
    Ok(IdList::from_vec(ids))
}

// The ids of the SYSMODs among the items, in their order.
fn sysmod_ids(alloc: Global, items: &[Item]) -> Result<Vec<Id>, AllocError>
    ensures { IfOk result (λ ids. ids.items ≡ flat_map id_of items.now) }
{
    let mut ids = Vec::new(alloc);
    for item in items {
        push_id(item, &mut ids)?;
    }
    Ok(ids)
}

// Appends the id of the item, if it is a SYSMOD.
fn push_id(item: &Item, ids: &mut Vec<Id>) -> Result<(), AllocError>
    ensures { IfOk result (λ _. ids.new.items ≡ ids.old.items ++ id_of item.now) }
{
    let Item::Sysmod(sysmod) = item else {
        return Ok(());
    };
    ids.push(sysmod.id)?;
    Ok(())
}

// Whether the item is a SYSMOD.
fn is_sysmod(item: &Item) -> bool
    ensures { result ≡ is_sysmod item.now }
{
    match item {
        Item::Sysmod(_) => true,
        Item::Assign(_) => false,
    }
}
