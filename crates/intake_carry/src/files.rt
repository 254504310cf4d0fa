//! What becomes of the statements of files.
ghost use Rattle.std.specs.Prelude.{◌≡◌, ◌++◌, [], IfOk, List, OnOk, map};
ghost use Rattle.terms.specs.Types as terms;
ghost use Rattle.mcs.specs.declared.file.Item.TheVariants as item;
ghost use Rattle.intake_read.specs.declared.items.WideHold.{WideHold};
ghost use Rattle.intake_holds.specs.Become.{Become};
ghost use Rattle.intake_holds.specs.Holds.{AreInOrder};
ghost use Rattle.intake_carry.specs.Carried.{item_in, SysmodBecomes, FileBecomes, FilesBecome};
ghost use Rattle.intake_holds.specs.Outside.{AreCarried};
ghost use Rattle.intake_sysmod.specs.Users.{run_of};
ghost use Rattle.intake_carry.specs.Unsure.{AreUnsure};

use crate::assigns::{append_assigns, carry_assigns};
use crate::copies::OtherCopies;
use crate::held_copies::without_held_already;
use crate::narrowed::{CarryError, Narrowed};
use crate::notes::{tell_notes, tell_swallowed_statements};
use crate::scope::CarryScope;
use crate::stand_ins::sort_and_check_stand_ins;
use crate::sysmods::{CarriedSysmod, carry_with_holds};
use crate::unsure::unsure_sysmods;
use intake_cards::Remarks;
use intake_holds::{
    FileRemarks, HoldError, OutsideHolds, PlacedItem, carry_releases, items_in_order,
};
use intake_read::{WideFile, WideSysmod};
use intake_sysmod::{Options, Users, tell_other_statements};
use mcs::Item;
use std::alloc::{AllocError, Global};

/// What becomes of SYSMODs and releases: items of PTFIN, and of the hold file.
#[derive(Drop)]
pub(crate) struct CarriedItems {
    pub items: Vec<Item>,
    pub outside: Vec<PlacedItem>,
}

impl CarriedItems {
    fn new(alloc: Global) -> CarriedItems
        ensures items { result.items.items ≡ [] }
        ensures outside { result.outside.items ≡ [] }
    {
        CarriedItems {
            items: Vec::new(alloc),
            outside: Vec::new(alloc),
        }
    }

    // Adds what one more SYSMOD becomes: itself, if it is carried, and its holds for the hold file.
    fn push(&mut self, carried: CarriedSysmod) -> Result<(), AllocError>
        ensures items { OnOk result (self.new.items.items ≡ self.old.items.items ++ item_in carried.sysmod) }
        ensures outside { OnOk result (self.new.outside.items ≡ self.old.outside.items ++ carried.outside.items) }
    {
        let CarriedSysmod {
            sysmod,
            mut outside,
        } = carried;
        self.outside.append(&mut outside)?;
        if let Some(sysmod) = sysmod {
            self.items.push(Item::Sysmod(sysmod))?;
        }
        Ok(())
    }

    // Adds those of one more file after these.
    fn append(&mut self, mut other: CarriedItems) -> Result<(), AllocError>
        ensures items { OnOk result (self.new.items.items ≡ self.old.items.items ++ other.items.items) }
        ensures outside { OnOk result (self.new.outside.items ≡ self.old.outside.items ++ other.outside.items) }
    {
        self.items.append(&mut other.items)?;
        self.outside.append(&mut other.outside)?;
        Ok(())
    }
}

// Carries SYSMODs with their holds. Returns `BadHold` if a hold has no key, `Memory` if memory runs out.
fn carry_sysmods(
    alloc: Global,
    scope: &CarryScope<'_>,
    remarks: &mut Remarks,
    sysmods: &[WideSysmod],
) -> Result<CarriedItems, HoldError>
    ensures { IfOk result (λ all. Become (SysmodBecomes scope.now.options.now.decide scope.now.users.now) sysmods.now
        all.items.items all.outside.items) }
{
    let mut gathered = CarriedItems::new(alloc);
    for stated in sysmods {
        let carried = carry_with_holds(alloc, scope, remarks, stated)?;
        gathered.push(carried)?;
    }
    Ok(gathered)
}

// Carries the SYSMODs and the releases of a file. Its remarks on holds outside SYSMODs come after those on SYSMODs and
// before those on releases. Returns `BadHold` if a hold or a release has no key, `Memory` if memory runs out.
fn carry_file(
    alloc: Global,
    scope: &CarryScope<'_>,
    remarks: &mut Remarks,
    held: &mut FileRemarks,
    file: &WideFile,
) -> Result<CarriedItems, HoldError>
    ensures { IfOk result (λ all. FileBecomes scope.now.options.now.decide scope.now.users.now file.now all.items.items
        all.outside.items) }
{
    tell_notes(alloc, remarks, file.notes.as_slice())?;
    tell_swallowed_statements(alloc, remarks, file.swallowed.as_slice())?;
    let sysmods = file.sysmods.as_slice();
    let mut gathered = carry_sysmods(alloc, scope, remarks, sysmods)?;
    let _ = tell_other_statements(alloc, scope.options, remarks, file.others.as_slice())?;
    remarks.append(held.take_next_file(alloc))?;
    let mut releases = carry_releases(alloc, remarks, file.releases.as_slice())?;
    gathered.outside.append(&mut releases)?;
    Ok(gathered)
}

// Carries the SYSMODs and the releases of all files. Returns `BadHold` if a hold or a release has no key, `Memory` if
// memory runs out.
fn carry_files(
    alloc: Global,
    scope: &CarryScope<'_>,
    remarks: &mut Remarks,
    held: &mut FileRemarks,
    files: &[WideFile],
) -> Result<CarriedItems, HoldError>
    ensures { IfOk result (λ all. Become (FileBecomes scope.now.options.now.decide scope.now.users.now) files.now
        all.items.items all.outside.items) }
{
    let mut gathered = CarriedItems::new(alloc);
    for file in files {
        let more = carry_file(alloc, scope, remarks, held, file)?;
        gathered.append(more)?;
    }
    Ok(gathered)
}

// The items of PTFIN, with the assignments after them, and those of the hold file in their order, with all remarks and
// the SYSMODs of which it is not sure that they can be installed. The names of stand-ins are checked here, because any
// of the files may have an element of such a name.
fn finish_narrowed(
    alloc: Global,
    options: &Options,
    mut remarks: Remarks,
    files: &[WideFile],
    mut items: Vec<Item>,
    outside: Vec<PlacedItem>,
) -> Result<Narrowed, AllocError>
    ensures items { IfOk result (λ narrowed. (assigns : List terms.Assign)
        × (narrowed.items.items ≡ items.items ++ map item.Assign assigns)) }
    ensures in_order { IfOk result (λ narrowed. AreInOrder outside.items narrowed.hold_items.items) }
    ensures unsure { IfOk result (λ narrowed. AreUnsure (run_of files.now) narrowed.items.items
        narrowed.unsure.items) }
{
    sort_and_check_stand_ins(alloc, &mut remarks, files)?;
    let assigns = carry_assigns(alloc, &mut remarks, files)?;
    append_assigns(&mut items, assigns)?;
    let hold_items = items_in_order(alloc, outside)?;
    let unsure = unsure_sysmods(alloc, options, files, items.as_slice())?;
    Ok(Narrowed::new(items, hold_items, unsure, remarks))
}

/// Makes items that RECEIVE takes of what the files state, in the order of the files. Each SYSMOD that is carried is no
/// looser than it is stated, and no ERROR, SYSTEM or USER hold or release is lost. `held` has the files' holds outside
/// SYSMODs, which were carried as they were read. Remarks say what is left out or changed, and each carried SYSMOD that
/// has to do with one that is left out is named. Returns `Refused`, with all remarks, if a hold or a release of such a
/// kind cannot be carried, and `Memory` if memory runs out.
pub fn narrow(
    alloc: Global,
    files: &[WideFile],
    mut held: OutsideHolds,
    mut options: Options,
) -> Result<Narrowed, CarryError>
    ensures items { (holds : List WideHold) → AreCarried holds held → IfOk result (λ narrowed.
        FilesBecome options.decide files.now holds narrowed.items.items narrowed.hold_items.items) }
    ensures unsure { IfOk result (λ narrowed. AreUnsure (run_of files.now) narrowed.items.items
        narrowed.unsure.items) }
{
    options.sort_members();
    let users = Users::of_files(alloc, &options, files)?;
    let copies = OtherCopies::of_files(alloc, files)?;
    let mut remarks = Remarks::new(alloc);
    if held.remark_bad_statements(alloc, &mut remarks, files)? {
        return Err(CarryError::Refused(remarks.list));
    }
    let mut held_remarks = held.remarks;
    let scope = CarryScope {
        options: &options,
        users: &users,
        copies: &copies,
    };
    let gathered = match carry_files(alloc, &scope, &mut remarks, &mut held_remarks, files) {
        Ok(gathered) => gathered,
        Err(HoldError::Memory) => return Err(CarryError::Memory),
        Err(HoldError::BadHold) => return Err(CarryError::Refused(remarks.list)),
    };
    let CarriedItems { items, outside } = gathered;
    let mut outside = without_held_already(
        alloc,
        &mut remarks,
        &copies,
        items.as_slice(),
        outside,
    )?;
    outside.append(&mut held.placed)?;
    Ok(finish_narrowed(alloc, &options, remarks, files, items, outside)?)
}
