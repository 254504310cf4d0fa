//! What is carried of files, and whether something is left out.
ghost use Rattle.std.specs.Prelude.{◌≡◌, ◌⊎◌, [], IfSome, IsTrue, filter, length};
ghost use Rattle.intake_sysmod.specs.Users.{run_of};
ghost use Rattle.intake_service.specs.Carrying.{HasEachSysmod, is_sysmod};

use intake_cards::RemarkList;
use intake_carry::Narrowed;
use intake_read::WideFile;
use mcs::Item;

/// The status of a run that leaves something out that may be asked for.
const LEFT_OUT_STATUS: u8 = 4;

/// What files state, and what RECEIVE takes of it.
#[derive(Drop)]
pub struct Carried {
    pub files: Vec<WideFile>,
    pub narrowed: Narrowed,
}

impl Carried {
    /// The status of a run that carries this: 0, or 4 if something is left out that may be asked for. It is 0 only if
    /// each SYSMOD is carried, and each can be installed as far as what is left out forbids nothing.
    pub fn status(&self) -> u8
        ensures status { (result ≡ 0) ⊎ (result ≡ 4) }
        ensures each { result ≡ 0 → HasEachSysmod self.now.files.items self.now.narrowed.items.items }
        ensures sure { result ≡ 0 → self.now.narrowed.unsure.items ≡ [] }
    {
        if has_remark_that_matters(&self.narrowed.remarks) {
            return LEFT_OUT_STATUS;
        }
        if !self.narrowed.unsure.is_empty() {
            return LEFT_OUT_STATUS;
        }
        if has_each_sysmod(&self.files, &self.narrowed.items) {
            0
        } else {
            LEFT_OUT_STATUS
        }
    }
}

// Whether one of the remarks matters: it says that something is left out that may be asked for.
fn has_remark_that_matters(remarks: &RemarkList) -> bool {
    (0..remarks.len())
        .filter_map(|place| remarks.get(place))
        .any(|remark| remark.matters())
}

// Whether there are as many SYSMODs among the items as the files state. Each of these becomes at most one.
fn has_each_sysmod(files: &[WideFile], items: &[Item]) -> bool
    ensures { IsTrue result → HasEachSysmod files.now items.now }
{
    let Some(stated) = count_stated(files) else {
        return false;
    };
    let Some(carried) = count_carried(items) else {
        return false;
    };
    carried == stated
}

// How many SYSMODs the files state, or `None` if a `usize` cannot say it.
fn count_stated(files: &[WideFile]) -> Option<usize>
    ensures { IfSome result (λ count. count ≡ length (run_of files.now)) }
{
    let mut count = 0usize;
    for file in files {
        count = count.checked_add(file.sysmods.len())?;
    }
    Some(count)
}

// How many of the items are SYSMODs, or `None` if a `usize` cannot say it.
fn count_carried(items: &[Item]) -> Option<usize>
    ensures { IfSome result (λ count. count ≡ length (filter is_sysmod items.now)) }
{
    let mut count = 0usize;
    for item in items {
        if !is_sysmod(item) {
            continue;
        }
        count = count.checked_add(1)?;
    }
    Some(count)
}

// Whether the item is a SYSMOD.
fn is_sysmod(item: &Item) -> bool
    ensures { result ≡ is_sysmod item.now }
{
    match item {
        Item::Sysmod(_) => true,
        Item::Assign(_) => false,
    }
}
