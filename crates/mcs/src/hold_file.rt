//! Hold files: their holds and releases, or their first fault.
ghost use Rattle.std.specs.Prelude.{◌≡◌, List, IfOk, IfErr};
ghost use Rattle.terms.specs.Types.{HoldItem as AnyItem};
ghost use Rattle.terms.specs.HoldFile.{IsHoldFile};
ghost use Rattle.mcs.specs.declared.error.McsError.TheVariants.{Memory};
ghost use Rattle.mcs.specs.HoldItems.{items, IsHoldFileError};

use crate::error::McsError;
use crate::file_faults::{error_at, split_statements};
use crate::hold_item::{HoldItem, read_item};
use std::alloc::Global;

/// The holds and releases of a hold file, in its order; the holds are external. Returns `Memory` if memory runs out.
/// `Fault` is `BadStatementForm` at the first bad record, wherever it is, or `WrongPlace` at record 1 if no statement
/// begins there. Otherwise it is the fault of the first bad statement, at the record where the statement begins:
/// `WrongPlace` also for any other known statement, and for text after a `++HOLD` or `++RELEASE`.
pub fn read_hold(alloc: Global, bytes: &[u8]) -> Result<Vec<HoldItem>, McsError>
    ensures items { IfOk result (λ found. IsHoldFile bytes.now (items found.items)) }
    ensures good { (found : List AnyItem) → IsHoldFile bytes.now found → IfErr result (λ e. e ≡ Memory) }
    ensures fault { IfErr result (IsHoldFileError bytes.now) }
{
    let mut left = split_statements(bytes)?;
    let mut found = Vec::new(alloc);
    while let Some(group) = left.next_group() {
        match read_item(alloc, &group) {
            Ok(item) => found.push(item)?,
            Err(error) => return Err(error_at(group.number, error)),
        }
    }
    Ok(found)
}
