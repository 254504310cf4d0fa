//! PTFIN files: their items, or their first fault.
ghost use Rattle.std.specs.Prelude.{◌≡◌, List, IfOk, IfErr};
ghost use Rattle.terms.specs.Ptfin.{IsPtfin};
ghost use Rattle.terms.specs.Types.{Item as AnyItem};
ghost use Rattle.mcs.specs.declared.error.McsError.TheVariants.{Memory};
ghost use Rattle.mcs.specs.Files.{items, IsPtfinError};

use crate::error::McsError;
use crate::file::{Item, SoFar};
use crate::file_faults::{error_at, split_statements};
use crate::statement::read_statement;
use std::alloc::Global;

/// The items of a PTFIN, in the order of the file. Returns `Memory` if memory runs out. `Fault` is `BadStatementForm`
/// at the first bad record, wherever it is, or `WrongPlace` at record 1 if no statement begins there. Otherwise it is
/// the fault of the first bad statement, at the record where the statement begins.
pub fn read_ptfin(alloc: Global, bytes: &[u8]) -> Result<Vec<Item>, McsError>
    ensures items { IfOk result (λ found. IsPtfin bytes.now (items found.items)) }
    ensures good { (found : List AnyItem) → IsPtfin bytes.now found → IfErr result (λ e. e ≡ Memory) }
    ensures fault { IfErr result (IsPtfinError bytes.now) }
{
    let mut left = split_statements(bytes)?;
    let mut made = SoFar::new(alloc);
    while let Some(group) = left.next_group() {
        match read_statement(alloc, &made.current, left.rest, &group) {
            Ok(statement) => made = made.add_statement(alloc, statement)?,
            Err(error) => return Err(error_at(group.number, error)),
        }
    }
    Ok(made.into_items()?)
}
