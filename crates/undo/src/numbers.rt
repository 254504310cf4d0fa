//! A step with numbers: the places of its SYSMODs and elements in a table.
ghost use Rattle.std.specs.Prelude.{◌≡◌, ◌<◌, ◌^◌, Some, length, slice_get, Contains, IfOk};
ghost use Rattle.solve.specs.Least.{IsRule};
ghost use Rattle.solve.specs.Rules.{as_rule};
ghost use Rattle.undo.specs.Steps.{as_step};
ghost use Rattle.undo.specs.ByNumbers.{Covers, IsNumbered};

use crate::nodes::{Node, Step};
use fields::{Field, Rising};
use solve::Rule;
use std::alloc::{AllocError, Global};

// The number of an item that is in the table: its place there.
fn place_number<T: Field>(table: &Rising<T>, item: T) -> u32
    requires there { Contains table.now item }
    requires few { length table.now < 2 ^ 32 }
    ensures { slice_get table.now result ≡ Some item }
{
    table.as_slice().binary_search(&item).unwrap() as u32
}

/// The step as a rule: the numbers of its nodes, each once and in order.
pub(crate) fn rule_of(alloc: Global, table: &Rising<Node>, step: &Step) -> Result<Rule, AllocError>
    requires covers { Covers table.now step.now }
    requires few { length table.now < 2 ^ 32 }
    ensures numbered { IfOk result (λ rule. IsNumbered table.now (as_step step.now) (as_rule rule)) }
    ensures valid { IfOk result (λ rule. IsRule (length table.now) (as_rule rule)) }
{
    let mut these = Vec::new(alloc);
    for node in step.these.as_slice() {
        these.push(place_number(table, *node))?;
    }
    these.sort_unstable();
    these.dedup();
    let that = place_number(table, step.that);
    Ok(Rule { these, that })
}
