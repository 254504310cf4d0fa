//! The steps by which GROUP's list grows.
ghost use Rattle.std.specs.Prelude.{◌≡◌, ◌++◌, IfOk, OnOk};
ghost use Rattle.undo.specs.Steps.{as_steps, all_steps, from_all};
ghost use Rattle.undo.specs.Scopes.{restoring_of};

use crate::dependences::dependences_of;
use crate::nodes::{Node, Step, element_node, push_step, sysmod_nodes};
use crate::scope::{RestoreScope, unaccepted_among};
use fields::Id;
use std::alloc::{AllocError, Global};

// Adds the step from a group to the SYSMOD that depends on it. An empty group leads nowhere.
fn push_step_from_group(
    alloc: Global,
    group: &[Id],
    dependent: Id,
    steps: &mut Vec<Step>,
) -> Result<(), AllocError>
    ensures { OnOk result (as_steps steps.new.items ≡ as_steps steps.old.items ++ from_all dependent group.now) }
{
    if !group.is_empty() {
        let these = sysmod_nodes(alloc, group)?;
        push_step(steps, these, Node::Sysmod(dependent))?;
    }
    Ok(())
}

/// All steps of a RESTORE: from each applied SYSMOD to the elements that it changes, from an element to the applied
/// SYSMODs that change it and that the distribution zone does not supply, and from each group to the SYSMOD that
/// depends on it.
pub(crate) fn all_steps(
    alloc: Global,
    scope: &RestoreScope<'_, '_>,
) -> Result<Vec<Step>, AllocError>
    ensures { IfOk result (λ steps. as_steps steps.items ≡ all_steps (restoring_of scope.now)) }
{
    let global = scope.vers.global();
    let mut steps = Vec::new(alloc);
    for id in scope.applied {
        let changes = global.changes_of(*id);
        for change in changes {
            let these = vec![in alloc; Node::Sysmod(*id)]?;
            push_step(&mut steps, these, element_node(change))?;
        }
    }
    let unaccepted = unaccepted_among(alloc, scope.accepted, scope.applied)?;
    for changer in unaccepted.as_slice() {
        let its_changes = global.changes_of(*changer);
        for change in its_changes {
            let these = vec![in alloc; element_node(change)]?;
            push_step(&mut steps, these, Node::Sysmod(*changer))?;
        }
    }
    for dependent in scope.applied {
        let groups = dependences_of(alloc, scope, *dependent)?;
        for group in groups.as_slice() {
            push_step_from_group(alloc, group.as_slice(), *dependent, &mut steps)?;
        }
    }
    Ok(steps)
}
