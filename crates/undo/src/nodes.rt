//! The members of GROUP's list: SYSMODs and elements.
ghost use Rattle.std.specs.Prelude.{◌≡◌, ◌++◌, ◌∷◌, [], map, IfOk, OnOk};
ghost use Rattle.undo.specs.Steps.{as_steps, element_at};
ghost use Rattle.undo.specs.declared.nodes.Node.TheVariants.{Sysmod};

use fields::{Field, Id, Name};
use std::alloc::{AllocError, Global};
use sysmods_values::ElemChange;
use terms::ElemType;

/// A member of GROUP's list: a SYSMOD, or an element.
#[derive(Clone, Copy, PartialEq, Eq, PartialOrd, Ord)]
pub(crate) enum Node {
    Sysmod(Id),
    Element(ElemType, Name),
}

impl Field for Node {
    ghost use Rattle.undo.specs.NodeOrder.{exact_nodes};

    ghost exact = { exact_nodes };
}

/// A step by which GROUP's list grows: once the list contains all of `these`, it contains `that`.
#[derive(Drop)]
pub(crate) struct Step {
    pub(crate) these: Vec<Node>,
    pub(crate) that: Node,
}

/// The ids as nodes.
pub(crate) fn sysmod_nodes(alloc: Global, ids: &[Id]) -> Result<Vec<Node>, AllocError>
    ensures { IfOk result (λ nodes. nodes.items ≡ map Sysmod ids.now) }
{
    ids.iter().map(|id| Node::Sysmod(*id)).collect(alloc)
}

/// The element of the statement as a node.
pub(crate) fn element_node(change: &ElemChange) -> Node
    ensures { result ≡ element_at change.now }
{
    Node::Element(change.elem_type, change.name)
}

/// Adds the step that leads from all of `these` to `that`.
pub(crate) fn push_step(
    steps: &mut Vec<Step>,
    these: Vec<Node>,
    that: Node,
) -> Result<(), AllocError>
    ensures { OnOk result (as_steps steps.new.items
        ≡ as_steps steps.old.items ++ record { these = these.items; that = that } ∷ []) }
{
    steps.push(Step { these, that })?;
    Ok(())
}
