//! What GROUP's list reaches, by numbers.
ghost use Rattle.std.specs.Prelude.{◌≡◌, ◌++◌, length, map, All, IfOk};
ghost use Rattle.std.specs.List.{flat_map};
ghost use Rattle.undo.specs.declared.nodes.Node.TheVariants.{Sysmod};
ghost use Rattle.undo.specs.Steps.{as_steps, is_start};
ghost use Rattle.undo.specs.ByNumbers.{AreFlagged, AreReached, Covers, IsGrowth, nodes_in};

use crate::nodes::{Node, Step, sysmod_nodes};
use crate::numbers::rule_of;
use fields::{Id, IdList, Rising};
use solve::{Rules, least};
use std::alloc::{AllocError, Global};

// All SYSMODs and elements of these ids and steps.
fn all_nodes(alloc: Global, ids: &IdList, steps: &[Step]) -> Result<Vec<Node>, AllocError>
    ensures { IfOk result (λ nodes. nodes.items ≡ map Sysmod ids.now ++ flat_map nodes_in steps.now) }
{
    let mut nodes = sysmod_nodes(alloc, ids.as_slice())?;
    for step in steps {
        nodes.extend_from_slice(step.these.as_slice())?;
        nodes.push(step.that)?;
    }
    Ok(nodes)
}

// Whether the node is one of GROUP's ids. An element is none.
fn is_start(ids: &IdList, node: &Node) -> bool
    ensures { result ≡ is_start ids.now node.now }
{
    match *node {
        Node::Sysmod(id) => ids.contains(id),
        Node::Element(_, _) => false,
    }
}

// For each node of the table, whether it is one of GROUP's ids.
fn start_flags(alloc: Global, ids: &IdList, table: &[Node]) -> Result<Vec<bool>, AllocError>
    ensures { IfOk result (λ flags. flags.items ≡ map (is_start ids.now) table.now) }
{
    table.iter().map(|node| is_start(ids, node)).collect(alloc)
}

// The steps as rules between the places of the table, which start at GROUP's ids.
fn rules_of_steps(
    alloc: Global,
    table: &Rising<Node>,
    ids: &IdList,
    steps: &[Step],
) -> Result<Rules, AllocError>
    requires { All (λ s. Covers table.now s) steps.now }
    ensures { IfOk result (λ rules. IsGrowth table.now ids.now (as_steps steps.now) rules) }
{
    let start = start_flags(alloc, ids, table.as_slice())?;
    let mut rules = Rules::new(alloc, start.as_slice())?;
    // For the proofs only: `size` is a `u32`, so all places in the table fit into 32 bits. The call does nothing.
    let _ = rules.size();
    for step in steps {
        rules.add_rule(rule_of(alloc, table, step)?)?;
    }
    Ok(rules)
}

// The ids of the SYSMODs of the table whose flag is set.
fn flagged_ids(alloc: Global, table: &[Node], flags: &[bool]) -> Result<Vec<Id>, AllocError>
    requires { length flags.now ≡ length table.now }
    ensures { IfOk result (λ found. AreFlagged table.now flags.now (length table.now) found.items) }
{
    let mut found = Vec::new(alloc);
    for i in 0..table.len() {
        if !flags[i] {
            continue;
        }
        let node = table[i];
        let Node::Sysmod(id) = node else {
            continue;
        };
        found.push(id)?;
    }
    Ok(found)
}

/// GROUP's ids, and the ids of the SYSMODs that the steps reach from them.
pub(crate) fn reached_ids(alloc: Global, ids: &IdList, steps: &[Step]) -> Result<IdList, AllocError>
    ensures { IfOk result (λ found. AreReached ids.now (as_steps steps.now) found) }
{
    let table = Rising::from_vec(all_nodes(alloc, ids, steps)?);
    let rules = rules_of_steps(alloc, &table, ids, steps)?;
    let set = least(alloc, &rules)?;
    let reached = flagged_ids(alloc, table.as_slice(), set.as_slice())?;
    Ok(IdList::from_vec(reached))
}
