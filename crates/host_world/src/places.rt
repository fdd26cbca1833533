//! The nodes that visitors stand on.
ghost use Rattle.std.specs.Prelude.{◌≡◌, IfOk, OnErr, OnOk, replicate, slice_get};
ghost use Rattle.world_node.specs.Nodes as node;
ghost use Rattle.host_world.specs.Steps.{wanted_there};
ghost use Rattle.host_world.specs.Worlds.{place_in, ready_in, stepped};

use host_names::Digest;
use std::alloc::{AllocError, Global};
use world_node::{Call, Node, Outcome};

/// This many nodes at which nothing has happened.
pub(crate) fn nodes_of(
    alloc: Global,
    cache: usize,
    count: usize,
    visitors: usize,
) -> Result<Vec<Node>, AllocError>
    ensures { IfOk result (λ nodes. nodes.items ≡ replicate count (node.start cache visitors)) }
{
    let mut nodes = Vec::new(alloc);
    for _ in 0..count {
        nodes.push(Node::new(alloc, cache, visitors)?)?;
    }
    Ok(nodes)
}

/// A visitor does this at its node. If memory runs out, nothing changes.
pub(crate) fn call_at(nodes: &mut Vec<Node>, visitor: usize, call: &Call) -> Result<(), AllocError>
    ensures ok { OnOk result (nodes.new.items ≡ stepped visitor (node.called visitor call.now) nodes.old.items) }
    ensures err { OnErr result (nodes.new.items ≡ nodes.old.items) }
{
    let count = nodes.len();
    if count > 0 {
        let node = &mut nodes[visitor % count];
        node.call(visitor, call)?;
    }
    Ok(())
}

/// A visitor takes what is ready for it at its node. If memory runs out, nothing changes.
pub(crate) fn take_at(nodes: &mut Vec<Node>, visitor: usize) -> Result<(), AllocError>
    ensures ok { OnOk result (nodes.new.items ≡ stepped visitor (node.Take visitor) nodes.old.items) }
    ensures err { OnErr result (nodes.new.items ≡ nodes.old.items) }
{
    let count = nodes.len();
    if count > 0 {
        let node = &mut nodes[visitor % count];
        node.take(visitor)?;
    }
    Ok(())
}

/// A visitor wants the chunk of this name at its node, if it wants one.
pub(crate) fn want_at(nodes: &mut Vec<Node>, visitor: usize, name: Option<Digest>)
    ensures { nodes.new.items ≡ wanted_there visitor name nodes.old.items }
{
    let count = nodes.len();
    let Some(name) = name else {
        return;
    };
    if count > 0 {
        let node = &mut nodes[visitor % count];
        node.want(visitor, name);
    }
}

/// What is ready for a visitor at its node.
pub(crate) fn ready_at(
    nodes: &[Node],
    visitor: usize,
) -> Result<Option<(Digest, Option<usize>, Outcome)>, AllocError>
    ensures { IfOk result (λ it. it ≡ ready_in (slice_get nodes.now (place_in nodes.now visitor)) visitor) }
{
    let count = nodes.len();
    if count == 0 {
        return Ok(None);
    }
    let node = &nodes[visitor % count];
    node.ready(visitor)
}
