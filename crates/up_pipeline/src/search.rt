ghost use Rattle.std.specs.Prelude.{◌≡◌, ◌<◌, ◌++◌, ◌∷◌, [], false, suc, length, slice_get, Some, IfOk, OnOk};
ghost use Rattle.std.specs.List.{list_any};
ghost use Rattle.up_kind.specs.Features.{has};
ghost use Rattle.up_pipeline.specs.Chains.{accepts, Ascend};
ghost use Rattle.up_pipeline.specs.Search.{Stands, is_kind, IsSearch, Tried};

use crate::engine::Engine;
use std::alloc::Global;
use up_compiler::{CompilerId, admits, row_result};
use up_kind::Kind;
use up_text::{List, Memory};

/// A kind, with the first chain that leads to it.
#[derive(Drop)]
pub(crate) struct Node {
    pub kind: Kind,
    pub chain: List<CompilerId>,
}

fn copy_of(alloc: Global, node: &Node) -> Result<Node, Memory>
    ensures { IfOk result (λ n. n ≡ node.now) }
{
    Ok(Node {
        kind: node.kind,
        chain: List::from_slice(alloc, node.chain.as_slice())?,
    })
}

// The chain of a node with one stage more.
fn longer(alloc: Global, node: &Node, id: CompilerId) -> Result<List<CompilerId>, Memory>
    ensures { IfOk result (λ chain. chain ≡ node.now.chain ++ id ∷ []) }
{
    let mut chain = List::from_slice(alloc, node.chain.as_slice())?;
    chain.push(id)?;
    Ok(chain)
}

fn is_known(nodes: &[Node], kind: Kind) -> bool
    ensures { result ≡ list_any (is_kind kind.0) nodes.now }
{
    nodes.iter().any(|node| kind.0 == node.kind.0)
}

// Adds the kind behind a stage, where the compiler accepts the kind before it and no node has it yet.
fn try_stage(
    alloc: Global,
    nodes: &mut List<Node>,
    from: &Node,
    id: CompilerId,
) -> Result<(), Memory>
    ensures { OnOk result (Tried nodes.old nodes.new from.now id) }
{
    if !admits(id, from.kind) {
        return Ok(());
    }
    let kind = row_result(id, from.kind);
    if is_known(nodes.as_slice(), kind) {
        return Ok(());
    }
    nodes.push(Node {
        kind,
        chain: longer(alloc, from, id)?,
    })?;
    Ok(())
}

#[tactic(auto, using(crate::proofs::Nodes::stands_get))]
pub(crate) fn node_at(nodes: &[Node], at: usize) -> &Node
    requires { at < length nodes.now }
    ensures { Stands nodes.now at result.now }
{
    &nodes[at]
}

/// Tries each stage from the node at a place.
pub(crate) fn expand(
    alloc: Global,
    ids: &[CompilerId],
    _kind: Kind,
    _engine: &Engine,
    nodes: &mut List<Node>,
    at: usize,
) -> Result<(), Memory>
    requires order { Ascend ids.now }
    requires searching { IsSearch ids.now (has _engine.now.features.0) (has _kind.0) nodes.old at }
    requires within { at < length nodes.old }
    requires refused { (n : Node) → Stands nodes.old at n → accepts (has _engine.now.features.0) (has n.kind.0) ≡ false }
    ensures { OnOk result (IsSearch ids.now (has _engine.now.features.0) (has _kind.0) nodes.new (suc at)) }
{
    let from = copy_of(alloc, node_at(nodes.as_slice(), at))?;
    for id in ids {
        try_stage(alloc, nodes, &from, *id)?;
    }
    Ok(())
}

/// The kind itself, to which the empty chain leads.
pub(crate) fn start(alloc: Global, kind: Kind) -> Result<List<Node>, Memory>
    ensures { IfOk result (λ nodes. nodes ≡ record { kind = kind; chain = [] } ∷ []) }
{
    let mut nodes = List::new(alloc);
    nodes.push(Node {
        kind,
        chain: List::new(alloc),
    })?;
    Ok(nodes)
}
