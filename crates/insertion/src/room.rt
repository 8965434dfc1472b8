// What is left of what is lent, and the numbers that come next.
ghost use Rattle.std.specs.Prelude.{◌≡◌, ◌≢◌, ◌≤◌, ◌+◌, ◌-◌, IfOk, IfErr, OnOk};
ghost use Rattle.lent.specs.Room as def;
ghost use Rattle.records.specs.declared.refusal.Refusal.TheVariants as refusals;
ghost use Rattle.state.specs.Builder.{full_of};

use lent::Node;
use records::refusal::Refusal;
use state::builder::Builder;

/// How many nodes are free.
#[tactic(auto, using(crate::proofs::Laws::nodes_left))]
pub fn free_nodes(b: &Builder<'_>) -> usize
    ensures free { result ≡ def.free_nodes (full_of b.now).nodes.mem (full_of b.now).nodes.used }
    ensures few { result ≤ 4096 - (full_of b.now).nodes.used }
{
    lent::room::free_nodes(b.nodes, b.core.counts.nodes)
}

/// How many attribute pairs are free.
pub fn free_pairs(b: &Builder<'_>) -> usize
    ensures { result ≡ def.free_pairs (full_of b.now).pairs.mem (full_of b.now).pairs.used }
{
    lent::room::free_pairs(b.pairs, b.core.counts.pairs)
}

// The next node, when the first `used` of `nodes` are used.
pub(crate) fn next_node_on(nodes: &[u8], used: usize) -> Result<Node, Refusal>
    ensures number { IfOk result (λ n. n.0 ≡ used + 1) }
    ensures free { OnOk result (def.free_nodes nodes.now used ≢ 0) }
    ensures full { IfErr result (λ e. (e ≡ refusals.NodesFull) × (def.free_nodes nodes.now used ≡ 0)) }
{
    let n = lent::room::next_node(nodes, used).ok_or(Refusal::NodesFull)?;
    Ok(Node(n))
}

/// The next node: the lowest number that is free. `NodesFull` where none is.
pub fn next_node(b: &Builder<'_>) -> Result<Node, Refusal>
    ensures number { IfOk result (λ n. n.0 ≡ (full_of b.now).nodes.used + 1) }
    ensures free { OnOk result (def.free_nodes (full_of b.now).nodes.mem (full_of b.now).nodes.used ≢ 0) }
    ensures full { IfErr result (λ e. (e ≡ refusals.NodesFull) × (def.free_nodes (full_of b.now).nodes.mem (full_of b.now).nodes.used ≡ 0)) }
{
    next_node_on(b.nodes, b.core.counts.nodes)
}

// The next text piece, when the first `used` of `pieces` are used.
pub(crate) fn next_piece_on(pieces: &[u8], used: usize) -> Result<u16, Refusal>
    ensures number { IfOk result (λ i. i ≡ used + 1) }
    ensures free { OnOk result (def.free_pieces pieces.now used ≢ 0) }
    ensures full { IfErr result (λ e. (e ≡ refusals.PiecesFull) × (def.free_pieces pieces.now used ≡ 0)) }
{
    lent::room::next_piece(pieces, used).ok_or(Refusal::PiecesFull)
}

/// The next text piece: the lowest number that is free. `PiecesFull` where none is.
pub fn next_piece(b: &Builder<'_>) -> Result<u16, Refusal>
    ensures number { IfOk result (λ i. i ≡ (full_of b.now).pieces.used + 1) }
    ensures free { OnOk result (def.free_pieces (full_of b.now).pieces.mem (full_of b.now).pieces.used ≢ 0) }
    ensures full { IfErr result (λ e. (e ≡ refusals.PiecesFull) × (def.free_pieces (full_of b.now).pieces.mem (full_of b.now).pieces.used ≡ 0)) }
{
    next_piece_on(b.pieces, b.core.counts.pieces)
}
