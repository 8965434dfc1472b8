// An element as the rules look at it, and which one an entry of the stack stands for.
ghost use Rattle.std.specs.Prelude.{◌≡◌};
ghost use Rattle.queries.specs.Element.{expanded};
ghost use Rattle.queries.specs.Element as def;

use lent::Node;
use state::Context;

/// An element as the rules look at it: its namespace, name and mark. A fragment's context is one too.
pub type Expanded = Context;

#[tactic(auto, unfolding(crate::specs::Element::expanded))]
fn expand(nodes: &[u8], n: Node) -> Expanded
    ensures { result ≡ expanded nodes.now n.0 }
{
    Context {
        space: lent::get(nodes, n, Node::SPACE),
        name: lent::get(nodes, n, Node::NAME),
        mark: lent::get(nodes, n, Node::MARK),
    }
}

#[tactic(auto, unfolding(crate::specs::Element::standing, crate::specs::Element::context_or))]
/// What entry k of the stack, node n, stands for: in the fragment case the context element stands in for entry 0 (13.2.4.1, 13.2.4.2).
pub fn standing(nodes: &[u8], context: Option<Context>, n: Node, k: usize) -> Expanded
    ensures { result ≡ def.standing nodes.now context n.0 k }
{
    match context {
        Some(x) if k == 0 => x,
        _ => expand(nodes, n),
    }
}
