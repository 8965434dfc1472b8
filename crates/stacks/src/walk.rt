// Walks up the stack: from the current node to an entry that is wanted, unless an element of a set is met first. Every scope test
// of 13.2.4.2 is such a walk, and so is the loop of "any other end tag".
ghost use Rattle.std.specs.Prelude.{◌≡◌, ◌≤◌, ℕ, Bool, length};
ghost use Rattle.names.specs.Set.{names_of};
ghost use Rattle.places.specs.Places.{Whole, places_of};
ghost use Rattle.places.specs.Search.{Computes};
ghost use Rattle.state.specs.Builder.{full_of};
ghost use Rattle.standard.specs.Stack.{is_of, is_cell, in_scope};

use lent::{Kind, Node};
use location::html;
use names::sets::Set;
use names::tag;
use state::builder::Builder;

/// Whether n is an element, and its namespace and name are of the set.
#[tactic(auto, unfolding(standard::specs::Stack::is_of))]
pub fn is_of(nodes: &[u8], n: Node, set: Set) -> bool
    ensures { result ≡ is_of (names_of set) nodes.now n.0 }
{
    lent::get(nodes, n, Node::KIND) == Kind::ELEMENT
        && set.has(
            lent::get(nodes, n, Node::SPACE),
            lent::get(nodes, n, Node::NAME),
        )
}

/// Whether n is an HTML td or th element.
#[tactic(auto, unfolding(standard::specs::Stack::is_cell))]
pub fn is_cell(nodes: &[u8], n: Node) -> bool
    ensures { result ≡ is_cell nodes.now n.0 }
{
    html::is_html(nodes, n, tag::TD) || html::is_html(nodes, n, tag::TH)
}

/// Where the last of the first `depth` entries of `h` that has `hit` stands, unless an element of the set stands after it: "has an element
/// in the specific scope", 13.2.4.2. It is `in_scope` for a caller that has `nodes` to read alone.
#[tactic(auto, unfolding(standard::specs::Stack::in_scope, places::specs::Places::last_with))]
pub fn in_scope_on<H: Fn(u16) -> bool>(
    nodes: &[u8],
    h: &[u16],
    depth: usize,
    set: Set,
    hit: H,
) -> Option<usize>
    requires whole { depth ≤ length h.now }
    requires hit { H.IsAlwaysCallable hit }
    ensures { (p : ℕ → Bool) → Computes (H.post hit) p → result ≡ in_scope (names_of set) p nodes.now (places_of h.now depth) }
{
    places::last_with(&h[..depth], hit, |n| is_of(nodes, Node(n), set))
}

/// Where the last entry of the stack that has `hit` stands, unless an element of the set stands after it: "has an element in the
/// specific scope", 13.2.4.2.
pub fn in_scope<H: Fn(u16) -> bool>(b: &Builder<'_>, set: Set, hit: H) -> Option<usize>
    requires whole { Whole (full_of b.now).stack }
    requires hit { H.IsAlwaysCallable hit }
    ensures { (p : ℕ → Bool) → Computes (H.post hit) p → result ≡ in_scope (names_of set) p (full_of b.now).nodes.mem (full_of b.now).stack }
{
    in_scope_on(b.nodes, b.stack, b.core.depth, set, hit)
}
