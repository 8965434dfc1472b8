// What the adoption agency looks for: the formatting element in the list, and its furthest block in the stack.
ghost use Rattle.std.specs.Prelude.{◌≡◌, cond, ◌<◌, ◌≤◌, length, None, Some};
ghost use Rattle.names.specs.Sets.{Special};
ghost use Rattle.places.specs.Places.{Whole, places_of};
ghost use Rattle.state.specs.Builder.{full_of};
ghost use Rattle.standard.specs.Stack.{is_of};
ghost use Rattle.standard.specs.Adoption.{entry_of, furthest_of};

use lent::Node;
use location::html;
use names::sets::Set;
use stacks::walk;
use state::builder::Builder;

/// 4.3 of the adoption agency, 13.2.6.4.7: the last of the first `count` entries of `list` with the name, unless a marker stands after it.
/// It is `entry` for a caller that has `nodes` to read alone.
#[tactic(auto, unfolding(standard::specs::Adoption::entry_of, places::specs::Places::last_with))]
pub fn entry_on(nodes: &[u8], list: &[u16], count: usize, name: u16) -> Option<usize>
    requires { count ≤ length list.now }
    ensures { result ≡ entry_of nodes.now (places_of list.now count) name }
{
    places::last_with(
        &list[..count],
        |n| html::is_html(nodes, Node(n), name),
        |n| n == Node::MARKER,
    )
}

/// 4.3: the last entry of the list with the name, unless a marker stands after it.
pub fn entry(b: &Builder<'_>, name: u16) -> Option<usize>
    requires { Whole (full_of b.now).list }
    ensures { result ≡ entry_of (full_of b.now).nodes.mem (full_of b.now).list name }
{
    entry_on(b.nodes, b.list, b.core.counts.list, name)
}

// Place k, if n, which stands there, is special.
fn special_at(nodes: &[u8], n: u16, k: usize) -> Option<usize>
    ensures { result ≡ cond (is_of Special nodes.now n) (Some k) None }
{
    if walk::is_of(nodes, Node(n), Set::Special) {
        return Some(k);
    }
    None
}

/// 4.7 of the adoption agency, 13.2.6.4.7: the first special element after entry s, among the first `depth` entries of `h`. It is `furthest`
/// for a caller that has `nodes` to read alone.
pub fn furthest_on(nodes: &[u8], h: &[u16], depth: usize, s: usize) -> Option<usize>
    requires open { s < depth }
    requires whole { depth ≤ length h.now }
    ensures { result ≡ furthest_of nodes.now (places_of h.now depth) s }
{
    // Looked at to the end: which of two special elements counts, the one nearest the formatting element, stands in one line.
    let mut found = None;
    for k in s + 1..depth {
        let here = special_at(nodes, h[k], k);
        found = places::first_of(found, here);
    }
    found
}

/// 4.7: the first special element of the stack after entry s.
pub fn furthest(b: &Builder<'_>, s: usize) -> Option<usize>
    requires open { s < (full_of b.now).stack.size }
    requires whole { Whole (full_of b.now).stack }
    ensures { result ≡ furthest_of (full_of b.now).nodes.mem (full_of b.now).stack s }
{
    furthest_on(b.nodes, b.stack, b.core.depth, s)
}
