// Step 4.13, the inner loop: from the furthest block up to the formatting element.
ghost use Rattle.std.specs.Prelude.{◌≡◌, ◌+◌, ◌-◌, ◌<◌, ◌≤◌};
ghost use Rattle.places.specs.Places.{Whole, at, place_of};
ghost use Rattle.state.specs.Builder.{SameLoans, full_of};
ghost use Rattle.standard.specs.Adoption.{renewed, left_both};
ghost use Rattle.adopted.specs.Bookmark.{inner_at, mark_of, renewed_at, turned, inner, started};

use crate::bookmark::Bookmark;
use lent::Node;
use state::builder::Builder;

/// Where the inner loop stands: the standard's last node, and where the new entry of the list is to go.
#[derive(Clone, Copy, Debug, PartialEq, Eq)]
pub struct Walk {
    pub last: u16,
    pub mark: Bookmark,
}

// 4.13.6 and 4.13.8 in the tree.
#[tactic(auto, unfolding(standard::specs::Adoption::renewed))]
fn renew(nodes: &mut [u8], new: Node, node: Node, last: Node)
    ensures { nodes.new ≡ renewed nodes.old new.0 node.0 last.0 }
{
    makers::make::copy_element(nodes, new, node);
    arena::links::detach(nodes, last);
    arena::links::append(nodes, new, last);
}

// 4.13.7
#[tactic(auto, using(crate::proofs::WalkLaws::mark_moves, crate::proofs::WalkLaws::mark_stays))]
fn marked(last: u16, block: u16, new: u16, mark: Bookmark) -> Bookmark
    ensures { result ≡ mark_of last block new mark }
{
    if last == block {
        return Bookmark::InsertAfter(Node(new));
    }
    mark
}

// 4.13.6 to 4.13.9: the node at entry i of the stack and j of the list is made anew.
fn renew_at(b: &mut Builder<'_>, w: Walk, block: u16, i: usize, j: usize) -> Walk
    requires open { i < (full_of b.old).stack.size }
    requires stack { Whole (full_of b.old).stack }
    requires listed { j < (full_of b.old).list.size }
    requires list { Whole (full_of b.old).list }
    requires room { (full_of b.old).nodes.used < 4096 }
    ensures loans { SameLoans b.old b.new }
    ensures outcome { inner_at (full_of b.new) result.last result.mark ≡ renewed_at (inner_at (full_of b.old) w.last w.mark) block i j }
{
    let used = b.core.counts.nodes;
    let new = lent::room::next(used);
    let node = b.stack[i];
    renew(b.nodes, Node(new), Node(node), Node(w.last));
    places::swap_at(b.stack, b.core.depth, i, new);
    places::swap_at(b.list, b.core.counts.list, j, new);
    b.core = b.core.with_nodes(used + 1);
    Walk {
        last: new,
        mark: marked(w.last, block, new, w.mark),
    }
}

// 4.13.4 and 4.13.5: the node at entry i of the stack and j of the list leaves both.
#[tactic(auto, using(crate::proofs::WalkLaws::both_left))]
fn leave_both(b: &mut Builder<'_>, i: usize, j: usize)
    requires open { i < (full_of b.old).stack.size }
    requires stack { Whole (full_of b.old).stack }
    requires listed { j < (full_of b.old).list.size }
    requires list { Whole (full_of b.old).list }
    ensures loans { SameLoans b.old b.new }
    ensures outcome { full_of b.new ≡ left_both (full_of b.old) i j }
{
    let less = places::remove_at(b.stack, b.core.depth, i);
    let fewer = places::remove_at(b.list, b.core.counts.list, j);
    b.core = b.core.with_depth(less).with_list(fewer);
}

// Where the node at entry i of the stack stands in the list.
#[tactic(auto, using(places::proofs::Laws::at_of))]
fn listed(b: &Builder<'_>, i: usize) -> Option<usize>
    requires open { i < (full_of b.now).stack.size }
    requires stack { Whole (full_of b.now).stack }
    requires list { Whole (full_of b.now).list }
    ensures { result ≡ place_of (full_of b.now).list (at (full_of b.now).stack i) }
{
    places::find(b.list, b.core.counts.list, b.stack[i])
}

// 4.13.4 to 4.13.9 for the node at entry i of the stack: at most one node is made, and none past the third turn.
#[tactic(auto, using(crate::proofs::WalkLaws::turn_none, crate::proofs::WalkLaws::turn_new, crate::proofs::WalkLaws::stack_left))]
fn turn(b: &mut Builder<'_>, w: Walk, block: u16, i: usize, counter: usize) -> Walk
    requires open { i < (full_of b.old).stack.size }
    requires stack { Whole (full_of b.old).stack }
    requires list { Whole (full_of b.old).list }
    requires room { (full_of b.old).nodes.used + (4 - counter) ≤ 4096 }
    ensures loans { SameLoans b.old b.new }
    ensures outcome { inner_at (full_of b.new) result.last result.mark ≡ turned (inner_at (full_of b.old) w.last w.mark) block i counter }
{
    match listed(b, i) {
        None => {
            let depth = places::leave_at(b.stack, b.core.depth, i);
            b.core = b.core.with_depth(depth);
            w
        }
        Some(j) => {
            // 4.13.4
            let leaves = 3 < counter;
            if leaves {
                leave_both(b, i, j);
                return w;
            }
            renew_at(b, w, block, i, j)
        }
    }
}

/// 4.13 from entry `at` of the stack, which is `block`, the furthest block, up to `fe`, the formatting element. At most three nodes are made.
pub fn walk_up(b: &mut Builder<'_>, fe: u16, block: u16, at: usize) -> Walk
    requires open { at < (full_of b.old).stack.size }
    requires stack { Whole (full_of b.old).stack }
    requires list { Whole (full_of b.old).list }
    requires room { (full_of b.old).nodes.used + 3 ≤ 4096 }
    ensures loans { SameLoans b.old b.new }
    ensures some { 0 < (full_of b.new).stack.size }
    ensures stack { Whole (full_of b.new).stack }
    ensures list { Whole (full_of b.new).list }
    ensures depth { (full_of b.new).stack.size ≤ (full_of b.old).stack.size }
    ensures listed { (full_of b.new).list.size ≤ (full_of b.old).list.size }
    ensures nodes { (full_of b.new).nodes.used ≤ (full_of b.old).nodes.used + 3 }
    ensures outcome { inner_at (full_of b.new) result.last result.mark ≡ inner (started (full_of b.old) fe block) fe block 0 at }
{
    let mut w = Walk {
        last: block,
        mark: Bookmark::Replace(Node(fe)),
    };
    for i in (0..at).rev() {
        if b.stack[i] == fe {
            return w;
        }
        // 4.13.1: the counter is how far up from the furthest block the node is.
        w = turn(b, w, block, i, at - i);
    }
    w
}
