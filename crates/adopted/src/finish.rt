// Steps 4.9 to 4.12 and 4.14 to 4.19: what is done before and after the inner loop.
ghost use Rattle.std.specs.Prelude.{◌≡◌, ℕ, ◌+◌, ◌<◌, ◌≤◌, length, get_or, Some};
ghost use Rattle.places.specs.Places.{Whole, places_of, place_of};
ghost use Rattle.state.specs.Builder.{SameLoans, full_of};
ghost use Rattle.standard.specs.Adoption.{rehung, adopted};
ghost use Rattle.adopted.specs.Bookmark.{inner_at, relisted, finished};
ghost use Rattle.adopted.specs.Bookmark as by_bookmark;
ghost use Rattle.adopted.specs.Firm.{Firm};

use crate::bookmark::Bookmark;
use crate::walk::Walk;
use lent::Node;
use location::place;
use state::builder::Builder;

// 4.15 to 4.17
#[tactic(auto, unfolding(standard::specs::Adoption::rehung))]
fn rehang(nodes: &mut [u8], new: Node, fe: Node, block: Node)
    ensures { nodes.new ≡ rehung nodes.old new.0 fe.0 block.0 }
{
    makers::make::copy_element(nodes, new, fe);
    arena::links::move_children(nodes, block, new);
    arena::links::append(nodes, block, new);
}

// 4.18
#[tactic(auto, unfolding(crate::specs::Bookmark::relisted))]
fn relist(list: &mut [u16], count: usize, fe: u16, mark: Bookmark, new: u16) -> usize
    requires { count ≤ length list.old }
    ensures least { result ≤ count }
    ensures places { places_of list.new result ≡ relisted mark (places_of list.old count) fe new }
{
    match mark {
        Bookmark::Replace(x) => {
            places::rename(list, count, x.0, new);
            count
        }
        Bookmark::InsertAfter(x) => places::exchange(list, count, fe, x.0, new),
    }
}

// 4.14 to 4.19
#[tactic(auto, unfolding(state::specs::Fields::set_depth, state::specs::Fields::set_nodes, state::specs::Fields::set_list, state::specs::Fields::set_counts))]
fn finish(b: &mut Builder<'_>, w: Walk, fe: u16, block: u16, ancestor: u16)
    requires some { 0 < (full_of b.old).stack.size }
    requires stack { Whole (full_of b.old).stack }
    requires list { Whole (full_of b.old).list }
    requires room { (full_of b.old).nodes.used < 4096 }
    ensures loans { SameLoans b.old b.new }
    ensures depth { (full_of b.new).stack.size ≤ (full_of b.old).stack.size }
    ensures listed { (full_of b.new).list.size ≤ (full_of b.old).list.size }
    ensures nodes { (full_of b.new).nodes.used ≡ (full_of b.old).nodes.used + 1 }
    ensures outcome { full_of b.new ≡ finished (inner_at (full_of b.old) w.last w.mark) fe block ancestor }
{
    let used = b.core.counts.nodes;
    let new = lent::room::next(used);
    // 4.14: the place is found before the node leaves its parent.
    let place = place::appropriate_place_for_insertion(b, Node(ancestor));
    arena::links::detach(b.nodes, Node(w.last));
    place::attach(b.nodes, place, Node(w.last));
    rehang(b.nodes, Node(new), Node(fe), Node(block));
    let depth = places::exchange(b.stack, b.core.depth, fe, block, new);
    let count = relist(b.list, b.core.counts.list, fe, w.mark, new);
    b.core = b
        .core
        .with_nodes(used + 1)
        .with_depth(depth)
        .with_list(count);
}

/// 4.9 to 4.19: `fe`, the formatting element, is entry `s` of the stack, and its furthest block entry `at`. At most four nodes are made. What it does is said by the bookmark as
/// the code has it (`steps`), and, where `fe` is in the list, as the standard has it (`outcome`).
pub fn adopt(b: &mut Builder<'_>, fe: u16, s: usize, at: usize)
    requires firm { Firm (full_of b.old).stack (full_of b.old).list (full_of b.old).nodes.used 1 }
    requires open { s < (full_of b.old).stack.size }
    requires block { at < (full_of b.old).stack.size }
    ensures loans { SameLoans b.old b.new }
    ensures depth { (full_of b.new).stack.size ≤ (full_of b.old).stack.size }
    ensures listed { (full_of b.new).list.size ≤ (full_of b.old).list.size }
    ensures nodes { (full_of b.new).nodes.used ≤ (full_of b.old).nodes.used + 4 }
    ensures steps { full_of b.new ≡ by_bookmark.adopted (full_of b.old) fe s at }
    ensures outcome { (j : ℕ) → place_of (full_of b.old).list fe ≡ Some j → get_or (full_of b.old).stack.held s 0 ≡ fe → full_of b.new ≡ adopted (full_of b.old) fe s j at }
{
    let block = b.stack[at];
    let up = s.saturating_sub(1);
    let ancestor = b.stack[up];
    let w = crate::walk::walk_up(b, fe, block, at);
    finish(b, w, fe, block, ancestor);
}
