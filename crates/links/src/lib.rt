#![tactic(auto)]
// The links of the lent nodes: each list of children is whole, and each child is met once.
ghost use Rattle.std.specs.Prelude.{◌≡◌, ◌≤◌, ◌<◌, ◌+◌, ◌*◌, length};
ghost use Rattle.lent.specs.Mem.{field, NEXT, PARENT, FIRST};
ghost use Rattle.theory.specs.Says.{Says};
ghost use Rattle.theory.specs.Pigeon.{walk};
ghost use Rattle.theory.specs.Count.{lists, roots};
ghost use Rattle.theory.specs.Check.{Node, Nodes};
ghost use Rattle.lent.specs.Tree.{links};
ghost use Rattle.links.specs.Links.{Sibling, Head, Tail, kids_of, bare_of, field_of, Children};

use lent::wide;

// The sibling of x by field f: none, or a used node that leads back by field g, of the same parent p.
fn sibling(mem: &[u8], c: usize, x: usize, f: usize, g: usize, p: usize) -> bool
    requires f_bound { f < 16 }
    requires g_bound { g < 16 }
    ensures { Says (Sibling mem.now c x f g p) result }
{
    let y = wide::field(mem, x, f);
    y == 0 || y <= c && wide::field(mem, y, g) == x && wide::field(mem, y, lent::Node::PARENT) == p
}

// The first child of x: none, and then no last one; or a used child with none before it.
fn head(mem: &[u8], c: usize, x: usize) -> bool
    ensures { Says (Head mem.now c x) result }
{
    let y = wide::field(mem, x, lent::Node::FIRST);
    if y == 0 {
        return wide::field(mem, x, lent::Node::LAST) == 0;
    }
    y <= c
        && wide::field(mem, y, lent::Node::PARENT) == x
        && wide::field(mem, y, lent::Node::PREV) == 0
}

// x, whose parent is p: with none it has no siblings, and without a next one it is the last.
fn tail(mem: &[u8], x: usize, p: usize) -> bool
    ensures { Says (Tail mem.now x p) result }
{
    let n = wide::field(mem, x, lent::Node::NEXT);
    if p == 0 {
        return n == 0 && wide::field(mem, x, lent::Node::PREV) == 0;
    }
    n != 0 || wide::field(mem, p, lent::Node::LAST) == x
}

/// The rules of one node's links: its parent is one of the c used nodes or none, and its siblings, its first child and the last
/// child of its parent lead back to it.
pub fn node(mem: &[u8], c: usize, x: usize) -> bool
    ensures { Says (Node (links mem.now) c x) result }
{
    let p = wide::field(mem, x, lent::Node::PARENT);
    p <= c
        && sibling(mem, c, x, lent::Node::NEXT, lent::Node::PREV, p)
        && sibling(mem, c, x, lent::Node::PREV, lent::Node::NEXT, p)
        && head(mem, c, x)
        && tail(mem, x, p)
}

// How many are met from x by `next`, at most k.
#[tactic(auto, using(crate::proofs::Counted::met_next, theory::specs::Pigeon::walk_none, theory::specs::Pigeon::walk_out))]
fn met(mem: &[u8], x: usize, k: usize) -> usize
    ensures counted { result ≡ length (walk (field_of mem.now NEXT) k x) }
    ensures fits { result ≤ k }
{
    let mut at = x;
    for n in 0..k {
        if at == 0 {
            return n;
        }
        at = wide::field(mem, at, lent::Node::NEXT);
    }
    k
}

// One for a node without a parent.
#[tactic(auto, unfolding(crate::specs::Links::bare_of))]
fn bare(mem: &[u8], x: usize) -> usize
    ensures counted { result ≡ bare_of mem.now x }
    ensures fits { result ≤ 1 }
{
    usize::from(wide::field(mem, x, lent::Node::PARENT) == 0)
}

// The children met from each node's first, and the nodes without a parent.
#[tactic(auto, using(crate::proofs::Counted::total_next, crate::specs::Links::total_none))]
fn total(mem: &[u8], c: usize) -> usize
    requires { c < 65535 }
    ensures counted { result ≡ length (lists (kids_of mem.now c) c) + length (roots (field_of mem.now PARENT) c) }
    ensures fits { result ≤ c * 65536 }
{
    let mut n: usize = 0;
    for x in 1..=c {
        let y = wide::field(mem, x, lent::Node::FIRST);
        n += met(mem, y, c + 1) + bare(mem, x);
    }
    n
}

// The rules of each node's links.
fn nodes(mem: &[u8], c: usize) -> bool
    ensures { Says (Nodes (links mem.now) c) result }
{
    for x in 1..=c {
        if !node(mem, c, x) {
            return false;
        }
    }
    true
}

/// Each of the c used nodes has its children in a list of its own. Each node's links are tested alone, and then the children that
/// are met from each first child are counted with the nodes that have no parent: exactly where each child is met, all c are counted.
#[tactic(auto, using(crate::proofs::Counted::by_count, crate::proofs::Counted::by_nodes))]
pub fn children(mem: &[u8], c: usize) -> bool
    requires { c < 65535 }
    ensures { Says (Children mem.now c) result }
{
    nodes(mem, c) && total(mem, c) >= c
}
