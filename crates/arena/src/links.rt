// The links of the tree: append, insert before, detach, move all children.
ghost use Rattle.std.specs.Prelude.{◌≡◌};
ghost use Rattle.arena.specs.Links.{appended, detached, unlinked, inserted, reparented, moved, spliced};

use lent::Node;

/// c, which has no parent, becomes the last child of p.
#[tactic(auto, unfolding(crate::specs::Links::appended))]
pub fn append(mem: &mut [u8], p: Node, c: Node)
    ensures { mem.new ≡ appended mem.old p.0 c.0 }
{
    let last = lent::get(mem, p, Node::LAST);
    lent::put(mem, c, Node::PARENT, p.0);
    lent::put(mem, c, Node::PREV, last);
    lent::put(mem, c, Node::NEXT, Node::NONE);
    lent::put_link(mem, Node(last), Node::FIRST, p, Node::NEXT, c);
    lent::put(mem, p, Node::LAST, c.0);
}

// n, a child of p between prev and next, leaves its parent.
#[tactic(auto, unfolding(crate::specs::Links::unlinked))]
fn unlink(mem: &mut [u8], n: Node, p: Node, prev: Node, next: Node)
    ensures { mem.new ≡ unlinked mem.old n.0 p.0 prev.0 next.0 }
{
    lent::put_link(mem, prev, Node::FIRST, p, Node::NEXT, next);
    lent::put_link(mem, next, Node::LAST, p, Node::PREV, prev);
    lent::put(mem, n, Node::PARENT, Node::NONE);
    lent::put(mem, n, Node::PREV, Node::NONE);
    lent::put(mem, n, Node::NEXT, Node::NONE);
}

/// n leaves its parent, if it has one.
#[tactic(auto, unfolding(crate::specs::Links::detached))]
pub fn detach(mem: &mut [u8], n: Node)
    ensures { mem.new ≡ detached mem.old n.0 }
{
    let p = lent::get(mem, n, Node::PARENT);
    let prev = lent::get(mem, n, Node::PREV);
    let next = lent::get(mem, n, Node::NEXT);
    if p == Node::NONE {
        return;
    }
    unlink(mem, n, Node(p), Node(prev), Node(next));
}

/// c, which has no parent, comes right before s, which has one.
#[tactic(auto, unfolding(crate::specs::Links::inserted))]
pub fn insert_before(mem: &mut [u8], s: Node, c: Node)
    ensures { mem.new ≡ inserted mem.old s.0 c.0 }
{
    let p = lent::get(mem, s, Node::PARENT);
    let prev = lent::get(mem, s, Node::PREV);
    lent::put(mem, c, Node::PARENT, p);
    lent::put(mem, c, Node::PREV, prev);
    lent::put(mem, c, Node::NEXT, s.0);
    lent::put(mem, s, Node::PREV, c.0);
    lent::put_link(mem, Node(prev), Node::FIRST, Node(p), Node::NEXT, c);
}

// The parent of n and of the siblings after it becomes p: of k nodes at most.
#[tactic(auto, using(crate::proofs::Laws::reparented_none, crate::proofs::Laws::reparented_zero, crate::proofs::Laws::reparented_step))]
fn reparent(mem: &mut [u8], n: u16, p: Node, k: usize)
    ensures { mem.new ≡ reparented mem.old n p.0 k }
{
    let mut at = n;
    for _ in 0..k {
        if at == Node::NONE {
            return;
        }
        lent::put(mem, Node(at), Node::PARENT, p.0);
        at = lent::get(mem, Node(at), Node::NEXT);
    }
}

// The children of a, of which first and last are the ends, become the last children of b, whose last child is end.
#[tactic(auto, unfolding(crate::specs::Links::spliced))]
fn splice(mem: &mut [u8], a: Node, b: Node, first: Node, last: Node, end: Node)
    ensures { mem.new ≡ spliced mem.old a.0 b.0 first.0 last.0 end.0 }
{
    reparent(mem, first.0, b, Node::MOST);
    lent::put(mem, a, Node::FIRST, Node::NONE);
    lent::put(mem, a, Node::LAST, Node::NONE);
    lent::put(mem, first, Node::PREV, end.0);
    lent::put_link(mem, end, Node::FIRST, b, Node::NEXT, first);
    lent::put(mem, b, Node::LAST, last.0);
}

/// The children of a become the last children of b, in order.
#[tactic(auto, unfolding(crate::specs::Links::moved))]
pub fn move_children(mem: &mut [u8], a: Node, b: Node)
    ensures { mem.new ≡ moved mem.old a.0 b.0 }
{
    let first = lent::get(mem, a, Node::FIRST);
    let last = lent::get(mem, a, Node::LAST);
    let end = lent::get(mem, b, Node::LAST);
    if first == Node::NONE {
        return;
    }
    splice(mem, a, b, Node(first), Node(last), Node(end));
}
