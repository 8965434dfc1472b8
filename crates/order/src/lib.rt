#![tactic(auto)]
// No stack entry is above an earlier one, and none is there twice.
ghost use Rattle.std.specs.Prelude.{ℕ, ◌≤◌, ◌<◌, ◌+◌, length, take, get_or};
ghost use Rattle.lent.specs.Mem.{up};
ghost use Rattle.theory.specs.Says.{Says};
ghost use Rattle.theory.specs.Depth.{Ends, InRange};
ghost use Rattle.theory.specs.Natural.{Natural};
ghost use Rattle.theory.specs.Nearest.{Blank};
ghost use Rattle.order.specs.Say.{Given, Found, Marked, Put, Ordered};

// One more than the place of the nearest open node from x on up, 1 if there is none: what the memo holds of a node.
fn nearest(mem: &[u8], near: &[u16], c: usize, x: usize) -> u16
    requires given { Given (up mem.now) near.now c }
    requires x_le_c { x ≤ c }
    ensures { Found (up mem.now) near.now c x result }
{
    let mut y = x;
    // A walk, not a count: the next node is read.
    while y != 0 {
        if near[y] != 0 {
            return near[y];
        }
        y = lent::wide::up(mem, y);
    }
    1
}

// Each node from x on up, to the first that is known, gets v.
fn mark(mem: &[u8], near: &mut [u16], c: usize, x: usize, v: u16)
    requires given { Given (up mem.now) near.old c }
    requires x_le_c { x ≤ c }
    ensures { Marked (up mem.now) near.old near.new c x v }
{
    let mut z = x;
    // A walk, not a count: the next node is read.
    while z != 0 && near[z] == 0 {
        near[z] = v;
        z = lent::wide::up(mem, z);
    }
}

// The place of each open node, two more than it; false where one is no used node or is there twice.
fn places(entries: &[u16], near: &mut [u16], c: usize) -> bool
    requires few { length entries.now ≤ 512 }
    requires c_bound { c ≤ 4096 }
    requires c_in_bounds { c < length near.old }
    requires blank { Blank near.old }
    ensures { Put entries.now near.old near.new (length entries.now) c result }
{
    for (i, &node) in entries.iter().enumerate() {
        let x = usize::from(node);
        if x == 0 || x > c || near[x] != 0 {
            return false;
        }
        near[x] = (i + 2) as u16;
    }
    true
}

// Each open node's parent is near an earlier one, or none.
fn ordered(mem: &[u8], entries: &[u16], near: &mut [u16], c: usize) -> bool
    requires given { Given (up mem.now) near.old c }
    requires entries_in_range { (j : ℕ) → j < length entries.now → (0 < get_or entries.now j 0) × (get_or entries.now j 0 ≤ c) }
    ensures { Ordered (up mem.now) entries.now near.old (length entries.now) c result }
{
    for (i, &x) in entries.iter().enumerate() {
        let p = lent::wide::up(mem, usize::from(x));
        let v = nearest(mem, near, c, p);
        if usize::from(v) > i + 1 {
            return false;
        }
        mark(mem, near, c, p, v);
    }
    true
}

/// Whether the first `depth` of the stack, the open elements, are distinct used nodes, none above an earlier one: the nodes 1 to c are used, and going up
/// from each of them ends.
pub fn order(mem: &[u8], stack: &[u16], depth: usize, c: usize) -> bool
    requires depth_in_bounds { depth ≤ length stack.now }
    requires depth_bound { depth ≤ 512 }
    requires c_bound { c ≤ 4096 }
    requires in_range { InRange (up mem.now) c }
    requires ends { Ends (up mem.now) c }
    ensures { Says (Natural (up mem.now) c (take depth stack.now)) result }
{
    let mut near = [0u16; 4097];
    let entries = &stack[..depth];
    places(entries, &mut near, c) && ordered(mem, entries, &mut near, c)
}
