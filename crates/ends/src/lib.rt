#![tactic(auto)]
// Whether going up from each node ends: each node gets its depth, and then each is compared with the one above it.
ghost use Rattle.std.specs.Prelude.{◌≡◌, ◌≤◌, ◌+◌};
ghost use Rattle.ends.specs.Say.{Given, Climbed, Assigned, Filled, Known};
ghost use Rattle.lent.specs.Mem.{up};
ghost use Rattle.theory.specs.Says.{Says};
ghost use Rattle.theory.specs.Depth.{Ends, InRange, depth};

// From x up to a node whose depth is known, or to none: that node, and after how many steps, c + 1 where there were more.
fn climb(mem: &[u8], dep: &[u16], c: usize, x: usize) -> (usize, usize)
    requires given { Given (up mem.now) dep.now c }
    requires x_le_c { x ≤ c }
    ensures { Climbed (up mem.now) dep.now c x result.0 result.1 }
{
    let mut y = x;
    for k in 0..=c {
        if y == 0 || dep[y] != 0 {
            return (y, k);
        }
        y = lent::wide::up(mem, y);
    }
    (y, c + 1)
}

// The k nodes from x on up get their depths, the last of them d + 1.
fn assign(mem: &[u8], dep: &mut [u16], c: usize, x: usize, k: usize, d: usize)
    requires given { Given (up mem.now) dep.old c }
    requires x_le_c { x ≤ c }
    requires k_bound { d + k ≤ c }
    requires depth_of_x { Ends (up mem.now) c → depth (up mem.now) c x ≡ k + d }
    ensures { Assigned (up mem.now) dep.old dep.new c x k }
{
    let mut z = x;
    for left in (0..k).rev() {
        if z == 0 {
            return;
        }
        dep[z] = (d + 1 + left) as u16;
        z = lent::wide::up(mem, z);
    }
}

// The depth of each node, or false where going up does not end.
fn fill(mem: &[u8], dep: &mut [u16], c: usize) -> bool
    requires { Given (up mem.now) dep.old c }
    ensures { Filled (up mem.now) dep.old dep.new c result }
{
    for x in 1..=c {
        let (y, k) = climb(mem, dep, c, x);
        let d = usize::from(dep[y]);
        if d + k > c {
            return false;
        }
        assign(mem, dep, c, x, k, d);
    }
    true
}

// Each parent has a lower number.
fn verify(mem: &[u8], dep: &[u16], c: usize) -> bool
    requires given { Given (up mem.now) dep.now c }
    requires known { Known dep.now c }
    ensures { Says (Ends (up mem.now) c) result }
{
    for n in 1..=c {
        let p = lent::wide::up(mem, n);
        if p != 0 && dep[p] >= dep[n] {
            return false;
        }
    }
    true
}

/// Whether going up from each of the nodes 1 to c always ends, where up is the parent, or of contents the template.
pub fn ends(mem: &[u8], c: usize) -> bool
    requires c_bound { c ≤ 4096 }
    requires in_range { InRange (up mem.now) c }
    ensures { Says (Ends (up mem.now) c) result }
{
    let mut dep = [0u16; 4097];
    fill(mem, &mut dep, c) && verify(mem, &dep, c)
}
