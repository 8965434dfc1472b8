#![tactic(auto)]
// The pieces of the text nodes.
ghost use Rattle.std.specs.Prelude.{◌≡◌, ℕ, ◌≤◌, ◌<◌, ◌+◌, length, get_or};
ghost use Rattle.lent.specs.Mem.{field};
ghost use Rattle.theory.specs.Says.{Says};
ghost use Rattle.texts.specs.Texts.{after, Texts};
ghost use Rattle.texts.specs.Say.{Chained, Texted};
ghost use Rattle.texts.specs.Words.{Words};

// The pieces from x on, to the last, e: each is used, none is marked, and all are marked now. How many, one at least; `None` if it is not so.
fn chain(pieces: &[u8], seen: &mut [u8], u: usize, x: usize, e: usize) -> Option<usize>
    requires { u < length seen.old }
    ensures { Chained (after pieces.now) seen.old seen.new u x e result }
{
    let mut y = x;
    let mut last: usize = 0;
    let mut k: usize = 0;
    // A walk, not a count: the next piece is read.
    while y != 0 {
        if y > u || seen[y] != 0 {
            return None;
        }
        seen[y] = 1;
        last = y;
        y = lent::wide::piece(pieces, y, lent::Piece::NEXT);
        k += 1;
    }
    if k == 0 || last != e {
        return None;
    }
    Some(k)
}

// How many pieces node n has, if it is a text node, and else 0; `None` if they are not as they should be.
fn text(mem: &[u8], pieces: &[u8], seen: &mut [u8], u: usize, n: usize) -> Option<usize>
    requires { u < length seen.old }
    ensures { Texted mem.now pieces.now seen.old seen.new u n result }
{
    let kind = lent::wide::field(mem, n, lent::Node::KIND);
    if kind != usize::from(lent::Kind::TEXT) {
        return Some(0);
    }
    let x = lent::wide::field(mem, n, lent::Node::PIECE);
    let e = lent::wide::field(mem, n, lent::Node::END);
    chain(pieces, seen, u, x, e)
}

// Each piece is met once.
fn every(mem: &[u8], pieces: &[u8], seen: &mut [u8], c: usize, u: usize) -> bool
    requires u_in_bounds { u < length seen.old }
    requires unseen { (p : ℕ) → get_or seen.old p 0 ≡ 0 }
    ensures { Says (Texts mem.now pieces.now c u) result }
{
    let mut t: usize = 0;
    for n in 1..=c {
        let Some(k) = text(mem, pieces, seen, u, n) else {
            return false;
        };
        t += k;
    }
    t == u
}

/// Whether each of the pieces 1 to u lies in exactly one of the nodes 1 to c, once, and that is a text node; and each text node has one piece at least,
/// and no others.
pub fn texts(mem: &[u8], pieces: &[u8], c: usize, u: usize) -> bool
    requires u_bound { u ≤ 8192 }
    ensures { Says (Words mem.now pieces.now c u) result }
{
    let mut seen = [0u8; 8193];
    every(mem, pieces, &mut seen, c, u)
}
