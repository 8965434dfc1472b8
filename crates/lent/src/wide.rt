// The same fields by a number that is a usize: no slot has a number past 65,535, and its fields read as 0. The state check reads them as usize.
ghost use Rattle.std.specs.Prelude.{◌≡◌, ◌<◌};
ghost use Rattle.lent.specs.Mem.{NODES, PIECES, PAIRS, load, up};

use crate::{Node, Pair, Piece, load};

/// Field f of node n, 0 where n is not lent.
pub fn field(mem: &[u8], n: usize, f: usize) -> usize
    requires { f < 16 }
    ensures { (result ≡ load NODES mem.now n f) × (result < 65536) }
{
    usize::from(load::<{ Node::FIELDS }, { Node::SLOTS }>(mem, n, f))
}

/// Field f of piece n, 0 where n is not lent.
pub fn piece(mem: &[u8], n: usize, f: usize) -> usize
    requires { f < 2 }
    ensures { (result ≡ load PIECES mem.now n f) × (result < 65536) }
{
    usize::from(load::<{ Piece::FIELDS }, { Piece::SLOTS }>(mem, n, f))
}

/// Field f of pair n, 0 where n is not lent.
pub fn pair(mem: &[u8], n: usize, f: usize) -> usize
    requires { f < 2 }
    ensures { (result ≡ load PAIRS mem.now n f) × (result < 65536) }
{
    usize::from(pair_field(mem, n, f))
}

/// Field f of pair n, as it is stored: 0 where n is not lent.
pub fn pair_field(mem: &[u8], n: usize, f: usize) -> u16
    requires { f < 2 }
    ensures { result ≡ load PAIRS mem.now n f }
{
    load::<{ Pair::FIELDS }, { Pair::MOST }>(mem, n, f)
}

/// Up from n: from contents to their template, else to the parent.
#[tactic(auto, unfolding(crate::specs::Mem::up))]
pub fn up(mem: &[u8], n: usize) -> usize
    ensures { (result ≡ up mem.now n) × (result < 65536) }
{
    let k = field(mem, n, Node::KIND);
    if k == 5 {
        return field(mem, n, Node::TIE);
    }
    field(mem, n, Node::PARENT)
}
