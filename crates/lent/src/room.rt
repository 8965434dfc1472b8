// How much of what is lent is still free, and the number that comes next.
ghost use Rattle.std.specs.Prelude.{◌≡◌, ◌≢◌, ◌+◌, ◌*◌, ◌/◌, ◌<◌, ◌≤◌, min, length, IfSome, IfNone, OnSome};
ghost use Rattle.lent.specs.Room.{free_nodes, free_pieces, free_pairs, fresh};

use crate::{Node, Pair, Piece, slots};

/// How many nodes are free when the first `used` are used. Slot 0 is none.
#[tactic(auto, unfolding(crate::specs::Room::free_nodes, crate::specs::Mem::slots))]
pub fn free_nodes(mem: &[u8], used: usize) -> usize
    ensures { result ≡ free_nodes mem.now used }
{
    slots::<{ Node::FIELDS }, { Node::SLOTS }>(mem)
        .saturating_sub(1)
        .saturating_sub(used)
}

/// How many text pieces are free when the first `used` are used. Slot 0 is none.
#[tactic(auto, unfolding(crate::specs::Room::free_pieces, crate::specs::Mem::slots))]
pub fn free_pieces(mem: &[u8], used: usize) -> usize
    ensures { result ≡ free_pieces mem.now used }
{
    slots::<{ Piece::FIELDS }, { Piece::SLOTS }>(mem)
        .saturating_sub(1)
        .saturating_sub(used)
}

/// How many attribute pairs are free when the first `used` are used.
#[tactic(auto, unfolding(crate::specs::Room::free_pairs, crate::specs::Mem::slots))]
pub fn free_pairs(mem: &[u8], used: usize) -> usize
    ensures { result ≡ free_pairs mem.now used }
{
    slots::<{ Pair::FIELDS }, { Pair::MOST }>(mem).saturating_sub(used)
}

/// The lowest free number of a node or a piece, when the first `used` are used: 0 where no number is left.
#[tactic(auto, unfolding(crate::specs::Room::fresh))]
pub fn next(used: usize) -> u16
    ensures { result ≡ fresh used }
{
    if used < 65535 {
        return (used + 1) as u16;
    }
    0
}

// The lowest free number of a region of slots of WIDTH fields, MOST of them at most, when the first `used` are used. None where no slot is left for
// it. The slot is tested as each of its fields is: where fields are written next, the compiler needs no further test.
#[tactic(auto, using(crate::proofs::Lowest::fresh_is))]
fn next_slot<const WIDTH: usize, const MOST: usize>(mem: &[u8], used: usize) -> Option<u16>
    requires some { 0 < WIDTH }
    requires few { WIDTH ≤ 16 }
    requires numbered { MOST ≤ 65535 }
    ensures number { IfSome result (λ n. n ≡ used + 1) }
    ensures free { OnSome result (used + 1 < min (length mem.now / (WIDTH * 2)) MOST) }
    ensures full { IfNone result (min (length mem.now / (WIDTH * 2)) MOST ≤ used + 1) }
{
    if MOST <= used {
        return None;
    }
    let n = next(used);
    if usize::from(n) < slots::<WIDTH, MOST>(mem) {
        return Some(n);
    }
    None
}

/// The lowest free number of a node, when the first `used` nodes are used. None where no node is free.
#[tactic(auto, unfolding(crate::specs::Room::free_nodes, crate::specs::Mem::slots))]
pub fn next_node(mem: &[u8], used: usize) -> Option<u16>
    ensures number { IfSome result (λ n. n ≡ used + 1) }
    ensures free { OnSome result (free_nodes mem.now used ≢ 0) }
    ensures full { IfNone result (free_nodes mem.now used ≡ 0) }
{
    next_slot::<{ Node::FIELDS }, { Node::SLOTS }>(mem, used)
}

/// The lowest free number of a text piece, when the first `used` pieces are used. None where no piece is free.
#[tactic(auto, unfolding(crate::specs::Room::free_pieces, crate::specs::Mem::slots))]
pub fn next_piece(mem: &[u8], used: usize) -> Option<u16>
    ensures number { IfSome result (λ n. n ≡ used + 1) }
    ensures free { OnSome result (free_pieces mem.now used ≢ 0) }
    ensures full { IfNone result (free_pieces mem.now used ≡ 0) }
{
    next_slot::<{ Piece::FIELDS }, { Piece::SLOTS }>(mem, used)
}
