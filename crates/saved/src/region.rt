// The regions of numbered slots, word by word as they are saved: nodes of 14 fields and pieces of two from number 1 on, pairs of two
// from number 0 on.
use lent::{Node, Pair, Piece};

/// A lent region of numbered slots.
#[derive(Clone, Copy, Debug, PartialEq, Eq)]
pub enum Region {
    Nodes,
    Pieces,
    Pairs,
}

impl Region {
    /// The words of so many slots, and of no more than the region's largest size has.
    pub fn words(self, count: usize) -> usize {
        match self {
            Region::Nodes => count.min(Node::MOST) * 14,
            Region::Pieces => count.min(Piece::MOST) * 2,
            Region::Pairs => count.min(Pair::MOST) * 2,
        }
    }

    /// How many slots the lent memory has.
    pub fn slots(self, mem: &[u8]) -> usize {
        match self {
            Region::Nodes => lent::room::free_nodes(mem, 0),
            Region::Pieces => lent::room::free_pieces(mem, 0),
            Region::Pairs => lent::room::free_pairs(mem, 0),
        }
    }

    /// Word k of a region: 0 past the end.
    pub fn get(self, mem: &[u8], k: usize) -> u16 {
        match self {
            Region::Nodes => lent::get(mem, Node((k / 14 % Node::MOST + 1) as u16), k % 14),
            Region::Pieces => lent::get_piece(mem, (k / 2 % Piece::MOST + 1) as u16, k % 2),
            Region::Pairs => lent::get_pair(mem, (k / 2 % Pair::MOST) as u16, k % 2),
        }
    }

    /// Puts v at word k of a region. Past the end nothing changes.
    pub fn put(self, mem: &mut [u8], k: usize, v: u16) {
        match self {
            Region::Nodes => lent::put(mem, Node((k / 14 % Node::MOST + 1) as u16), k % 14, v),
            Region::Pieces => lent::put_piece(mem, (k / 2 % Piece::MOST + 1) as u16, k % 2, v),
            Region::Pairs => lent::put_pair(mem, (k / 2 % Pair::MOST) as u16, k % 2, v),
        }
    }
}
