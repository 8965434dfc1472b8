#![tactic(auto)]
// Lent bytes as numbered slots of 16-bit fields, low byte first: nodes, text pieces and attribute pairs.
// A slot past the end of what is lent, or past the largest size, reads as 0, and a store there does nothing.
ghost use Rattle.std.specs.Prelude.{◌≡◌, ◌↔◌, ◌+◌, ◌*◌, ◌/◌, ◌<◌, ◌≤◌, min, length, IsTrue};
ghost use Rattle.lent.specs.Mem.{Region, NODES, PIECES, PAIRS, width, most, get16, put16, load, store, link};

/// The number of a node: 0 is none. Any number may come: one past the nodes has fields that read as 0.
#[derive(Clone, Copy, Debug, PartialEq, Eq)]
pub struct Node(pub u16);

impl Node {
    pub const NONE: u16 = 0;

    pub const DOCUMENT: u16 = 1;

    pub const ROOT: u16 = 2;

    /// No node has this number: in the formatting list it stands for a marker.
    pub const MARKER: u16 = 65535;

    /// The largest number of nodes.
    pub const MOST: usize = 4096;

    // How many slots hold them, of how many fields each: slot 0 is none.
    const SLOTS: usize = Node::MOST + 1;

    const FIELDS: usize = 16;

    // The fields of a node.
    pub const KIND: usize = 0;

    pub const PARENT: usize = 1;

    pub const PREV: usize = 2;

    pub const NEXT: usize = 3;

    pub const FIRST: usize = 4;

    pub const LAST: usize = 5;

    pub const TIE: usize = 6;

    pub const SPACE: usize = 7;

    pub const NAME: usize = 8;

    pub const MARK: usize = 9;

    pub const START: usize = 10;

    pub const COUNT: usize = 11;

    pub const PIECE: usize = 12;

    pub const END: usize = 13;

    /// No node.
    pub fn none() -> Node
        ensures { result.0 ≡ 0 }
    {
        Node(Node::NONE)
    }

    /// The document.
    pub fn document() -> Node
        ensures { result.0 ≡ 1 }
    {
        Node(Node::DOCUMENT)
    }

    /// The root element.
    pub fn root() -> Node
        ensures { result.0 ≡ 2 }
    {
        Node(Node::ROOT)
    }

    /// The node of this number.
    pub fn new(n: u16) -> Node
        ensures { result.0 ≡ n }
    {
        Node(n)
    }

    /// It is no node.
    pub fn is_none(self) -> bool
        ensures { IsTrue result ↔ (self.0 ≡ 0) }
    {
        self.0 == Node::NONE
    }
}

impl From<u16> for Node {
    fn from(n: u16) -> Node
        ensures { result.0 ≡ n }
    {
        Node(n)
    }
}

/// What a node is.
#[derive(Clone, Copy, Debug, PartialEq, Eq)]
pub struct Kind(pub u16);

impl Kind {
    pub const DOCUMENT: u16 = 1;

    pub const ELEMENT: u16 = 2;

    pub const TEXT: u16 = 3;

    pub const COMMENT: u16 = 4;

    pub const CONTENTS: u16 = 5;
}

/// A piece of a text node: its text number, and the piece after it. Piece 0 is none.
#[derive(Clone, Copy, Debug, PartialEq, Eq)]
pub struct Piece(pub u16);

impl Piece {
    pub const MOST: usize = 8192;

    const SLOTS: usize = Piece::MOST + 1;

    const FIELDS: usize = 2;

    pub const TEXT: usize = 0;

    pub const NEXT: usize = 1;
}

/// An attribute: its name and its text number. Pairs are numbered from 0.
#[derive(Clone, Copy, Debug, PartialEq, Eq)]
pub struct Pair(pub u16);

impl Pair {
    pub const MOST: usize = 4096;

    /// The largest number of attributes of one element.
    pub const EACH: usize = 16;

    const FIELDS: usize = 2;

    pub const NAME: usize = 0;

    pub const VALUE: usize = 1;
}

// The 16-bit number at byte i.
#[tactic(auto, unfolding(crate::specs::Mem::get16))]
fn get16(mem: &[u8], i: usize) -> u16
    requires { i + 1 < length mem.now }
    ensures { result ≡ get16 mem.now i }
{
    u16::from_le_bytes([mem[i], mem[i + 1]])
}

#[tactic(auto, unfolding(crate::specs::Mem::put16))]
fn put16(mem: &mut [u8], i: usize, v: u16)
    requires { i + 1 < length mem.old }
    ensures { mem.new ≡ put16 mem.old i v }
{
    let [low, high] = v.to_le_bytes();
    mem[i] = low;
    mem[i + 1] = high;
}

// How many slots of WIDTH fields the lent bytes hold, MOST of them at most.
fn slots<const WIDTH: usize, const MOST: usize>(mem: &[u8]) -> usize
    requires some { 0 < WIDTH }
    requires few { WIDTH ≤ 16 }
    ensures { result ≡ min (length mem.now / (WIDTH * 2)) MOST }
{
    (mem.len() / (WIDTH * 2)).min(MOST)
}

// Field f of slot i, in bytes lent as slots of WIDTH fields, MOST of them. One test serves every field of a slot.
#[tactic(auto, using(crate::proofs::Kit::fits, crate::proofs::Kit::load_below, crate::proofs::Kit::load_past))]
fn load<const WIDTH: usize, const MOST: usize>(mem: &[u8], i: usize, f: usize) -> u16
    requires field { f < WIDTH }
    requires few { WIDTH ≤ 16 }
    ensures { (r : Region) → width r ≡ WIDTH → most r ≡ MOST → result ≡ load r mem.now i f }
{
    if i < slots::<WIDTH, MOST>(mem) {
        return get16(mem, (i * WIDTH + f) * 2);
    }
    0
}

#[tactic(auto, using(crate::proofs::Kit::fits, crate::proofs::Kit::store_below, crate::proofs::Kit::store_past))]
fn store<const WIDTH: usize, const MOST: usize>(mem: &mut [u8], i: usize, f: usize, v: u16)
    requires field { f < WIDTH }
    requires few { WIDTH ≤ 16 }
    ensures { (r : Region) → width r ≡ WIDTH → most r ≡ MOST → mem.new ≡ store r mem.old i f v }
{
    if i < slots::<WIDTH, MOST>(mem) {
        put16(mem, (i * WIDTH + f) * 2, v);
    }
}

/// Field f of node n, 0 where n is not lent.
pub fn get(mem: &[u8], n: Node, f: usize) -> u16
    requires { f < 16 }
    ensures { result ≡ load NODES mem.now n.0 f }
{
    load::<{ Node::FIELDS }, { Node::SLOTS }>(mem, usize::from(n.0), f)
}

/// Field f of node n becomes v; nothing changes where n is not lent.
pub fn put(mem: &mut [u8], n: Node, f: usize, v: u16)
    requires { f < 16 }
    ensures { mem.new ≡ store NODES mem.old n.0 f v }
{
    store::<{ Node::FIELDS }, { Node::SLOTS }>(mem, usize::from(n.0), f, v);
}

/// Sets a link that may be none: where n is none the field f of p, else the field g of n.
#[tactic(auto, using(crate::proofs::Kit::link_none, crate::proofs::Kit::link_some))]
pub fn put_link(mem: &mut [u8], n: Node, f: usize, p: Node, g: usize, v: Node)
    requires f_bound { f < 16 }
    requires g_bound { g < 16 }
    ensures { mem.new ≡ link mem.old n.0 f p.0 g v.0 }
{
    if n.is_none() {
        put(mem, p, f, v.0);
    } else {
        put(mem, n, g, v.0);
    }
}

/// Field f of piece n, 0 where n is not lent.
pub fn get_piece(mem: &[u8], n: u16, f: usize) -> u16
    requires { f < 2 }
    ensures { result ≡ load PIECES mem.now n f }
{
    load::<{ Piece::FIELDS }, { Piece::SLOTS }>(mem, usize::from(n), f)
}

/// Field f of piece n becomes v; nothing changes where n is not lent.
pub fn put_piece(mem: &mut [u8], n: u16, f: usize, v: u16)
    requires { f < 2 }
    ensures { mem.new ≡ store PIECES mem.old n f v }
{
    store::<{ Piece::FIELDS }, { Piece::SLOTS }>(mem, usize::from(n), f, v);
}

/// Field f of pair n, 0 where n is not lent.
pub fn get_pair(mem: &[u8], n: u16, f: usize) -> u16
    requires { f < 2 }
    ensures { result ≡ load PAIRS mem.now n f }
{
    load::<{ Pair::FIELDS }, { Pair::MOST }>(mem, usize::from(n), f)
}

/// Field f of pair n becomes v; nothing changes where n is not lent.
pub fn put_pair(mem: &mut [u8], n: u16, f: usize, v: u16)
    requires { f < 2 }
    ensures { mem.new ≡ store PAIRS mem.old n f v }
{
    store::<{ Pair::FIELDS }, { Pair::MOST }>(mem, usize::from(n), f, v);
}

pub mod room;
pub mod wide;
