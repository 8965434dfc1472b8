// Nodes, text pieces and attribute pairs are made.
ghost use Rattle.std.specs.Prelude.{◌≡◌};
ghost use Rattle.lent.specs.Mem.{put_field, field, END};
ghost use Rattle.makers.specs.Make.{bare_links, bare_rest, bare, tagged, tag_of, is_template, plain, tied, element, nodes_of, copied, document, comment, piece, text, piece_after, pair};

use lent::{Kind, Node, Pair, Piece};
use names::tag;

/// An element's namespace, name and mark, and its attributes: the first pair, and how many.
#[derive(Clone, Copy, Debug, PartialEq, Eq)]
pub struct Tag {
    pub space: u16,
    pub name: u16,
    pub mark: u16,
    pub start: u16,
    pub count: u16,
}

impl Tag {
    /// An HTML `template` has contents, a node of their own.
    #[tactic(auto, unfolding(crate::specs::Make::is_template))]
    pub fn is_template(self) -> bool
        ensures { result ≡ is_template self }
    {
        self.space == 0 && self.name == tag::TEMPLATE
    }

    /// How many nodes the element takes.
    #[tactic(auto, unfolding(crate::specs::Make::nodes_of))]
    pub fn nodes(self) -> usize
        ensures { result ≡ nodes_of self }
    {
        if self.is_template() { 2 } else { 1 }
    }
}

// Whatever the lent memory held of node n is overwritten: each field after the kind is 0.
#[tactic(auto, using(crate::proofs::Laws::cleared_none, crate::proofs::Laws::cleared_next, crate::proofs::Laws::cleared_all))]
fn make_bare(mem: &mut [u8], n: Node, kind: u16)
    ensures { mem.new ≡ bare mem.old n.0 kind }
{
    lent::put(mem, n, Node::KIND, kind);
    for field in Node::PARENT..=Node::END {
        lent::put(mem, n, field, 0);
    }
}

#[tactic(auto, unfolding(crate::specs::Make::tagged))]
fn put_tag(mem: &mut [u8], n: Node, t: Tag)
    ensures { mem.new ≡ tagged mem.old n.0 t }
{
    lent::put(mem, n, Node::SPACE, t.space);
    lent::put(mem, n, Node::NAME, t.name);
    lent::put(mem, n, Node::MARK, t.mark);
    lent::put(mem, n, Node::START, t.start);
    lent::put(mem, n, Node::COUNT, t.count);
}

/// The tag of an element.
#[tactic(auto, unfolding(crate::specs::Make::tag_of))]
pub fn tag_of(mem: &[u8], n: Node) -> Tag
    ensures { result ≡ tag_of mem.now n.0 }
{
    Tag {
        space: lent::get(mem, n, Node::SPACE),
        name: lent::get(mem, n, Node::NAME),
        mark: lent::get(mem, n, Node::MARK),
        start: lent::get(mem, n, Node::START),
        count: lent::get(mem, n, Node::COUNT),
    }
}

#[tactic(auto, unfolding(crate::specs::Make::plain))]
fn make_plain(mem: &mut [u8], n: Node, t: Tag)
    ensures { mem.new ≡ plain mem.old n.0 t }
{
    make_bare(mem, n, Kind::ELEMENT);
    put_tag(mem, n, t);
}

#[tactic(auto, unfolding(crate::specs::Make::tied))]
fn tie(mem: &mut [u8], n: Node, c: Node)
    ensures { mem.new ≡ tied mem.old n.0 c.0 }
{
    lent::put(mem, n, Node::TIE, c.0);
    lent::put(mem, c, Node::TIE, n.0);
}

/// Node n is an element; the contents of an HTML `template` are the node after it.
#[tactic(auto, unfolding(crate::specs::Make::element))]
pub fn make_element(mem: &mut [u8], n: Node, t: Tag)
    ensures { mem.new ≡ element mem.old n.0 t }
{
    make_plain(mem, n, t);
    if t.is_template() {
        let c = lent::room::next(usize::from(n.0));
        make_bare(mem, Node(c), Kind::CONTENTS);
        tie(mem, n, Node(c));
    }
}

/// c is an element with the tag of n: the stored attributes are shared.
#[tactic(auto, unfolding(crate::specs::Make::copied))]
pub fn copy_element(mem: &mut [u8], c: Node, n: Node)
    ensures { mem.new ≡ copied mem.old c.0 n.0 }
{
    let t = tag_of(mem, n);
    make_plain(mem, c, t);
}

/// Node n is the document.
#[tactic(auto, unfolding(crate::specs::Make::document))]
pub fn make_document(mem: &mut [u8], n: Node)
    ensures { mem.new ≡ document mem.old n.0 }
{
    make_bare(mem, n, Kind::DOCUMENT);
}

/// Node n is a comment of this text number.
#[tactic(auto, unfolding(crate::specs::Make::comment))]
pub fn make_comment(mem: &mut [u8], n: Node, number: u16)
    ensures { mem.new ≡ comment mem.old n.0 number }
{
    make_bare(mem, n, Kind::COMMENT);
    lent::put(mem, n, Node::NAME, number);
}

// Piece i holds this text number, and no piece comes after it.
#[tactic(auto, unfolding(crate::specs::Make::piece))]
fn make_piece(pieces: &mut [u8], i: u16, number: u16)
    ensures { pieces.new ≡ piece pieces.old i number }
{
    lent::put_piece(pieces, i, Piece::TEXT, number);
    lent::put_piece(pieces, i, Piece::NEXT, 0);
}

/// Node n is a text of one piece, i.
#[tactic(auto, unfolding(crate::specs::Make::text))]
pub fn make_text(mem: &mut [u8], pieces: &mut [u8], n: Node, i: u16, number: u16)
    ensures mem_after { mem.new ≡ text mem.old n.0 i }
    ensures pieces_after { pieces.new ≡ piece pieces.old i number }
{
    make_bare(mem, n, Kind::TEXT);
    lent::put(mem, n, Node::PIECE, i);
    lent::put(mem, n, Node::END, i);
    make_piece(pieces, i, number);
}

/// Piece i, new, becomes the last of text node n.
#[tactic(auto, unfolding(crate::specs::Make::piece_after))]
pub fn add_piece(mem: &mut [u8], pieces: &mut [u8], n: Node, i: u16, number: u16)
    ensures mem_after { mem.new ≡ put_field mem.old n.0 END i }
    ensures pieces_after { pieces.new ≡ piece_after pieces.old (field mem.old n.0 END) i number }
{
    let e = lent::get(mem, n, Node::END);
    make_piece(pieces, i, number);
    lent::put_piece(pieces, e, Piece::NEXT, i);
    lent::put(mem, n, Node::END, i);
}

/// Pair i is this name and this text number.
#[tactic(auto, unfolding(crate::specs::Make::pair))]
pub fn make_pair(pairs: &mut [u8], i: u16, name: u16, value: u16)
    ensures { pairs.new ≡ pair pairs.old i name value }
{
    lent::put_pair(pairs, i, Pair::NAME, name);
    lent::put_pair(pairs, i, Pair::VALUE, value);
}
