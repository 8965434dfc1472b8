// What stands on a line: an element, a text, a comment, an attribute.
ghost use Rattle.dump.specs.Line.{space_of, element_of, comment_of, further, text_of, node_of, pair_of, part_of};
ghost use Rattle.dump.specs.Written.{Grew};

use crate::Cursor;
use crate::page::Page;
use lent::wide::pair_field;
use lent::{Kind, Node, Pair, Piece};
use names::Namespace;

#[tactic(auto, unfolding(crate::specs::Line::space_of, names::specs::Text::text))]
fn space(s: u16, page: &mut Page<'_>)
    ensures { Grew page.old page.new (space_of s) }
{
    match s {
        Namespace::SVG => page.bytes(b"svg "),
        Namespace::MATHML => page.bytes(b"math "),
        _ => {}
    }
}

fn element(nodes: &[u8], n: Node, page: &mut Page<'_>)
    ensures { Grew page.old page.new (element_of nodes.now n.0) }
{
    page.byte(b'<');
    space(lent::get(nodes, n, Node::SPACE), page);
    page.name(lent::get(nodes, n, Node::NAME));
    page.byte(b'>');
}

fn comment(nodes: &[u8], n: Node, page: &mut Page<'_>)
    ensures { Grew page.old page.new (comment_of nodes.now n.0) }
{
    page.bytes(b"<!-- ");
    page.text_number(lent::get(nodes, n, Node::NAME));
    page.bytes(b" -->");
}

// The pieces from i on, each with a space before it: k of them at most.
fn further(pieces: &[u8], k: usize, i: u16, page: &mut Page<'_>)
    ensures { Grew page.old page.new (further pieces.now k i) }
{
    let mut piece = i;
    for _ in 0..k {
        if piece == 0 {
            return;
        }
        page.byte(b' ');
        page.text_number(lent::get_piece(pieces, piece, Piece::TEXT));
        piece = lent::get_piece(pieces, piece, Piece::NEXT);
    }
}

// The pieces of a text, from its first one on.
fn text(pieces: &[u8], i: u16, page: &mut Page<'_>)
    ensures { Grew page.old page.new (text_of pieces.now i) }
{
    if i == 0 {
        return;
    }
    page.text_number(lent::get_piece(pieces, i, Piece::TEXT));
    let then = lent::get_piece(pieces, i, Piece::NEXT);
    further(pieces, Piece::MOST - 1, then, page);
}

// A node's own line.
#[tactic(auto, unfolding(crate::specs::Line::node_of))]
fn node(nodes: &[u8], pieces: &[u8], n: Node, page: &mut Page<'_>)
    ensures { Grew page.old page.new (node_of nodes.now pieces.now n.0) }
{
    match lent::get(nodes, n, Node::KIND) {
        Kind::ELEMENT => element(nodes, n, page),
        Kind::TEXT => text(pieces, lent::get(nodes, n, Node::PIECE), page),
        Kind::COMMENT => comment(nodes, n, page),
        _ => {}
    }
}

// An attribute's line.
fn pair(pairs: &[u8], i: usize, page: &mut Page<'_>)
    ensures { Grew page.old page.new (pair_of pairs.now i) }
{
    page.byte(b'@');
    page.number(pair_field(pairs, i, Pair::NAME));
    page.byte(b'=');
    page.text_number(pair_field(pairs, i, Pair::VALUE));
}

// What stands on the line at c: the node itself, an attribute of it, or `content`.
#[tactic(auto, unfolding(crate::specs::Line::part_of, names::specs::Text::text))]
pub fn part(nodes: &[u8], pieces: &[u8], pairs: &[u8], c: Cursor, page: &mut Page<'_>)
    ensures { Grew page.old page.new (part_of nodes.now pieces.now pairs.now c) }
{
    if c.part == 0 {
        return node(nodes, pieces, Node(c.node), page);
    }
    if c.part <= usize::from(lent::get(nodes, Node(c.node), Node::COUNT)) {
        let first = usize::from(lent::get(nodes, Node(c.node), Node::START));
        return pair(pairs, first + (c.part - 1), page);
    }
    page.bytes(b"content");
}
