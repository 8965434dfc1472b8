#![tactic(auto)]
// The dump of the tree, in document order, one line at a time: a cursor says which line comes next.
// Every function is total: none asks anything of what is lent.
ghost use Rattle.std.specs.Prelude.{◌≡◌, min, length};
ghost use Rattle.dump.specs.Line.{indent, level_of, line_of};
ghost use Rattle.dump.specs.Order.{first_line, next_line};
ghost use Rattle.dump.specs.Written.{written, Grew};

use crate::page::Page;
use lent::Node;

mod order;
pub mod page;
mod thing;

/// A line: part 0 of a node is its own line, then come its attributes, counted from 1, and then the line `content` of a template.
/// Node 0 stands for no more lines. The level is the node's own.
#[derive(Clone, Copy, Debug, PartialEq, Eq)]
pub struct Cursor {
    pub node: u16,
    pub level: usize,
    pub part: usize,
}

/// The first line: the document has none of its own.
#[tactic(auto, unfolding(crate::specs::Order::first_line))]
pub fn start(nodes: &[u8]) -> Cursor
    ensures { result ≡ first_line nodes.now }
{
    let first = lent::get(nodes, Node::document(), Node::FIRST);
    order::own_line(first, 0)
}

// Attributes and `content` stand one level below their element. The level itself is not added to, since any level may be lent.
#[tactic(auto, unfolding(crate::specs::Line::level_of))]
fn margin(c: Cursor, page: &mut Page<'_>)
    ensures { Grew page.old page.new (indent (level_of c)) }
{
    page.indent(c.level);
    if c.part == 0 {
        return;
    }
    page.bytes(b"  ");
}

/// Writes the line at c to the front of out, as much of it as fits, and answers how many bytes those are. The rest of out stays.
/// 65,536 bytes hold any line at a level up to 4,095 (`line_length` of proofs/LengthLaws.antt).
pub fn line(nodes: &[u8], pieces: &[u8], pairs: &[u8], c: Cursor, out: &mut [u8]) -> usize
    ensures value { result ≡ min (length (line_of nodes.now pieces.now pairs.now c)) (length out.old) }
    ensures out_after { out.new ≡ written out.old 0 (line_of nodes.now pieces.now pairs.now c) }
{
    let mut page = Page::new(out);
    page.bytes(b"| ");
    margin(c, &mut page);
    thing::part(nodes, pieces, pairs, c, &mut page);
    page.byte(b'\n');
    page.at
}

/// The line after the one at c.
#[tactic(auto, unfolding(crate::specs::Order::next_line))]
pub fn next(nodes: &[u8], c: Cursor) -> Cursor
    ensures { result ≡ next_line nodes.now c }
{
    if c.node == Node::NONE {
        return order::own_line(Node::NONE, 0);
    }
    if c.part < order::extra_lines(nodes, Node(c.node)) {
        return Cursor {
            part: c.part + 1,
            ..c
        };
    }
    order::line_inside(nodes, Node(c.node), c.level)
}
