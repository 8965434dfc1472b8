// Document order: where the line after all of a node's own lines is.
ghost use Rattle.std.specs.Prelude.{◌≡◌};
ghost use Rattle.lent.specs.Mem.{up};
ghost use Rattle.dump.specs.Order.{own_line, level_down, extra_lines, first_inside, beside, line_beside, line_inside};

use crate::Cursor;
use lent::{Kind, Node};

pub fn own_line(n: u16, level: usize) -> Cursor
    ensures { result ≡ own_line n level }
{
    Cursor {
        node: n,
        level,
        part: 0,
    }
}

// One level down, up to the largest.
#[tactic(auto, unfolding(crate::specs::Order::level_down))]
fn level_down(level: usize) -> usize
    ensures { result ≡ level_down level }
{
    level.saturating_add(1).min(65535)
}

// How many lines a node has between its own and those of its children.
#[tactic(auto, unfolding(crate::specs::Order::extra_lines))]
pub fn extra_lines(nodes: &[u8], n: Node) -> usize
    ensures { result ≡ extra_lines nodes.now n.0 }
{
    let count = usize::from(lent::get(nodes, n, Node::COUNT));
    if lent::get(nodes, n, Node::TIE) == Node::NONE {
        return count;
    }
    count + 1
}

// The first child of a node's contents.
#[tactic(auto, unfolding(crate::specs::Order::first_inside))]
fn first_inside(nodes: &[u8], n: Node) -> u16
    ensures { result ≡ first_inside nodes.now n.0 }
{
    let contents = lent::get(nodes, n, Node::TIE);
    if contents == Node::NONE {
        return Node::NONE;
    }
    lent::get(nodes, Node(contents), Node::FIRST)
}

// After contents come their template's own children, after anything else its next sibling.
#[tactic(auto, unfolding(crate::specs::Order::beside))]
fn beside(nodes: &[u8], n: Node) -> u16
    ensures { result ≡ beside nodes.now n.0 }
{
    if lent::get(nodes, n, Node::KIND) == Kind::CONTENTS {
        let template = lent::get(nodes, n, Node::TIE);
        return lent::get(nodes, Node(template), Node::FIRST);
    }
    lent::get(nodes, n, Node::NEXT)
}

// From contents to their template, from anything else to its parent.
fn up(nodes: &[u8], n: Node) -> u16
    ensures { result ≡ up nodes.now n.0 }
{
    lent::wide::up(nodes, usize::from(n.0)) as u16
}

// Going up ends after k nodes, also where the links go round.
#[tactic(auto, using(crate::proofs::OrderLaws::past_spent, crate::proofs::OrderLaws::past_document, crate::proofs::OrderLaws::past_found, crate::proofs::OrderLaws::past_step))]
fn line_beside(nodes: &[u8], k: usize, n: u16, level: usize) -> Cursor
    ensures { result ≡ line_beside nodes.now k n level }
{
    let mut at = n;
    let mut high = level;
    for _ in 0..k {
        if at <= Node::DOCUMENT {
            return own_line(Node::NONE, 0);
        }
        let next = beside(nodes, Node(at));
        if next != Node::NONE {
            return own_line(next, high);
        }
        at = up(nodes, Node(at));
        high = high.saturating_sub(1);
    }
    own_line(Node::NONE, 0)
}

// The line after a node's own ones.
#[tactic(auto, unfolding(crate::specs::Order::line_inside))]
pub fn line_inside(nodes: &[u8], n: Node, level: usize) -> Cursor
    ensures { result ≡ line_inside nodes.now n.0 level }
{
    let i = first_inside(nodes, n);
    if i != Node::NONE {
        return own_line(i, level_down(level_down(level)));
    }
    let first = lent::get(nodes, n, Node::FIRST);
    if first != Node::NONE {
        return own_line(first, level_down(level));
    }
    line_beside(nodes, Node::MOST, n.0, level)
}
