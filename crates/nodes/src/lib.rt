#![tactic(auto)]
// What a node must be, by its kind.
ghost use Rattle.std.specs.Prelude.{◌≤◌, ◌<◌, ◌+◌, ◌^◌};
ghost use Rattle.lent.specs.Mem.{field, SPACE, NAME, MARK};
ghost use Rattle.theory.specs.Says.{Says};
ghost use Rattle.nodes.specs.Nodes.{Template, Clear, Partner, Absent, Distinct, Span, Tag, Ties, Rooted, Element, Contents, Document, Comment, Kind};

pub mod number;

use crate::number::SPARE;
use lent::{Node, Pair, wide};
use names::Namespace;

// Whether x is an HTML `template`.
fn is_template(mem: &[u8], x: usize) -> bool
    ensures { Says (Template mem.now x) result }
{
    wide::field(mem, x, Node::KIND) == usize::from(lent::Kind::ELEMENT)
        && wide::field(mem, x, Node::SPACE) == usize::from(Namespace::HTML)
        && wide::field(mem, x, Node::NAME) == usize::from(names::tag::TEMPLATE)
}

// The fields of x from a on, below b, are 0.
fn clear(mem: &[u8], x: usize, a: usize, b: usize) -> bool
    requires { b ≤ 16 }
    ensures { Says (Clear mem.now x a b) result }
{
    for f in a..b {
        if wide::field(mem, x, f) != 0 {
            return false;
        }
    }
    true
}

// x is tied to a used node, and that one to x.
fn partner(mem: &[u8], c: usize, x: usize) -> bool
    ensures { Says (Partner mem.now c x) result }
{
    let y = wide::field(mem, x, Node::TIE);
    y != 0 && y <= c && wide::field(mem, y, Node::TIE) == x
}

// No pair before the i-th from s on has its name.
fn absent(pairs: &[u8], s: usize, i: usize) -> bool
    requires { s + i < 2 ^ 64 }
    ensures { Says (Absent pairs.now s i) result }
{
    let n = wide::pair_field(pairs, s + i, Pair::NAME);
    for j in 0..i {
        if wide::pair_field(pairs, s + j, Pair::NAME) == n {
            return false;
        }
    }
    true
}

// No two of the k pairs from s on have the same name.
fn distinct(pairs: &[u8], s: usize, k: usize) -> bool
    requires { s + k < 2 ^ 64 }
    ensures { Says (Distinct pairs.now s k) result }
{
    for i in 0..k {
        if !absent(pairs, s, i) {
            return false;
        }
    }
    true
}

// The attributes of x: at most 16, all of them used pairs, no name twice.
fn span(mem: &[u8], pairs: &[u8], u: usize, x: usize) -> bool
    ensures { Says (Span mem.now pairs.now u x) result }
{
    let s = wide::field(mem, x, Node::START);
    let k = wide::field(mem, x, Node::COUNT);
    k <= Pair::EACH && s + k <= u && distinct(pairs, s, k)
}

/// Whether an element, or the fragment context, may have this namespace, name and mark: one of the three namespaces, a name of
/// the table's or the host's, and a mark on a MathML `annotation-xml` alone.
pub fn tag(space: usize, name: usize, mark: usize) -> bool
    requires { name < 65536 }
    ensures { Says (Tag space name mark) result }
{
    space < usize::from(Namespace::LIMIT)
        && names::is_name(name as u16)
        && (mark == 0
            || mark == 1
                && space == usize::from(Namespace::MATHML)
                && name == usize::from(names::tag::ANNOTATION_XML))
}

// The namespace, the name and the mark of x.
fn tagged(mem: &[u8], x: usize) -> bool
    ensures { Says (Tag (field mem.now x SPACE) (field mem.now x NAME) (field mem.now x MARK)) result }
{
    tag(
        wide::field(mem, x, Node::SPACE),
        wide::field(mem, x, Node::NAME),
        wide::field(mem, x, Node::MARK),
    )
}

// An HTML `template` has contents of its own, and any other element has none.
fn ties(mem: &[u8], c: usize, x: usize) -> bool
    ensures { Says (Ties mem.now c x) result }
{
    let y = wide::field(mem, x, Node::TIE);
    if !is_template(mem, x) {
        return y == 0;
    }
    partner(mem, c, x) && wide::field(mem, y, Node::KIND) == usize::from(lent::Kind::CONTENTS)
}

// The document's one element child is the root.
fn rooted(mem: &[u8], x: usize) -> bool
    ensures { Says (Rooted mem.now x) result }
{
    wide::field(mem, x, Node::PARENT) != usize::from(Node::DOCUMENT) || x == usize::from(Node::ROOT)
}

// The rules of an element.
fn element(mem: &[u8], pairs: &[u8], c: usize, u: usize, x: usize) -> bool
    ensures { Says (Element mem.now pairs.now c u x) result }
{
    tagged(mem, x)
        && span(mem, pairs, u, x)
        && ties(mem, c, x)
        && rooted(mem, x)
        && clear(mem, x, Node::PIECE, SPARE)
}

// The rules of contents.
fn contents(mem: &[u8], c: usize, x: usize) -> bool
    ensures { Says (Contents mem.now c x) result }
{
    wide::field(mem, x, Node::PARENT) == 0
        && partner(mem, c, x)
        && is_template(mem, wide::field(mem, x, Node::TIE))
        && clear(mem, x, Node::SPACE, SPARE)
}

// The rules of the document.
fn document(mem: &[u8], x: usize) -> bool
    ensures { Says (Document mem.now x) result }
{
    x == usize::from(Node::DOCUMENT)
        && wide::field(mem, x, Node::PARENT) == 0
        && clear(mem, x, Node::TIE, SPARE)
}

// The rules of a comment.
fn comment(mem: &[u8], x: usize) -> bool
    ensures { Says (Comment mem.now x) result }
{
    clear(mem, x, Node::FIRST, Node::NAME) && clear(mem, x, Node::MARK, SPARE)
}

/// The rules of node x by its kind, where c nodes and u pairs are used. The answer is no where its kind is none of the five.
pub fn kind(mem: &[u8], pairs: &[u8], c: usize, u: usize, x: usize) -> bool
    ensures { Says (Kind mem.now pairs.now c u x) result }
{
    match wide::field(mem, x, Node::KIND) as u16 {
        lent::Kind::DOCUMENT => document(mem, x),
        lent::Kind::ELEMENT => element(mem, pairs, c, u, x),
        lent::Kind::TEXT => clear(mem, x, Node::FIRST, Node::PIECE),
        lent::Kind::COMMENT => comment(mem, x),
        lent::Kind::CONTENTS => contents(mem, c, x),
        _ => false,
    }
}
