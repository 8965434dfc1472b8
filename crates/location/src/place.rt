// The appropriate place for inserting a node (13.2.6.1), and what is done there.
ghost use Rattle.std.specs.Prelude.{◌≡◌, ◌<◌, ◌≤◌, length};
ghost use Rattle.places.specs.Places.{Whole, places_of, last_with, never};
ghost use Rattle.state.specs.Builder.{full_of};
ghost use Rattle.standard.specs.Place.{end_of, before_table, table_place, template_or_table, is_foster_stop, foster_place, appropriate_place, attached, sibling_before, text_before};
ghost use Rattle.standard.specs.Insertion.{usual_place};

use crate::html;
use lent::{Kind, Node};
use names::tag;
use standard::Place;
use state::builder::Builder;

// Inside a template means inside its contents.
#[tactic(auto, unfolding(standard::specs::Place::end_of))]
fn end_of(nodes: &[u8], n: Node) -> Place
    ensures { result ≡ end_of nodes.now n.0 }
{
    if html::is_html(nodes, n, tag::TEMPLATE) {
        return Place::End(Node(lent::get(nodes, n, Node::TIE)));
    }
    Place::End(n)
}

#[tactic(auto, unfolding(standard::specs::Place::before_table))]
fn before_table(nodes: &[u8], t: Node) -> Place
    ensures { result ≡ before_table nodes.now t.0 }
{
    let p = lent::get(nodes, t, Node::PARENT);
    if html::is_html(nodes, Node(p), tag::TEMPLATE) {
        return end_of(nodes, Node(p));
    }
    Place::Before(t)
}

// Entry i of the stack is the last table.
fn table_place(nodes: &[u8], h: &[u16], depth: usize, i: usize) -> Place
    requires open { i < depth }
    requires whole { depth ≤ length h.now }
    ensures { result ≡ table_place nodes.now (places_of h.now depth) i }
{
    let t = h[i];
    if lent::get(nodes, Node(t), Node::PARENT) == Node::NONE {
        let up = i.saturating_sub(1);
        return end_of(nodes, Node(h[up]));
    }
    before_table(nodes, Node(t))
}

// Entry i of the stack is the last template or table.
fn template_or_table(nodes: &[u8], h: &[u16], depth: usize, i: usize) -> Place
    requires open { i < depth }
    requires whole { depth ≤ length h.now }
    ensures { result ≡ template_or_table nodes.now (places_of h.now depth) i }
{
    let n = h[i];
    if html::is_html(nodes, Node(n), tag::TEMPLATE) {
        return end_of(nodes, Node(n));
    }
    table_place(nodes, h, depth, i)
}

#[tactic(auto, unfolding(standard::specs::Place::is_foster_stop))]
fn is_foster_stop(nodes: &[u8], n: Node) -> bool
    ensures { result ≡ is_foster_stop nodes.now n.0 }
{
    html::is_html(nodes, n, tag::TEMPLATE) || html::is_html(nodes, n, tag::TABLE)
}

// The last template or table of the stack.
#[tactic(auto, unfolding(places::specs::Places::last_with))]
fn foster_stop(nodes: &[u8], h: &[u16], depth: usize) -> Option<usize>
    requires { depth ≤ length h.now }
    ensures { result ≡ last_with (is_foster_stop nodes.now) never (places_of h.now depth) }
{
    places::last_with(&h[..depth], |n| is_foster_stop(nodes, Node(n)), |_| false)
}

#[tactic(auto, unfolding(standard::specs::Place::foster_place, standard::specs::Place::foster_at))]
fn foster_place(nodes: &[u8], h: &[u16], depth: usize) -> Place
    requires some { 0 < depth }
    requires whole { depth ≤ length h.now }
    ensures { result ≡ foster_place nodes.now (places_of h.now depth) }
{
    match foster_stop(nodes, h, depth) {
        Some(i) => template_or_table(nodes, h, depth, i),
        None => end_of(nodes, Node(h[0])),
    }
}

/// The appropriate place for inserting a node, for a caller that has `nodes` and the stack to read alone: `h`, of which the first `depth`
/// places are in use. `foster` is 1 where foster parenting is enabled, and `target` is the override target: 13.2.6.1, steps 2 and 3.
#[tactic(auto, unfolding(standard::specs::Place::appropriate_place))]
pub fn appropriate_place_on(
    nodes: &[u8],
    h: &[u16],
    depth: usize,
    foster: usize,
    target: Node,
) -> Place
    requires some { 0 < depth }
    requires whole { depth ≤ length h.now }
    ensures { result ≡ appropriate_place nodes.now (places_of h.now depth) foster target.0 }
{
    if foster != 1 {
        return end_of(nodes, target);
    }
    if html::is_foster_target(nodes, target) {
        return foster_place(nodes, h, depth);
    }
    end_of(nodes, target)
}

/// The appropriate place for inserting a node, with `target` as the override target: 13.2.6.1, steps 2 and 3.
pub fn appropriate_place_for_insertion(b: &Builder<'_>, target: Node) -> Place
    requires some { 0 < (full_of b.now).stack.size }
    requires whole { Whole (full_of b.now).stack }
    ensures { result ≡ appropriate_place (full_of b.now).nodes.mem (full_of b.now).stack (full_of b.now).flags.foster target.0 }
{
    appropriate_place_on(b.nodes, b.stack, b.core.depth, b.core.flags.foster, target)
}

/// The appropriate place with the current node as the target: what a call without a target of its own takes.
#[tactic(auto, using(crate::proofs::Laws::usual_is))]
pub fn usual_place(b: &Builder<'_>) -> Place
    requires some { 0 < (full_of b.now).stack.size }
    requires whole { Whole (full_of b.now).stack }
    ensures { result ≡ usual_place (full_of b.now) }
{
    appropriate_place_for_insertion(b, Node(b.stack[b.core.depth - 1]))
}

/// n, which has no parent, is put there.
#[tactic(auto, unfolding(standard::specs::Place::attached))]
pub fn attach(nodes: &mut [u8], p: Place, n: Node)
    ensures { nodes.new ≡ attached nodes.old p n.0 }
{
    match p {
        Place::End(q) => arena::links::append(nodes, q, n),
        Place::Before(s) => arena::links::insert_before(nodes, s, n),
    }
}

#[tactic(auto, unfolding(standard::specs::Place::sibling_before))]
fn sibling_before(nodes: &[u8], p: Place) -> u16
    ensures { result ≡ sibling_before nodes.now p }
{
    match p {
        Place::End(q) => lent::get(nodes, q, Node::LAST),
        Place::Before(s) => lent::get(nodes, s, Node::PREV),
    }
}

/// The text node directly before the place, 0 if there is none.
#[tactic(auto, unfolding(standard::specs::Place::text_before))]
pub fn text_before(nodes: &[u8], p: Place) -> u16
    ensures { result ≡ text_before nodes.now p }
{
    let b = sibling_before(nodes, p);
    if b == Node::NONE {
        return Node::NONE;
    }
    if lent::get(nodes, Node(b), Node::KIND) == Kind::TEXT {
        return b;
    }
    Node::NONE
}
