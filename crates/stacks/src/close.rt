// Calls 10, 11 and 12: an end tag, a p element and a cell are closed. The implied end tags that the standard generates first go no
// further than the element that is closed, so one cut pops all; `proofs/Pops.antt` shows it.
ghost use Rattle.std.specs.Prelude.{◌≡◌, ◌≤◌, ℕ, List, Option, length};
ghost use Rattle.names.specs.Set.{names_of};
ghost use Rattle.names.specs.Sets.{TableScope};
ghost use Rattle.places.specs.Places.{Whole, cut, places_of};
ghost use Rattle.records.specs.Refusal.{answer_number, value_or};
ghost use Rattle.state.specs.Builder.{SameLoans, full_of};
ghost use Rattle.state.specs.declared.Context.{Context};
ghost use Rattle.state.specs.Full.{full, result_of, with_stack};
ghost use Rattle.standard.specs.Stack.{named, is_cell, in_scope, bad_end_tag, closed_p, closed_cell, end_tag, ended};

use crate::walk;
use lent::Node;
use location::html;
use names::sets::Set;
use names::tag;
use records::refusal::Refusal;
use state::Core;
use state::builder::Builder;

// Where the HTML element with the name stands in the scope that the set ends.
fn named_in_scope_on(nodes: &[u8], h: &[u16], depth: usize, set: Set, name: u16) -> Option<usize>
    requires { depth ≤ length h.now }
    ensures { result ≡ in_scope (names_of set) (named nodes.now name) nodes.now (places_of h.now depth) }
{
    walk::in_scope_on(
        nodes,
        h,
        depth,
        set,
        |n| html::is_html(nodes, Node(n), name),
    )
}

// The same in a builder's stack.
fn named_in_scope(b: &Builder<'_>, set: Set, name: u16) -> Option<usize>
    requires { Whole (full_of b.now).stack }
    ensures { result ≡ in_scope (names_of set) (named (full_of b.now).nodes.mem name) (full_of b.now).nodes.mem (full_of b.now).stack }
{
    named_in_scope_on(b.nodes, b.stack, b.core.depth, set, name)
}

// Where the cell stands in table scope.
fn cell_in_scope_on(nodes: &[u8], h: &[u16], depth: usize) -> Option<usize>
    requires { depth ≤ length h.now }
    ensures { result ≡ in_scope TableScope (is_cell nodes.now) nodes.now (places_of h.now depth) }
{
    walk::in_scope_on(
        nodes,
        h,
        depth,
        Set::TableScope,
        |n| walk::is_cell(nodes, Node(n)),
    )
}

// The same in a builder's stack.
fn cell_in_scope(b: &Builder<'_>) -> Option<usize>
    requires { Whole (full_of b.now).stack }
    ensures { result ≡ in_scope TableScope (is_cell (full_of b.now).nodes.mem) (full_of b.now).nodes.mem (full_of b.now).stack }
{
    cell_in_scope_on(b.nodes, b.stack, b.core.depth)
}

/// Entry i of the stack is popped, and all that were opened after it.
#[tactic(auto, using(crate::proofs::StackLaws::stack_cut))]
pub fn pop_from(b: &mut Builder<'_>, i: usize)
    requires open { i ≤ (full_of b.old).stack.size }
    requires whole { Whole (full_of b.old).stack }
    ensures loans { SameLoans b.old b.new }
    ensures outcome { full_of b.new ≡ with_stack (full_of b.old) (cut (full_of b.old).stack i) }
{
    let size = places::cut_at(b.stack, b.core.depth, i);
    b.core = b.core.with_depth(size);
}

/// Call 11, "close a p element": 13.2.6.4.7, for a caller that has `nodes` to read alone. The first `core.depth` places of `h` are the stack;
/// what comes out is the record after the call. `NothingToDo` where no HTML p is in button scope.
// Its body stands beside the builder's: out of a `&mut Builder` the stack cannot be lent to be changed and the nodes to be read, in one call.
#[tactic(auto, using(crate::proofs::StackLaws::closed_p_none))]
pub fn close_p_element_on(h: &mut [u16], core: Core, nodes: &[u8]) -> Result<Core, Refusal>
    requires { core.depth ≤ length h.old }
    ensures { (l m p q : List ℕ) (x : Option Context) → result_of (answer_number result) (full h.new (value_or result core) x nodes.now l m p q) ≡ closed_p (full h.old core x nodes.now l m p q) }
{
    let depth = core.depth;
    match named_in_scope_on(nodes, h, depth, Set::ButtonScope, tag::P) {
        Some(p) => Ok(core.with_depth(places::cut_at(h, depth, p))),
        None => Err(Refusal::NothingToDo),
    }
}

/// Call 11, "close a p element": 13.2.6.4.7. `NothingToDo` where no HTML p is in button scope.
pub fn close_p_element(b: &mut Builder<'_>) -> Result<(), Refusal>
    requires { Whole (full_of b.old).stack }
    ensures loans { SameLoans b.old b.new }
    ensures outcome { result_of (answer_number result) (full_of b.new) ≡ closed_p (full_of b.old) }
{
    match named_in_scope(b, Set::ButtonScope, tag::P) {
        Some(p) => {
            pop_from(b, p);
            Ok(())
        }
        None => Err(Refusal::NothingToDo),
    }
}

/// Call 12, "close the cell": 13.2.6.4.15, for a caller that has `nodes` to read alone. The first `core.depth` places of `h` are the stack,
/// the first `core.counts.list` of `list` the list of active formatting elements; what comes out is the record after the call.
/// `NothingToDo` where no HTML td or th is in table scope.
// Its body stands beside the builder's: out of a `&mut Builder` the stack cannot be lent to be changed and the nodes to be read, in one call.
#[tactic(auto, using(crate::proofs::StackLaws::closed_cell_none), unfolding(state::specs::Fields::set_depth))]
pub fn close_the_cell_on(
    h: &mut [u16],
    core: Core,
    nodes: &[u8],
    list: &mut [u16],
) -> Result<Core, Refusal>
    requires stack { core.depth ≤ length h.old }
    requires list { core.counts.list ≤ length list.old }
    ensures { (m p q : List ℕ) (x : Option Context) → result_of (answer_number result) (full h.new (value_or result core) x nodes.now list.new m p q) ≡ closed_cell (full h.old core x nodes.now list.old m p q) }
{
    let depth = core.depth;
    match cell_in_scope_on(nodes, h, depth) {
        Some(cell) => {
            let popped = core.with_depth(places::cut_at(h, depth, cell));
            let count = small::cleared_to(list, popped.counts.list);
            Ok(popped.with_list(count))
        }
        None => Err(Refusal::NothingToDo),
    }
}

/// Call 12, "close the cell": 13.2.6.4.15. `NothingToDo` where no HTML td or th is in table scope.
pub fn close_the_cell(b: &mut Builder<'_>) -> Result<(), Refusal>
    requires whole { Whole (full_of b.old).stack }
    requires list { Whole (full_of b.old).list }
    ensures loans { SameLoans b.old b.new }
    ensures outcome { result_of (answer_number result) (full_of b.new) ≡ closed_cell (full_of b.old) }
{
    match cell_in_scope(b) {
        Some(cell) => {
            pop_from(b, cell);
            small::clear(b);
            Ok(())
        }
        None => Err(Refusal::NothingToDo),
    }
}

// The name is none that call 10 takes.
#[tactic(auto, unfolding(standard::specs::Stack::bad_end_tag))]
fn is_bad(name: u16) -> bool
    ensures { result ≡ bad_end_tag name }
{
    !names::is_name(name) || name == tag::HTML
}

/// "Any other end tag" in body, 13.2.6.4.7, for a name that call 10 takes, and for a caller that has `nodes` to read alone. The first
/// `core.depth` places of `h` are the stack; what comes out is the record after it. Where a special element is met first, nothing is done.
// Its body stands beside the builder's: out of a `&mut Builder` the stack cannot be lent to be changed and the nodes to be read, in one call.
pub fn end_tag_on(h: &mut [u16], core: Core, nodes: &[u8], name: u16) -> Core
    requires { core.depth ≤ length h.old }
    ensures { (l m p q : List ℕ) (x : Option Context) → full h.new result x nodes.now l m p q ≡ with_stack (full h.old core x nodes.now l m p q) (end_tag nodes.now (places_of h.old core.depth) name) }
{
    let depth = core.depth;
    match named_in_scope_on(nodes, h, depth, Set::Special, name) {
        Some(i) => core.with_depth(places::cut_at(h, depth, i)),
        None => core,
    }
}

/// "Any other end tag" in body, 13.2.6.4.7, for a name that call 10 takes. Where a special element is met first, nothing is done.
pub fn end_tag(b: &mut Builder<'_>, name: u16)
    requires { Whole (full_of b.old).stack }
    ensures loans { SameLoans b.old b.new }
    ensures outcome { full_of b.new ≡ with_stack (full_of b.old) (end_tag (full_of b.old).nodes.mem (full_of b.old).stack name) }
{
    if let Some(i) = named_in_scope(b, Set::Special, name) {
        pop_from(b, i);
    }
}

/// Call 10, an end tag in body: 13.2.6.4.7, "any other end tag", for a caller that has `nodes` to read alone. The first `core.depth` places
/// of `h` are the stack; what comes out is the record after the call. `Unknown` where the name is none, or html.
// Its body stands beside the builder's: out of a `&mut Builder` the stack cannot be lent to be changed and the nodes to be read, in one call.
#[tactic(auto, using(crate::proofs::StackLaws::ended_bad, crate::proofs::StackLaws::ended_done))]
pub fn process_end_tag_in_body_on(
    h: &mut [u16],
    core: Core,
    nodes: &[u8],
    name: u16,
) -> Result<Core, Refusal>
    requires { core.depth ≤ length h.old }
    ensures { (l m p q : List ℕ) (x : Option Context) → result_of (answer_number result) (full h.new (value_or result core) x nodes.now l m p q) ≡ ended (full h.old core x nodes.now l m p q) name }
{
    if is_bad(name) {
        return Err(Refusal::Unknown);
    }
    Ok(end_tag_on(h, core, nodes, name))
}

/// Call 10, an end tag in body: 13.2.6.4.7, "any other end tag". `Unknown` where the name is none, or html.
#[tactic(auto, using(crate::proofs::StackLaws::ended_bad, crate::proofs::StackLaws::ended_done))]
pub fn process_end_tag_in_body(b: &mut Builder<'_>, name: u16) -> Result<(), Refusal>
    requires { Whole (full_of b.old).stack }
    ensures loans { SameLoans b.old b.new }
    ensures outcome { result_of (answer_number result) (full_of b.new) ≡ ended (full_of b.old) name }
{
    if is_bad(name) {
        return Err(Refusal::Unknown);
    }
    end_tag(b, name);
    Ok(())
}
