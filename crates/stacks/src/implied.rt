// Call 13: generate implied end tags (13.2.6.3).
ghost use Rattle.std.specs.Prelude.{◌≡◌, ◌≤◌, ℕ, List, Option, length, not};
ghost use Rattle.names.specs.Set.{names_of};
ghost use Rattle.places.specs.Places.{Whole, last_with, never, places_of};
ghost use Rattle.records.specs.Refusal.{answer_number, value_or};
ghost use Rattle.state.specs.Builder.{SameLoans, full_of};
ghost use Rattle.state.specs.declared.Context.{Context};
ghost use Rattle.state.specs.Full.{full, result_of, with_stack};
ghost use Rattle.standard.specs.Stack.{is_implied, implied_ends, implied_set, bad_implied};
ghost use Rattle.standard.specs.Stack as def;

use crate::{close, walk};
use lent::Node;
use names::Name;
use names::sets::Set;
use records::refusal::Refusal;
use state::Core;
use state::builder::Builder;

// n has its end tag implied: it is of the set, and has not the excepted name.
#[tactic(auto, unfolding(standard::specs::Stack::is_implied))]
fn is_implied(nodes: &[u8], n: Node, set: Set, except: u16) -> bool
    ensures { result ≡ is_implied (names_of set) except nodes.now n.0 }
{
    walk::is_of(nodes, n, set) && lent::get(nodes, n, Node::NAME) != except
}

// The last entry whose end tag is not implied.
#[tactic(auto, unfolding(places::specs::Places::last_with))]
fn last_kept_on(nodes: &[u8], h: &[u16], depth: usize, set: Set, except: u16) -> Option<usize>
    requires { depth ≤ length h.now }
    ensures { result ≡ last_with (λ n. not (is_implied (names_of set) except nodes.now n)) never (places_of h.now depth) }
{
    places::last_with(
        &h[..depth],
        |n| !is_implied(nodes, Node(n), set, except),
        |_| false,
    )
}

// The same in a builder's stack.
fn last_kept(b: &Builder<'_>, set: Set, except: u16) -> Option<usize>
    requires { Whole (full_of b.now).stack }
    ensures { result ≡ last_with (λ n. not (is_implied (names_of set) except (full_of b.now).nodes.mem n)) never (full_of b.now).stack }
{
    last_kept_on(b.nodes, b.stack, b.core.depth, set, except)
}

// The current node is popped while its end tag is implied: all that were opened after the last entry whose is not. The depth after it.
#[tactic(auto, using(places::proofs::Laws::whole_of, crate::proofs::StackLaws::ends_some, crate::proofs::StackLaws::ends_none))]
fn pop_implied_on(nodes: &[u8], h: &mut [u16], depth: usize, set: Set, except: u16) -> usize
    requires { depth ≤ length h.old }
    ensures { places_of h.new result ≡ implied_ends (names_of set) except nodes.now (places_of h.old depth) }
{
    match last_kept_on(nodes, h, depth, set, except) {
        Some(i) => places::cut_at(h, depth, i + 1),
        None => places::cut_at(h, depth, 0),
    }
}

// The same in a builder's stack.
fn pop_implied(b: &mut Builder<'_>, set: Set, except: u16)
    requires { Whole (full_of b.old).stack }
    ensures loans { SameLoans b.old b.new }
    ensures outcome { full_of b.new ≡ with_stack (full_of b.old) (implied_ends (names_of set) except (full_of b.old).nodes.mem (full_of b.old).stack) }
{
    match last_kept(b, set, except) {
        Some(i) => close::pop_from(b, i + 1),
        None => close::pop_from(b, 0),
    }
}

#[tactic(auto, using(crate::proofs::StackLaws::set_cursory, crate::proofs::StackLaws::set_thorough))]
fn set_of(kind: u16) -> Set
    ensures { names_of result ≡ implied_set kind }
{
    if kind == 0 {
        Set::Cursory
    } else {
        Set::Thorough
    }
}

// The kind or the excepted name is none that call 13 takes.
#[tactic(auto, unfolding(standard::specs::Stack::bad_implied))]
fn is_bad(kind: u16, except: u16) -> bool
    ensures { result ≡ bad_implied kind except }
{
    1 < kind || (except != Name::NONE && !names::is_name(except))
}

/// Call 13, "generate implied end tags", 13.2.6.3, for a caller that has `nodes` to read alone: kind 0, or "thoroughly": kind 1, except for
/// elements with the name `except`, 0 for no exception. The first `core.depth` places of `h` are the stack; what comes out is the record
/// after the call. `Unknown` for another kind, or where `except` is neither 0 nor a name.
// Its body stands beside the builder's: out of a `&mut Builder` the stack cannot be lent to be changed and the nodes to be read, in one call.
#[tactic(auto, using(crate::proofs::StackLaws::implied_bad, crate::proofs::StackLaws::implied_done, small::proofs::Laws::stack_put))]
pub fn generate_implied_end_tags_on(
    h: &mut [u16],
    core: Core,
    nodes: &[u8],
    kind: u16,
    except: u16,
) -> Result<Core, Refusal>
    requires { core.depth ≤ length h.old }
    ensures { (l m p q : List ℕ) (x : Option Context) → result_of (answer_number result) (full h.new (value_or result core) x nodes.now l m p q) ≡ def.implied (full h.old core x nodes.now l m p q) kind except }
{
    if is_bad(kind, except) {
        return Err(Refusal::Unknown);
    }
    let size = pop_implied_on(nodes, h, core.depth, set_of(kind), except);
    Ok(core.with_depth(size))
}

/// Call 13, "generate implied end tags", 13.2.6.3: kind 0, or "thoroughly": kind 1, except for elements with the name `except`, 0 for no
/// exception. `Unknown` for another kind, or where `except` is neither 0 nor a name.
#[tactic(auto, using(crate::proofs::StackLaws::implied_bad, crate::proofs::StackLaws::implied_done))]
pub fn generate_implied_end_tags(b: &mut Builder<'_>, kind: u16, except: u16) -> Result<(), Refusal>
    requires { Whole (full_of b.old).stack }
    ensures loans { SameLoans b.old b.new }
    ensures outcome { result_of (answer_number result) (full_of b.new) ≡ def.implied (full_of b.old) kind except }
{
    if is_bad(kind, except) {
        return Err(Refusal::Unknown);
    }
    pop_implied(b, set_of(kind), except);
    Ok(())
}
