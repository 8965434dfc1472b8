#![tactic(auto)]
// Calls 8 and 9: the adoption agency for an end tag, and for a start tag `a` that meets an `a` in the list (13.2.6.4.7).
ghost use Rattle.std.specs.Prelude.{◌≡◌, ◌<◌, ◌&&◌, not, is_some, Some};
ghost use Rattle.places.specs.Places.{Whole, place_of};
ghost use Rattle.records.specs.Refusal.{answer_number};
ghost use Rattle.state.specs.Builder.{SameLoans, full_of};
ghost use Rattle.state.specs.Full.{result_of};
ghost use Rattle.standard.specs.Html.{is_html, current};
ghost use Rattle.standard.specs.Adoption.{rounds, few_nodes, adoption, leaves, misnested_at, misnested};
ghost use Rattle.standard.specs.Adoption as def;
ghost use Rattle.adopted.specs.Firm.{Firm};
ghost use Rattle.rounds.specs.Turns.{turn_of, further};

use lent::Node;
use location::html;
use names::sets::Set;
use names::{Namespace, tag};
use records::refusal::Refusal;
use rounds::{search, turns};
use stacks::close;
use state::builder::Builder;

// 4.2: the most rounds.
const ROUNDS: usize = 8;

// The nodes that have to be free: four for each round.
const ROOM: usize = 32;

// 4 after its first round: the count goes on to the end, and there is a round as long as the one before it asks for it.
fn later_rounds(b: &mut Builder<'_>, first: bool, name: u16)
    requires { Firm (full_of b.old).stack (full_of b.old).list (full_of b.old).nodes.used 7 }
    ensures loans { SameLoans b.old b.new }
    ensures outcome { full_of b.new ≡ further (turn_of first (full_of b.old)) name 7 }
{
    let mut again = first;
    for _round in 1..ROUNDS {
        if again {
            again = turns::one_round(b, name, name);
        }
    }
}

// 4.
fn all_rounds(b: &mut Builder<'_>, name: u16)
    requires { Firm (full_of b.old).stack (full_of b.old).list (full_of b.old).nodes.used 8 }
    ensures loans { SameLoans b.old b.new }
    ensures outcome { full_of b.new ≡ rounds (full_of b.old) name 8 }
{
    let first = turns::one_round(b, name, name);
    later_rounds(b, first, name);
}

// 2: the current node has the name, and is not in the list.
#[tactic(auto, using(crate::proofs::Laws::unlisted_other, crate::proofs::Laws::unlisted_named, small::proofs::Laws::current_of))]
fn is_unlisted(b: &Builder<'_>, name: u16) -> bool
    requires some { 0 < (full_of b.now).stack.size }
    requires stack { Whole (full_of b.now).stack }
    requires list { Whole (full_of b.now).list }
    ensures { result ≡ (is_html (full_of b.now).nodes.mem (current (full_of b.now).stack) name && not (is_some (place_of (full_of b.now).list (current (full_of b.now).stack)))) }
{
    let top = b.stack[b.core.depth - 1];
    html::is_html(b.nodes, Node(top), name)
        && places::find(b.list, b.core.counts.list, top).is_none()
}

// 1 to 4, past the refusals.
#[tactic(auto, using(crate::proofs::Laws::agency_popped, crate::proofs::Laws::agency_rounds))]
fn agency(b: &mut Builder<'_>, name: u16)
    requires firm { Firm (full_of b.old).stack (full_of b.old).list (full_of b.old).nodes.used 8 }
    requires some { 0 < (full_of b.old).stack.size }
    ensures loans { SameLoans b.old b.new }
    ensures outcome { full_of b.new ≡ def.agency (full_of b.old) name }
{
    if is_unlisted(b, name) {
        let top = b.core.depth - 1;
        close::pop_from(b, top);
    } else {
        all_rounds(b, name);
    }
}

// Fewer nodes are free than the agency may make.
#[tactic(auto, unfolding(standard::specs::Adoption::few_nodes))]
fn has_few_nodes(b: &Builder<'_>) -> bool
    ensures { result ≡ few_nodes (full_of b.now) }
{
    lent::room::free_nodes(b.nodes, b.core.counts.nodes) < ROOM
}

/// Call 8, the adoption agency algorithm for an end tag: 13.2.6.4.7. `Unknown` where `name` is no formatting name, `NodesFull` where fewer
/// than 32 nodes are free.
#[tactic(auto, using(crate::proofs::Laws::adoption_bad, crate::proofs::Laws::adoption_few, crate::proofs::Laws::adoption_done))]
pub fn adoption_agency(b: &mut Builder<'_>, name: u16) -> Result<(), Refusal>
    requires firm { Firm (full_of b.old).stack (full_of b.old).list (full_of b.old).nodes.used 0 }
    requires some { 0 < (full_of b.old).stack.size }
    ensures loans { SameLoans b.old b.new }
    ensures outcome { result_of (answer_number result) (full_of b.new) ≡ adoption (full_of b.old) name }
{
    if !Set::Formatting.has(Namespace::HTML, name) {
        return Err(Refusal::Unknown);
    }
    if has_few_nodes(b) {
        return Err(Refusal::NodesFull);
    }
    agency(b, name);
    Ok(())
}

// n leaves stack and list, if it is there: by its number, since after the rounds its places are not known.
#[tactic(auto, using(adopted::proofs::WalkLaws::both_put), unfolding(standard::specs::Adoption::leaves))]
fn leave(b: &mut Builder<'_>, n: u16)
    requires stack { Whole (full_of b.old).stack }
    requires list { Whole (full_of b.old).list }
    ensures loans { SameLoans b.old b.new }
    ensures outcome { full_of b.new ≡ leaves (full_of b.old) n }
{
    let size = places::leave(b.stack, b.core.depth, n);
    let fewer = places::leave(b.list, b.core.counts.list, n);
    b.core = b.core.with_depth(size).with_list(fewer);
}

// 9 for the `a` at place j of the list.
#[tactic(auto, using(crate::proofs::Laws::misnested_few, crate::proofs::Laws::misnested_done, places::proofs::Laws::at_of))]
fn handle_entry(b: &mut Builder<'_>, j: usize) -> Result<(), Refusal>
    requires firm { Firm (full_of b.old).stack (full_of b.old).list (full_of b.old).nodes.used 0 }
    requires some { 0 < (full_of b.old).stack.size }
    requires listed { j < (full_of b.old).list.size }
    ensures loans { SameLoans b.old b.new }
    ensures outcome { result_of (answer_number result) (full_of b.new) ≡ misnested_at (Some j) (full_of b.old) }
{
    if has_few_nodes(b) {
        return Err(Refusal::NodesFull);
    }
    let n = b.list[j];
    agency(b, tag::A);
    leave(b, n);
    Ok(())
}

/// Call 9, a start tag whose tag name is "a": 13.2.6.4.7. Where the list has an `a` after its last marker, the agency runs for it, and it
/// leaves list and stack. `NodesFull` where there is one and fewer than 32 nodes are free.
#[tactic(auto, using(crate::proofs::Laws::misnested_none, crate::proofs::Laws::misnested_at_lem, rounds::proofs::SearchLaws::entry_lt))]
pub fn handle_misnested_a_tags(b: &mut Builder<'_>) -> Result<(), Refusal>
    requires firm { Firm (full_of b.old).stack (full_of b.old).list (full_of b.old).nodes.used 0 }
    requires some { 0 < (full_of b.old).stack.size }
    ensures loans { SameLoans b.old b.new }
    ensures outcome { result_of (answer_number result) (full_of b.new) ≡ misnested (full_of b.old) }
{
    match search::entry(b, tag::A) {
        None => Ok(()),
        Some(j) => handle_entry(b, j),
    }
}
