#![tactic(auto)]
// Call 7: reconstruct the active formatting elements (13.2.4.3).
ghost use Rattle.std.specs.Prelude.{◌≡◌, ◌+◌, ◌-◌, ◌<◌, ◌≤◌, length};
ghost use Rattle.lent.specs.Room.{free_nodes};
ghost use Rattle.makers.specs.Make.{copied};
ghost use Rattle.places.specs.Places.{Whole, down, never};
ghost use Rattle.records.specs.Refusal.{answer_number};
ghost use Rattle.state.specs.Builder.{SameLoans, full_of};
ghost use Rattle.state.specs.Full.{result_of, with_nodes};
ghost use Rattle.standard.specs.Place.{attached};
ghost use Rattle.standard.specs.Insertion.{usual_place};
ghost use Rattle.standard.specs.Formatting.{is_marker_or_open, first_lost, anew_at, anew, reconstructed};

use lent::Node;
use location::place;
use records::refusal::Refusal;
use state::Stack;
use state::builder::Builder;

// The entry is a marker, or open.
#[tactic(auto, unfolding(standard::specs::Formatting::is_marker_or_open, standard::specs::Stack::is_found))]
fn is_marker_or_open(b: &Builder<'_>, n: u16) -> bool
    requires { Whole (full_of b.now).stack }
    ensures { result ≡ is_marker_or_open (full_of b.now).stack n }
{
    n == Node::MARKER || places::find(b.stack, b.core.depth, n).is_some()
}

// The last of the entries that is a marker or open.
fn last_kept(b: &Builder<'_>, entries: &[u16]) -> Option<usize>
    requires { Whole (full_of b.now).stack }
    ensures { result ≡ down (is_marker_or_open (full_of b.now).stack) never entries.now (length entries.now) }
{
    places::last_with(entries, |n| is_marker_or_open(b, n), |_| false)
}

// Steps 1 to 7: the first entry that is to be made anew.
#[tactic(auto, using(crate::proofs::Laws::lost_after, crate::proofs::Laws::lost_all))]
fn first_lost(b: &Builder<'_>) -> usize
    requires whole { Whole (full_of b.now).stack }
    requires list { Whole (full_of b.now).list }
    ensures most { result ≤ (full_of b.now).list.size }
    ensures first { result ≡ first_lost (full_of b.now).stack (full_of b.now).list }
{
    let count = b.core.counts.list;
    match last_kept(b, &b.list[..count]) {
        Some(i) => i + 1,
        None => 0,
    }
}

fn free_nodes(b: &Builder<'_>) -> usize
    ensures { result ≡ free_nodes (full_of b.now).nodes.mem (full_of b.now).nodes.used }
{
    lent::room::free_nodes(b.nodes, b.core.counts.nodes)
}

// A copy of element e is put at the appropriate place: the number that it gets.
#[tactic(auto, using(crate::proofs::Laws::copied_in, crate::proofs::Laws::copied_number))]
fn copy_in(b: &mut Builder<'_>, e: Node) -> u16
    requires some { 0 < (full_of b.old).stack.size }
    requires whole { Whole (full_of b.old).stack }
    requires nodes { (full_of b.old).nodes.used < 4096 }
    ensures loans { SameLoans b.old b.new }
    ensures number { result ≡ (full_of b.old).nodes.used + 1 }
    ensures outcome { full_of b.new ≡ with_nodes (full_of b.old) (attached (copied (full_of b.old).nodes.mem result e.0) (usual_place (full_of b.old)) result) result }
{
    let p = place::usual_place(b);
    let used = b.core.counts.nodes;
    let n = lent::room::next(used);
    makers::make::copy_element(b.nodes, Node(n), e);
    place::attach(b.nodes, p, Node(n));
    b.core = b.core.with_nodes(used + 1);
    n
}

// Steps 8 and 9 for entry i.
fn make_anew(b: &mut Builder<'_>, i: usize)
    requires some { 0 < (full_of b.old).stack.size }
    requires whole { Whole (full_of b.old).stack }
    requires places { 0 < length (full_of b.old).stack.free }
    requires entry { i < (full_of b.old).list.size }
    requires list { Whole (full_of b.old).list }
    requires nodes { (full_of b.old).nodes.used < 4096 }
    ensures loans { SameLoans b.old b.new }
    ensures outcome { full_of b.new ≡ anew_at (full_of b.old) i }
{
    let e = b.list[i];
    let n = copy_in(b, Node(e));
    let size = places::push(b.stack, b.core.depth, n);
    places::swap_at(b.list, b.core.counts.list, i, n);
    b.core = b.core.with_depth(size);
}

// Steps 8 to 10 for the entries from `first` on.
fn make_all(b: &mut Builder<'_>, first: usize)
    requires some { 0 < (full_of b.old).stack.size }
    requires whole { Whole (full_of b.old).stack }
    requires places { (full_of b.old).list.size - first ≤ length (full_of b.old).stack.free }
    requires first { first ≤ (full_of b.old).list.size }
    requires list { Whole (full_of b.old).list }
    requires nodes { (full_of b.old).nodes.used + ((full_of b.old).list.size - first) ≤ 4096 }
    ensures loans { SameLoans b.old b.new }
    ensures outcome { full_of b.new ≡ anew (full_of b.old) first ((full_of b.old).list.size - first) }
{
    let count = b.core.counts.list;
    for i in first..count {
        make_anew(b, i);
    }
}

/// Call 7, "reconstruct the active formatting elements": 13.2.4.3. `NodesFull` where fewer nodes are free than elements are to be made,
/// and else `StackFull` where fewer places are.
#[tactic(auto, using(crate::proofs::Laws::few_nodes_lem, crate::proofs::Laws::few_places, crate::proofs::Laws::all_anew))]
pub fn reconstruct_active_formatting_elements(b: &mut Builder<'_>) -> Result<(), Refusal>
    requires some { 0 < (full_of b.old).stack.size }
    requires whole { Whole (full_of b.old).stack }
    requires places { (full_of b.old).stack.size + length (full_of b.old).stack.free ≡ 512 }
    requires list { Whole (full_of b.old).list }
    requires nodes { (full_of b.old).nodes.used ≤ 4096 }
    ensures loans { SameLoans b.old b.new }
    ensures outcome { result_of (answer_number result) (full_of b.new) ≡ reconstructed (full_of b.old) }
{
    let first = first_lost(b);
    let lost = b.core.counts.list - first;
    if free_nodes(b) < lost {
        return Err(Refusal::NodesFull);
    }
    if Stack::PLACES - b.core.depth < lost {
        return Err(Refusal::StackFull);
    }
    make_all(b, first);
    Ok(())
}
