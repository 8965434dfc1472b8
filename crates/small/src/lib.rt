#![tactic(auto)]
// The calls that touch places and flags alone: 5, 6, 14 to 18.
ghost use Rattle.std.specs.Prelude.{◌≡◌, ◌≤◌, length};
ghost use Rattle.places.specs.Places.{Whole, places_of, place_of};
ghost use Rattle.records.specs.Refusal.{answer_number};
ghost use Rattle.state.specs.Builder.{SameLoans, full_of};
ghost use Rattle.state.specs.Full.{result_of};
ghost use Rattle.standard.specs.Small.{marked, cleared_at, cleared, popped, fostered, headed, moded, unmoded};

use lent::Node;
use records::refusal::Refusal;
use state::Counts;
use state::builder::Builder;

/// Call 5, a marker: 13.2.4.3, "insert a marker at the end of the list of active formatting elements". `PlacesFull` where the list has no room.
#[tactic(auto, using(crate::proofs::Laws::marked_done, crate::proofs::Laws::marked_full))]
pub fn marker(b: &mut Builder<'_>) -> Result<(), Refusal>
    ensures loans { SameLoans b.old b.new }
    ensures outcome { result_of (answer_number result) (full_of b.new) ≡ marked (full_of b.old) }
{
    let at = b.core.counts.list;
    if at < b.list.len().min(Counts::LIST) {
        let size = places::push(b.list, at, Node::MARKER);
        b.core = b.core.with_list(size);
        return Ok(());
    }
    Err(Refusal::PlacesFull)
}

/// A list that is lent alone, of which the first `count` places are in use, is cleared up to its last marker: the marker goes with all entries
/// after it, or all entries where there is none. The new count. 13.2.4.3, "clear the list of active formatting elements up to the last marker".
pub fn cleared_to(list: &mut [u16], count: usize) -> usize
    requires { count ≤ length list.old }
    ensures { places_of list.new result ≡ cleared_at (place_of (places_of list.old count) 65535) (places_of list.old count) }
{
    match places::find(list, count, Node::MARKER) {
        Some(i) => places::cut_at(list, count, i),
        None => places::cut_at(list, count, 0),
    }
}

/// Call 6, clear: 13.2.4.3, "clear the list of active formatting elements up to the last marker".
#[tactic(auto, using(crate::proofs::Laws::cleared_done))]
pub fn clear(b: &mut Builder<'_>)
    requires { Whole (full_of b.old).list }
    ensures loans { SameLoans b.old b.new }
    ensures outcome { result_of 0 (full_of b.new) ≡ cleared (full_of b.old) }
{
    let size = cleared_to(b.list, b.core.counts.list);
    b.core = b.core.with_list(size);
}

/// Call 14, pop: 13.2.4.2. `NothingToDo` where only the root is open.
#[tactic(auto, using(crate::proofs::Laws::popped_root, crate::proofs::Laws::popped_done))]
pub fn pop(b: &mut Builder<'_>) -> Result<(), Refusal>
    requires { Whole (full_of b.old).stack }
    ensures loans { SameLoans b.old b.new }
    ensures outcome { result_of (answer_number result) (full_of b.new) ≡ popped (full_of b.old) }
{
    let depth = b.core.depth;
    if depth < 2 {
        return Err(Refusal::NothingToDo);
    }
    let size = places::cut_at(b.stack, depth, depth - 1);
    b.core = b.core.with_depth(size);
    Ok(())
}

/// Call 15, foster parenting is enabled (1) or disabled (0): 13.2.6.1. `Unknown` for any other flag.
#[tactic(auto, using(crate::proofs::Laws::fostered_bad, crate::proofs::Laws::fostered_done))]
pub fn foster(b: &mut Builder<'_>, on: u16) -> Result<(), Refusal>
    ensures loans { SameLoans b.old b.new }
    ensures outcome { result_of (answer_number result) (full_of b.new) ≡ fostered (full_of b.old) on }
{
    if 1 < on {
        return Err(Refusal::Unknown);
    }
    b.core = b.core.with_foster(usize::from(on));
    Ok(())
}

/// Call 18, the head element pointer is set (1) or null (0): 13.2.4.4. `Unknown` for any other flag.
#[tactic(auto, using(crate::proofs::Laws::headed_bad, crate::proofs::Laws::headed_done))]
pub fn head(b: &mut Builder<'_>, on: u16) -> Result<(), Refusal>
    ensures loans { SameLoans b.old b.new }
    ensures outcome { result_of (answer_number result) (full_of b.new) ≡ headed (full_of b.old) on }
{
    if 1 < on {
        return Err(Refusal::Unknown);
    }
    b.core = b.core.with_head(usize::from(on));
    Ok(())
}

/// Call 16, a template insertion mode, 1 to 21, is pushed: 13.2.4.1. `Unknown` for any other number, `PlacesFull` where there is no room.
#[tactic(auto, using(crate::proofs::Laws::mode_zero, crate::proofs::Laws::mode_past, crate::proofs::Laws::mode_done, crate::proofs::Laws::mode_full))]
pub fn push_mode(b: &mut Builder<'_>, v: u16) -> Result<(), Refusal>
    ensures loans { SameLoans b.old b.new }
    ensures outcome { result_of (answer_number result) (full_of b.new) ≡ moded (full_of b.old) v }
{
    if v == 0 || 21 < v {
        return Err(Refusal::Unknown);
    }
    let at = b.core.counts.modes;
    if at < b.modes.len().min(Counts::MODES) {
        let size = places::push(b.modes, at, v);
        b.core = b.core.with_modes(size);
        return Ok(());
    }
    Err(Refusal::PlacesFull)
}

/// Call 17, the current template insertion mode is popped: 13.2.4.1. `NothingToDo` where there is none.
#[tactic(auto, using(crate::proofs::Laws::unmode_done, crate::proofs::Laws::unmode_none))]
pub fn pop_mode(b: &mut Builder<'_>) -> Result<(), Refusal>
    requires { Whole (full_of b.old).modes }
    ensures loans { SameLoans b.old b.new }
    ensures outcome { result_of (answer_number result) (full_of b.new) ≡ unmoded (full_of b.old) }
{
    let at = b.core.counts.modes;
    if 0 < at {
        let size = places::cut_at(b.modes, at, at - 1);
        b.core = b.core.with_modes(size);
        return Ok(());
    }
    Err(Refusal::NothingToDo)
}
