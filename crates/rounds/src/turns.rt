// One round of the adoption agency (13.2.6.4.7, step 4). Each part of it answers whether there is another round.
ghost use Rattle.std.specs.Prelude.{◌≡◌, ◌<◌, Some};
ghost use Rattle.places.specs.Places.{Whole, at, place_of};
ghost use Rattle.state.specs.Builder.{SameLoans, full_of};
ghost use Rattle.standard.specs.Adoption.{entry_of, blocked, scoped, opened, entry_at};
ghost use Rattle.adopted.specs.Firm.{Firm};
ghost use Rattle.rounds.specs.Turns.{turn_of};

use crate::search;
use adopted::finish;
use names::sets::Set;
use stacks::{close, walk};
use state::builder::Builder;

// 4.7 to 4.19: fe is entry s of the stack and j of the list.
#[tactic(auto, using(adopted::proofs::WalkLaws::both_put, crate::proofs::TurnLaws::block_none))]
fn with_block(b: &mut Builder<'_>, fe: u16, s: usize, j: usize) -> bool
    requires firm { Firm (full_of b.old).stack (full_of b.old).list (full_of b.old).nodes.used 1 }
    requires open { s < (full_of b.old).stack.size }
    requires here { at (full_of b.old).stack s ≡ fe }
    requires listed { place_of (full_of b.old).list fe ≡ Some j }
    ensures loans { SameLoans b.old b.new }
    ensures outcome { turn_of result (full_of b.new) ≡ blocked (full_of b.old) fe s j }
{
    match search::furthest(b, s) {
        None => {
            let size = places::cut_at(b.stack, b.core.depth, s);
            let fewer = places::remove_at(b.list, b.core.counts.list, j);
            b.core = b.core.with_depth(size).with_list(fewer);
            false
        }
        Some(block) => {
            finish::adopt(b, fe, s, block);
            true
        }
    }
}

// 4.5 to 4.19.
#[tactic(auto, using(crate::proofs::TurnLaws::scope_none, crate::proofs::TurnLaws::scope_at_lem))]
fn with_open(b: &mut Builder<'_>, fe: u16, s: usize, j: usize) -> bool
    requires firm { Firm (full_of b.old).stack (full_of b.old).list (full_of b.old).nodes.used 1 }
    requires open { s < (full_of b.old).stack.size }
    requires here { at (full_of b.old).stack s ≡ fe }
    requires listed { place_of (full_of b.old).list fe ≡ Some j }
    ensures loans { SameLoans b.old b.new }
    ensures outcome { turn_of result (full_of b.new) ≡ scoped (full_of b.old) fe s j }
{
    match walk::in_scope(b, Set::DefaultScope, |n| n == fe) {
        None => false,
        Some(_) => with_block(b, fe, s, j),
    }
}

// Where the entry at place j of the list is open.
#[tactic(auto, using(places::proofs::Laws::at_of))]
fn open_at(b: &Builder<'_>, j: usize) -> Option<usize>
    requires listed { j < (full_of b.now).list.size }
    requires stack { Whole (full_of b.now).stack }
    requires list { Whole (full_of b.now).list }
    ensures { result ≡ place_of (full_of b.now).stack (at (full_of b.now).list j) }
{
    places::find(b.stack, b.core.depth, b.list[j])
}

// 4.4 to 4.19, with the formatting element at place j of the list.
#[tactic(auto, using(crate::proofs::TurnLaws::open_none, crate::proofs::TurnLaws::open_at_lem, crate::proofs::SearchLaws::open_lt, crate::proofs::SearchLaws::open_is, places::proofs::Laws::at_of, small::proofs::Laws::list_put))]
fn with_entry(b: &mut Builder<'_>, j: usize) -> bool
    requires firm { Firm (full_of b.old).stack (full_of b.old).list (full_of b.old).nodes.used 1 }
    requires listed { j < (full_of b.old).list.size }
    requires last { place_of (full_of b.old).list (at (full_of b.old).list j) ≡ Some j }
    ensures loans { SameLoans b.old b.new }
    ensures outcome { turn_of result (full_of b.new) ≡ opened (full_of b.old) j }
{
    match open_at(b, j) {
        None => {
            let fewer = places::remove_at(b.list, b.core.counts.list, j);
            b.core = b.core.with_list(fewer);
            false
        }
        Some(s) => {
            let fe = b.list[j];
            with_open(b, fe, s, j)
        }
    }
}

/// 4.3 to 4.19: the formatting element is looked for by `subject`; without one the end-tag path is for `token`, in any round. True where
/// there is another round: where the formatting element had a furthest block.
#[tactic(auto, using(crate::proofs::TurnLaws::entry_none, crate::proofs::TurnLaws::entry_at_lem, crate::proofs::SearchLaws::entry_lt, crate::proofs::SearchLaws::entry_place))]
pub fn one_round(b: &mut Builder<'_>, subject: u16, token: u16) -> bool
    requires { Firm (full_of b.old).stack (full_of b.old).list (full_of b.old).nodes.used 1 }
    ensures loans { SameLoans b.old b.new }
    ensures outcome { turn_of result (full_of b.new) ≡ entry_at (entry_of (full_of b.old).nodes.mem (full_of b.old).list subject) (full_of b.old) token }
{
    match search::entry(b, subject) {
        None => {
            close::end_tag(b, token);
            false
        }
        Some(j) => with_entry(b, j),
    }
}
