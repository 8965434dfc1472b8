#![tactic(auto)]
// One request on a saved state: the answer as text, and the state after it (docs/LAYOUT.md).
use crate::request::Request;
use dump::page::Page;
use lent::{Node, Pair, Piece};
use queries::body_elem::body_elem;
use queries::foreign::is_foreign;
use queries::reset::reset_insertion_mode;
use queries::tokenizer::tokenizer_state_for_context_elem;
use records::call::Call;
use records::refusal::Refusal;
use saved::region::Region;
use saved::{load, save};
use state::lent::{Lent, Seen};
use state::{Stack, State};

pub mod request;

// What a request gave: its answer, what is reported beside it, if anything, and the state after it. Of a run the records done are
// reported where it was refused too, so an `Ok` doesn't hold them.
#[derive(Clone, Copy)]
struct Given {
    answer: Result<(), Refusal>,
    reported: Option<usize>,
    state: State,
}

fn byte(s: &[u8], i: usize) -> u8 {
    s.get(i).copied().unwrap_or(0)
}

// So many slots of a region, and no more than are lent; the answer is the word after them.
fn slots(s: &[u8], from: usize, of: Region, mem: &mut [u8], count: usize) -> usize {
    let held = count.min(of.slots(mem));
    load::slots(s, from, of, mem, held)
}

// The lent regions from the words; the answer is how many words there were.
fn fill(s: &[u8], lent: &mut Lent<'_>) -> usize {
    let stack = load::RECORD + load::number(s, 10).min(Stack::PLACES);
    let nodes = slots(s, stack, Region::Nodes, lent.nodes, load::number(s, 5));
    let list = load::places(s, nodes, lent.list, load::number(s, 6));
    let modes = load::places(s, list, lent.modes, load::number(s, 7));
    let pieces = slots(s, modes, Region::Pieces, lent.pieces, load::number(s, 8));
    slots(s, pieces, Region::Pairs, lent.pairs, load::number(s, 9))
}

// A state check, after which that is the answer.
fn checked(state: State, seen: Seen<'_>, then: Result<(), Refusal>) -> Given {
    let answer = if edge::is_sound(state, seen) {
        then
    } else {
        Err(Refusal::Unsound)
    };
    Given {
        answer,
        reported: None,
        state,
    }
}

// A first word that is neither 0 nor 1 is refused, as a flag would be.
fn begun(lent: &mut Lent<'_>, rest: &[u8]) -> Result<State, Refusal> {
    if 1 < load::word(rest, 0) {
        return Err(Refusal::Unknown);
    }
    begin::begin(lent.nodes, lent.modes, load::context(rest, 0))
}

fn begin_with(state: State, lent: &mut Lent<'_>, rest: &[u8]) -> Given {
    match begun(lent, rest) {
        Ok(state) => Given {
            answer: Ok(()),
            reported: None,
            state,
        },
        Err(e) => refused(e, state),
    }
}

fn refused(e: Refusal, state: State) -> Given {
    Given {
        answer: Err(e),
        reported: None,
        state,
    }
}

// Calls 8 and 9, once they are done, report the nodes that they took.
fn single(state: State, lent: &mut Lent<'_>, rest: &[u8]) -> Given {
    let called = calls::call(state, lent, rest);
    let call = Call::try_from(u16::from(byte(rest, 0)));
    let reports = called.answer.is_ok() && matches!(call, Ok(Call::Adopt | Call::MisnestedA));
    Given {
        answer: called.answer,
        reported: reports.then_some(called.taken),
        state: called.state,
    }
}

// A question changes nothing, and is told only where it is answered.
fn told(answer: Result<usize, Refusal>, state: State) -> Given {
    match answer {
        Ok(value) => Given {
            answer: Ok(()),
            reported: Some(value),
            state,
        },
        Err(e) => refused(e, state),
    }
}

fn serve_on(byte: u8, state: State, lent: &mut Lent<'_>, rest: &[u8]) -> Given {
    let a = load::word(rest, 0);
    let b = load::word(rest, 1);
    match Request::try_from(byte) {
        Ok(Request::Check) => checked(state, lent.seen(), Ok(())),
        Ok(Request::Begin) => begin_with(state, lent, rest),
        Ok(Request::Call) => single(state, lent, rest),
        Ok(Request::Run) => {
            let ran = calls::run(state, lent, rest);
            Given {
                answer: ran.answer,
                reported: Some(ran.done),
                state: ran.state,
            }
        }
        Ok(Request::Reset) => told(
            reset_insertion_mode(state, lent.seen()).map(|mode| usize::from(mode.0)),
            state,
        ),
        Ok(Request::Foreign) => told(is_foreign(state, lent.seen(), a, b).map(usize::from), state),
        Ok(Request::Body) => told(
            body_elem(state, lent.seen()).map(|body| body.map_or(0, |n| usize::from(n.0))),
            state,
        ),
        Ok(Request::Tokenizer) => told(
            tokenizer_state_for_context_elem(state, lent.seen(), a).map(|next| next.number()),
            state,
        ),
        Err(e) => checked(state, lent.seen(), Err(e)),
    }
}

fn digit(n: usize) -> u8 {
    b'0' + (n % 10) as u8
}

// A number in decimal. By hand past five digits: of those the last five are written, their zeros too, and what the programs print may not change.
fn put_decimal(n: usize, page: &mut Page<'_>) {
    if n < 100000 {
        return page.decimal(n);
    }
    page.byte(digit(n / 10000));
    page.byte(digit(n / 1000));
    page.byte(digit(n / 100));
    page.byte(digit(n / 10));
    page.byte(digit(n));
}

fn put_line(label: &[u8], n: usize, page: &mut Page<'_>) {
    page.bytes(label);
    put_decimal(n, page);
    page.byte(b'\n');
}

/// Answers a request on a saved state, and puts answer and state into `out`; how many bytes of it were written. The lent slices are as
/// long as the capacities say.
pub fn serve(s: &[u8], lent: &mut Lent<'_>, out: &mut [u8]) -> usize {
    let state = load::record(s);
    let words = fill(s, lent);
    let at = words.saturating_add(words);
    let rest = &s[at.saturating_add(1).min(s.len())..];
    let given = serve_on(byte(s, at), state, lent, rest);
    let mut page = Page::new(out);
    put_line(
        b"answer ",
        records::refusal::answer(given.answer),
        &mut page,
    );
    if let Some(n) = given.reported {
        put_line(b"result ", n, &mut page);
    }
    save::put_state(given.state, lent.seen(), &mut page);
    page.byte(b'\n');
    page.at
}

// On what the capacities leave of each region. The slices come one by one: tried with a `Lent`, whose slices the borrow proof doesn't let
// be shortened.
fn serve_part(
    s: &[u8],
    nodes: &mut [u8],
    list: &mut [u16],
    modes: &mut [u16],
    pieces: &mut [u8],
    pairs: &mut [u8],
    out: &mut [u8],
) -> usize {
    let node_bytes = (load::number(s, 0).min(Node::MOST) * 32 + 32).min(nodes.len());
    let entries = load::number(s, 1).min(list.len());
    let numbers = load::number(s, 2).min(modes.len());
    let piece_bytes = (load::number(s, 3).min(Piece::MOST) * 4 + 4).min(pieces.len());
    let pair_bytes = (load::number(s, 4).min(Pair::MOST) * 4).min(pairs.len());
    let mut part = Lent {
        nodes: &mut nodes[..node_bytes],
        list: &mut list[..entries],
        modes: &mut modes[..numbers],
        pieces: &mut pieces[..piece_bytes],
        pairs: &mut pairs[..pair_bytes],
    };
    serve(s, &mut part, out)
}

/// The same with whole buffers: the first n bytes are the input, and the capacities in it say how much of each region is lent.
pub fn serve_whole(buffer: &[u8], n: usize, lent: &mut Lent<'_>, out: &mut [u8]) -> usize {
    let s = &buffer[..n.min(buffer.len())];
    serve_part(
        s,
        lent.nodes,
        lent.list,
        lent.modes,
        lent.pieces,
        lent.pairs,
        out,
    )
}
