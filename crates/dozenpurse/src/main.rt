#![tactic(auto)]
// A leaflet from its records: standard input is run in 2,048 nodes, and the tree goes to standard output, line by line, then
// how many records were done and the answer.
ghost use Rattle.std.specs.Prelude.{◌≡◌, min, None};
ghost use Rattle.records.specs.Refusal.{answer_number, value_or};
ghost use Rattle.state.specs.Fields.{empty_state};
ghost use Rattle.standard.specs.Begin.{begin_answer};
ghost use Rattle.dozenpurse.specs.Leaflet.{cut_answer, leaflet_of};
ghost use Rattle.dozenpurse.specs.Leaflet as def;

use lent::Node;
use records::refusal;
use records::refusal::Refusal;
use state::State;
use state::lent::{Lent, Seen};
use std::io;

// How much of standard input is run.
const MOST: usize = 16384;

// The most lines that a tree of 2,048 nodes has: a node has its own and one for each of its 16 attributes (`few_lines` in `shown`).
const LINES: usize = 34816;

// What was run: whether all of it was done or what refused it, and how many records were done.
#[derive(Clone, Copy)]
struct Done {
    answer: Result<(), Refusal>,
    records: usize,
}

// Input past the most that is run counts as a cut record after it.
#[tactic(auto, unfolding(crate::specs::Leaflet::cut_answer))]
fn cut(answer: Result<(), Refusal>, n: usize) -> Result<(), Refusal>
    ensures { answer_number result ≡ cut_answer (answer_number answer) n }
{
    answer?;
    if MOST < n {
        return Err(Refusal::BadRecord);
    }
    Ok(())
}

// The record to run on: where a begin is refused an empty one, on which nothing is done.
fn begun(begin: Result<State, Refusal>) -> State
    ensures { result ≡ value_or begin empty_state }
{
    match begin {
        Ok(state) => state,
        Err(_) => State::empty(),
    }
}

// The first n bytes of the buffer are the input, and the memory has room for a begin.
fn leaflet(buffer: &[u8], n: usize, lent: &mut Lent<'_>) -> Done
    requires { begin_answer lent.old.nodes.now lent.old.modes.now None ≡ 0 }
    ensures { def.leaflet (answer_number result.answer) result.records lent.new.nodes.now lent.new.pieces.now lent.new.pairs.now ≡ leaflet_of buffer.now n lent.old.nodes.now lent.old.list.now lent.old.modes.now lent.old.pieces.now lent.old.pairs.now }
{
    let input = &buffer[..n.min(MOST).min(buffer.len())];
    let state = begun(begin::begin(lent.nodes, lent.modes, None));
    let ran = calls::run(state, lent, input);
    Done {
        answer: cut(ran.answer, n),
        records: ran.done,
    }
}

fn print_tree(rt: &impl Print, seen: Seen<'_>, line: &mut [u8]) -> io::Result<()> {
    let mut at = dump::start(seen.nodes);
    for _ in 0..LINES {
        if at.node == Node::NONE {
            break;
        }
        let n = dump::line(seen.nodes, seen.pieces, seen.pairs, at, line);
        rt.write_all(&line[..n])?;
        at = dump::next(seen.nodes, at);
    }
    Ok(())
}

fn main(rt: HostRuntime) -> io::Result<()> {
    let mut buffer = [0u8; 16385];
    let n = saved::input::read_full(&mut rt.stdin(), &mut buffer)?;
    let mut nodes = [0u8; 65568];
    let mut list = [0u16; 256];
    let mut modes = [0u16; 64];
    let mut pieces = [0u8; 32772];
    let mut pairs = [0u8; 16384];
    let mut lent = Lent {
        nodes: &mut nodes,
        list: &mut list,
        modes: &mut modes,
        pieces: &mut pieces,
        pairs: &mut pairs,
    };
    let done = leaflet(&buffer, n, &mut lent);
    let mut line = [0u8; 65536];
    print_tree(&rt, lent.seen(), &mut line)?;
    println!(rt;
        "records {} answer {}",
        done.records,
        refusal::answer(done.answer)
    )
}
